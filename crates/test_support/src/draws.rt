//! Numbers that are drawn.

ghost use Rattle.std.specs.Prelude.{◌<◌};

use rand_core::Rng;
use rand_pcg::Pcg32;

/// A number below `n`, or 0 where there is none.
pub fn below(rng: &mut Pcg32, n: u32) -> u32
    ensures { 0 < n → result < n }
{
    if n == 0 {
        return 0;
    }
    rng.next_u32() % n
}
