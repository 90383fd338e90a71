//! The points that are wanted, and the words that are evicted before each crash.

ghost use Rattle.std.specs.Prelude.{◌≡◌};
ghost use Rattle.pqx.specs.Wanting.{evictions_by, wanted_by};

use explore::{Evictions, Part, Wanted};
use options::{Choice, PointOptions};

/// The evictions that are asked for.
pub(crate) fn evictions(choice: Choice, draw: u64) -> Evictions
    ensures { result ≡ evictions_by choice draw }
{
    match choice {
        Choice::None => Evictions::None,
        Choice::All => Evictions::All,
        Choice::Drawn => Evictions::Drawn { state: draw },
    }
}

/// What is asked for.
pub(crate) fn wanted(asked: PointOptions<'_>) -> Wanted
    ensures { result ≡ wanted_by asked.entry }
{
    Wanted {
        evictions: evictions(asked.choice, asked.draw),
        part: Part {
            from: asked.from,
            count: asked.count,
        },
    }
}
