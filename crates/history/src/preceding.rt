//! Whether an order keeps precedence, by the greatest place so far.

ghost use Rattle.std.specs.Prelude.{◌≡◌, ◌<◌, ◌≤◌, ◌+◌, ◌↔◌, ◌⊎◌, ℕ, length, IsTrue, All};
ghost use Rattle.events.specs.Explains.{KeepsPrecedence};
ghost use Rattle.history.specs.Plainly.{IsNotAfter};
ghost use Rattle.history.specs.Sweeps.{IsGreatest};

use crate::places::precedes;
use events::{Entry, Events};

/// The greater of two numbers.
fn greater(a: usize, b: usize) -> usize
    ensures first { a ≤ result }
    ensures second { b ≤ result }
    ensures one { (result ≡ a) ⊎ (result ≡ b) }
{
    if a < b { b } else { a }
}

/// Whether the call of the entry at `i` precedes none of the entries up to it. As it has no end before the greatest
/// of their places, the search for one stays within the call.
fn precedes_none(events: &Events, entries: &[Entry], i: usize, greatest: usize) -> bool
    requires within { i < length entries.now }
    requires calls { All (λ entry. entry.place < length events.now.items) entries.now }
    requires greatest { IsGreatest entries.now (i + 1) greatest }
    ensures { IsTrue result ↔ ((j : ℕ) → j ≤ i → IsNotAfter events.now.items entries.now i j) }
{
    !precedes(events, entries[i].place, greatest)
}

/// Whether calls stand in the order before those that they precede.
pub(crate) fn precedence_is_kept(events: &Events, entries: &[Entry]) -> bool
    requires { All (λ entry. entry.place < length events.now.items) entries.now }
    ensures { IsTrue result ↔ KeepsPrecedence events.now.items entries.now }
{
    let mut greatest = 0;
    for i in 0..entries.len() {
        greatest = greater(greatest, entries[i].place);
        if !precedes_none(events, entries, i, greatest) {
            return false;
        }
    }
    true
}
