//! What an order holds.

ghost use Rattle.std.specs.Prelude.{◌↔◌, IsTrue, IsSome, All};
ghost use Rattle.events.specs.Replay.{call_at};

use crate::replaying::named_call;
use events::{Entry, Events};

/// Whether each entry names a call.
pub(crate) fn names_calls(events: &Events, entries: &[Entry]) -> bool
    ensures { IsTrue result ↔ All (λ entry. IsSome (call_at events.now.items entry.place)) entries.now }
{
    entries
        .iter()
        .all(|entry| named_call(events, entry.place).is_some())
}
