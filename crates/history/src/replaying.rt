//! The replay of an order, by what was ever in the queue.

ghost use Rattle.std.specs.Prelude.{◌≡◌, ◌<◌, option_to_list};
ghost use Rattle.history.specs.Counting.{values_of_call};
ghost use Rattle.events.specs.Replay.{call_at};

use events::{Event, Events};
use words::{Call, Value};

/// The call that begins at `p`, if one does.
pub(crate) fn named_call(events: &Events, p: usize) -> Option<Call>
    ensures { result ≡ call_at events.now.items p }
{
    match events.get(p) {
        Some(Event::Call { call, .. }) => Some(call),
        _ => None,
    }
}

/// The value that the call puts into the queue, if there is one and it puts one.
pub(crate) fn value_put(call: Option<Call>) -> Option<Value>
    ensures { option_to_list result ≡ values_of_call call }
{
    match call? {
        Call::Enq(value) => Some(value),
        Call::Deq => None,
    }
}
