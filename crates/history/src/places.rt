//! What stands at a place of a history.

ghost use Rattle.std.specs.Prelude.{◌+◌, ◌^◌, ◌<◌, ◌↔◌, length, IsTrue, All};
ghost use Rattle.events.specs.declared.event.Event.{Event};
ghost use Rattle.events.specs.History.{BeginsAt, EndsAt, Precedes};
ghost use Rattle.events.specs.History.{IsDurable, IsNumbered, IsUnnumbered};

use events::{Event, Events};
use words::Client;

/// Whether a call of the client begins at `p`.
pub(crate) fn begins_at(events: &Events, client: Client, p: usize) -> bool
    requires { p < length events.now.items }
    ensures begins { IsTrue result ↔ BeginsAt events.now.items client p }
    ensures few { p + 1 < 2 ^ 64 }
{
    match events.at(p) {
        Event::Call { client: other, .. } => other == client,
        _ => false,
    }
}

/// Whether what stands at `p` ends a call of the client.
pub(crate) fn ends_at(events: &Events, client: Client, p: usize) -> bool
    requires { p < length events.now.items }
    ensures { IsTrue result ↔ EndsAt events.now.items client p }
{
    match events.at(p) {
        Event::Return { client: other, .. } => other == client,
        Event::Crash => true,
        _ => false,
    }
}

/// Whether the call at `a` precedes what stands at `b`.
pub(crate) fn precedes(events: &Events, a: usize, b: usize) -> bool
    requires first { a < length events.now.items }
    requires second { b < length events.now.items }
    ensures { IsTrue result ↔ Precedes events.now.items a b }
{
    let Event::Call { client, .. } = events.at(a) else {
        return false;
    };
    for k in a + 1..b {
        if ends_at(events, client, k) {
            return true;
        }
    }
    false
}

/// Whether it is a Call with the number 0.
fn is_unnumbered(event: &Event) -> bool
    ensures { IsTrue result ↔ IsUnnumbered event.now }
{
    match event {
        Event::Call { number, .. } => *number == 0,
        _ => false,
    }
}

/// Whether it is a Call with another number.
fn is_numbered(event: &Event) -> bool
    ensures { IsTrue result ↔ IsNumbered event.now }
{
    match event {
        Event::Call { number, .. } => *number > 0,
        _ => false,
    }
}

/// Whether some Call has the number 0.
pub(crate) fn is_durable(events: &Events) -> bool
    ensures { IsTrue result ↔ IsDurable events.now.items }
{
    for p in 0..events.len() {
        if is_unnumbered(&events.at(p)) {
            return true;
        }
    }
    false
}

/// Whether no Call has another number than 0.
fn none_numbered(events: &Events) -> bool
    ensures { IsTrue result ↔ All (λ event. ¬ (IsNumbered event)) events.now.items }
{
    for p in 0..events.len() {
        if is_numbered(&events.at(p)) {
            return false;
        }
    }
    true
}

/// Whether numbers are 0 in every Call or in none.
pub(crate) fn has_one_kind(events: &Events) -> bool
    ensures { IsTrue result ↔ (IsDurable events.now.items → All (λ event. ¬ (IsNumbered event)) events.now.items) }
{
    !is_durable(events) || none_numbered(events)
}
