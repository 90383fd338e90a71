//! What clients are told at a Ready.

ghost use Rattle.std.specs.Prelude.{◌≡◌, ◌<◌, ◌↔◌, Some, IsTrue, slice_get};
ghost use Rattle.events.specs.Telling.{IsToldOf};

use events::{Entry, Events, is_same_told};
use words::{Call, Client, Kind, Reports, Told};

/// A client of a queue of this kind, in a history with its order.
#[derive(Clone, Copy)]
pub(crate) struct Listener<'a> {
    pub(crate) kind: Kind,
    pub(crate) events: &'a Events,
    pub(crate) entries: &'a [Entry],
    pub(crate) client: Client,
}

/// Whether a client is told of such a call.
pub(crate) fn is_told_of(kind: Kind, call: Call) -> bool
    ensures { IsTrue result ↔ IsToldOf kind call }
{
    match call {
        Call::Enq(_) => kind == Kind::Log,
        Call::Deq => true,
    }
}

/// Whether the client is told this.
pub(crate) fn is_told(tells: &Reports, client: Client, told: &Told) -> bool
    ensures { IsTrue result ↔ (slice_get tells.now client.0 ≡ Some told.now) }
{
    match tells.get(client.0 as usize) {
        Some(other) => is_same_told(other, told),
        None => false,
    }
}
