//! Events as they are kept: what Readys tell lies apart, so that the others are small.

ghost use Rattle.std.specs.Prelude.{◌≡◌, ◌<◌, ◌+◌, ◌++◌, ◌∷◌, [], Some, length, vec_len, vec_capacity, All, slice_get};
ghost use Rattle.events.specs.Kept.{event_of, events_of, IsToldIn};

use crate::event::Event;
use words::{Call, Client, Reply, Reports};

/// An event as it is kept.
#[derive(Clone, Copy)]
pub(crate) enum Kept {
    Call {
        client: Client,
        number: u64,
        call: Call,
    },
    Return {
        client: Client,
        reply: Reply,
    },
    Crash,
    /// What it tells has this number.
    Ready {
        telling: usize,
    },
}

/// Keeps a Ready, and what it tells, where there is room for that.
pub(crate) fn keep_ready(tellings: &mut Vec<Reports>, told: Reports) -> Kept
    requires { vec_len tellings.old < vec_capacity tellings.old }
    ensures tellings { tellings.new.items ≡ tellings.old.items ++ told ∷ [] }
    ensures event { event_of tellings.new.items result ≡ Event.Ready told }
    ensures told { IsToldIn tellings.new.items result }
    ensures len { vec_len tellings.new ≡ vec_len tellings.old + 1 }
    ensures capacity { vec_capacity tellings.new ≡ vec_capacity tellings.old }
{
    let telling = tellings.len();
    tellings.push_reserved(told);
    Kept::Ready { telling }
}

/// The event that is kept so.
pub(crate) fn event(tellings: &[Reports], kept: Kept) -> Event
    requires { IsToldIn tellings.now kept }
    ensures { result ≡ event_of tellings.now kept }
{
    match kept {
        Kept::Call {
            client,
            number,
            call,
        } => Event::Call {
            client,
            number,
            call,
        },
        Kept::Return { client, reply } => Event::Return { client, reply },
        Kept::Crash => Event::Crash,
        Kept::Ready { telling } => Event::Ready {
            told: copied(&tellings[telling]),
        },
    }
}

/// The same once more. The borrow checker sees no other way to copy an array, or a variable that is used again, where
/// its type has a message somewhere within.
pub fn copied<T: Copy>(value: &T) -> T
    ensures { result ≡ value.now }
{
    *value
}

/// The event that is kept at a place.
pub(crate) fn event_at(tellings: &[Reports], kept: &[Kept], place: usize) -> Event
    requires within { place < length kept.now }
    requires told { All (λ k. IsToldIn tellings.now k) kept.now }
    ensures { slice_get (events_of tellings.now kept.now) place ≡ Some result }
{
    event(tellings, kept[place])
}
