//! Whether an order names no call twice, by a pass for each client.

ghost use Rattle.std.specs.Prelude.{◌<◌, ◌+◌, ◌↔◌, length, IsTrue, IfSome, IfNone, All, EachIndex, IsSome};
ghost use Rattle.events.specs.Replay.{call_at};
ghost use Rattle.words.specs.declared.call.Client.{Client};
ghost use Rattle.events.specs.Explains.{KeepsPrecedence};
ghost use Rattle.events.specs.History.{IsHistory};
ghost use Rattle.events.specs.Orders.{IsNew};
ghost use Rattle.history.specs.Sweeps.{Ascends, AscendsTo};

use crate::places::begins_at;
use events::{Entry, Events};
use words::Client;

/// Where the client's next call in the order may begin, after the entry at `i`; nothing where that stands too low.
fn next_after(
    events: &Events,
    entries: &[Entry],
    client: Client,
    i: usize,
    next: usize,
) -> Option<usize>
    requires within { i < length entries.now }
    requires calls { All (λ entry. entry.place < length events.now.items) entries.now }
    requires so_far { AscendsTo events.now.items entries.now client i next }
    ensures some { IfSome result (λ after. AscendsTo events.now.items entries.now client (i + 1) after) }
    ensures none { IfNone result (Ascends events.now.items entries.now client → ⊥) }
{
    let place = entries[i].place;
    if !begins_at(events, client, place) {
        return Some(next);
    }
    if place < next {
        return None;
    }
    Some(place + 1)
}

/// Whether the client's calls stand in the order in ascending places.
fn ascends(events: &Events, entries: &[Entry], client: Client) -> bool
    requires { All (λ entry. entry.place < length events.now.items) entries.now }
    ensures { IsTrue result ↔ Ascends events.now.items entries.now client }
{
    let mut next = 0;
    for i in 0..entries.len() {
        let Some(after) = next_after(events, entries, client, i, next) else {
            return false;
        };
        next = after;
    }
    true
}

/// Whether no call is named twice, in the order of a history that may arise which keeps precedence: then each client's
/// calls stand in ascending places.
pub(crate) fn names_once(events: &Events, entries: &[Entry]) -> bool
    requires calls { All (λ entry. entry.place < length events.now.items) entries.now }
    requires names { All (λ entry. IsSome (call_at events.now.items entry.place)) entries.now }
    requires history { IsHistory events.now.items }
    requires precedence { KeepsPrecedence events.now.items entries.now }
    ensures { IsTrue result ↔ EachIndex entries.now (λ i. IsNew entries.now i) }
{
    for t in 0..16u8 {
        if !ascends(events, entries, Client(t)) {
            return false;
        }
    }
    true
}
