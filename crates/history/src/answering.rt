//! Whether complete calls are in an order with the replies that they returned, by a pass for each client: as its calls
//! stand in the order one after another, each search for one goes on where the last one ended.

ghost use Rattle.std.specs.Prelude.{◌<◌, ◌+◌, ◌↔◌, length, IsTrue, IfSome, IfNone, EachIndex};
ghost use Rattle.words.specs.declared.call.Reply.{Reply};
ghost use Rattle.events.specs.Explains.{IsAnswered, KeepsPrecedence};
ghost use Rattle.events.specs.History.{ReturnAt, IsHistory};
ghost use Rattle.events.specs.Orders.{IsNew};
ghost use Rattle.history.specs.Sweeps.{IsAnsweredOf, IsAnsweredTo, IsNextEntry, HasNoEntryFrom};

use crate::places::begins_at;
use events::{Entry, Event, Events, is_same_reply};
use words::{Client, Reply};

/// Where a client's pass stands: its last call, and the entry from which on its next one stands.
#[derive(Clone, Copy)]
struct Pass {
    call: usize,
    from: usize,
}

/// The place after the entry of the call at `p`, where it stands from `from` on and has this reply.
fn place_after_entry(entries: &[Entry], from: usize, p: usize, reply: Reply) -> Option<usize>
    requires { EachIndex entries.now (λ i. IsNew entries.now i) }
    ensures some { IfSome result (λ after. IsNextEntry entries.now from p reply after) }
    ensures none { IfNone result (HasNoEntryFrom entries.now from p reply) }
{
    for i in from..entries.len() {
        let entry = entries[i];
        if entry.place == p {
            return if is_same_reply(&entry.reply, &reply) {
                Some(i + 1)
            } else {
                None
            };
        }
    }
    None
}

/// What the client's call is answered at `k`, if it is.
fn return_at(events: &Events, client: Client, k: usize) -> Option<Reply>
    requires { k < length events.now.items }
    ensures some { IfSome result (λ reply. ReturnAt events.now.items k client reply) }
    ensures none { IfNone result ((reply : Reply) → ReturnAt events.now.items k client reply → ⊥) }
{
    match events.at(k) {
        Event::Return {
            client: other,
            reply,
        } => { if other == client { Some(reply) } else { None } }
        _ => None,
    }
}

/// Where the client's pass stands after the event at `k`; nothing where that returned a reply that the order has not.
fn after_event(
    events: &Events,
    entries: &[Entry],
    client: Client,
    k: usize,
    pass: Pass,
) -> Option<Pass>
    requires within { k < length events.now.items }
    requires history { IsHistory events.now.items }
    requires once { EachIndex entries.now (λ i. IsNew entries.now i) }
    requires precedence { KeepsPrecedence events.now.items entries.now }
    requires so_far { IsAnsweredTo events.now.items entries.now client k pass.call pass.from }
    ensures some { IfSome result (λ after.
        IsAnsweredTo events.now.items entries.now client (k + 1) after.call after.from) }
    ensures none { IfNone result (IsAnsweredOf events.now.items entries.now client → ⊥) }
{
    if begins_at(events, client, k) {
        return Some(Pass { call: k, ..pass });
    }
    let Some(reply) = return_at(events, client, k) else {
        return Some(pass);
    };
    let Some(from) = place_after_entry(entries, pass.from, pass.call, reply) else {
        return None;
    };
    Some(Pass { from, ..pass })
}

/// Whether each complete call of the client is in the order with the reply that it returned.
fn is_answered_of(events: &Events, entries: &[Entry], client: Client) -> bool
    requires history { IsHistory events.now.items }
    requires once { EachIndex entries.now (λ i. IsNew entries.now i) }
    requires precedence { KeepsPrecedence events.now.items entries.now }
    ensures { IsTrue result ↔ IsAnsweredOf events.now.items entries.now client }
{
    // The search for a call goes on behind the client's last one and never back. So a pass is one walk over the events
    // and one over the entries, where a search from the front for each call would be quadratic.
    let mut pass = Pass { call: 0, from: 0 };
    for k in 0..events.len() {
        let Some(after) = after_event(events, entries, client, k, pass) else {
            return false;
        };
        pass = after;
    }
    true
}

/// Whether each complete call is in the order with the reply that it returned, where the history may arise and the
/// order names no call twice and keeps precedence.
pub(crate) fn all_answered(events: &Events, entries: &[Entry]) -> bool
    requires history { IsHistory events.now.items }
    requires once { EachIndex entries.now (λ i. IsNew entries.now i) }
    requires precedence { KeepsPrecedence events.now.items entries.now }
    ensures { IsTrue result ↔ EachIndex events.now.items (λ p. IsAnswered events.now.items entries.now p) }
{
    for t in 0..16u8 {
        if !is_answered_of(events, entries, Client(t)) {
            return false;
        }
    }
    true
}
