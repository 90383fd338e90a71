//! The replay of an order without memory: where the front of the queue stands.

ghost use Rattle.std.specs.Prelude.{◌≡◌, ◌<◌, ◌≤◌, ◌+◌, ◌↔◌, [], length, IsTrue, IfNone};
ghost use Rattle.history.specs.Fronts.{values_between, queue_at, reply_of_front, IsFirstHeld, IsFirstPut, IsFront};
ghost use Rattle.events.specs.Replay.{IsRightAt, Replays};

use crate::replaying::{named_call, value_put};
use events::{Entry, Events, is_same_reply};
use words::{Call, Reply, Value};

/// Where the front of the queue stands: after so many values of the base, and of the entries from one on.
#[derive(Clone, Copy)]
struct Fronts {
    base: usize,
    entry: usize,
}

/// Takes the first value that the entries from `front` on, before `to`, put into the queue.
fn take_put(events: &Events, entries: &[Entry], front: &mut usize, to: usize) -> Option<Value>
    requires below { front.old ≤ to }
    requires within { to ≤ length entries.now }
    ensures below { front.new ≤ to }
    ensures front { IsFirstPut events.now.items entries.now front.old to result front.new }
    ensures none { IfNone result (values_between events.now.items entries.now front.old to ≡ []) }
{
    let from = *front;
    for k in from..to {
        let put = value_put(named_call(events, entries[k].place));
        if put.is_some() {
            *front = k + 1;
            return put;
        }
    }
    *front = to;
    None
}

/// Takes the first value of the queue.
fn take_front(
    events: &Events,
    base: &[Value],
    entries: &[Entry],
    fronts: &mut Fronts,
    to: usize,
) -> Option<Value>
    requires base { fronts.old.base ≤ length base.now }
    requires entry { fronts.old.entry ≤ to }
    requires within { to ≤ length entries.now }
    ensures base { fronts.new.base ≤ length base.now }
    ensures entry { fronts.new.entry ≤ to }
    ensures front { IsFirstHeld events.now.items base.now entries.now fronts.old to result fronts.new }
    ensures none { IfNone result (queue_at events.now.items base.now entries.now fronts.old to ≡ []) }
{
    if fronts.base < base.len() {
        let value = base[fronts.base];
        fronts.base += 1;
        return Some(value);
    }
    take_put(events, entries, &mut fronts.entry, to)
}

/// What a dequeue answers whose queue has this front.
fn reply_with(front: Option<Value>) -> Reply
    ensures { result ≡ reply_of_front front }
{
    match front {
        None => Reply::Empty,
        Some(value) => Reply::Got(value),
    }
}

/// Whether the entry at `i` names a call and has the plain queue's reply to it; the front moves on past the call.
fn is_right_next(
    events: &Events,
    base: &[Value],
    entries: &[Entry],
    fronts: &mut Fronts,
    i: usize,
) -> bool
    requires within { i < length entries.now }
    requires front { IsFront events.now.items base.now entries.now fronts.old.base fronts.old.entry i }
    ensures right { IsTrue result ↔ IsRightAt events.now.items base.now entries.now i }
    ensures front { IsTrue result
        → IsFront events.now.items base.now entries.now fronts.new.base fronts.new.entry (i + 1) }
{
    let entry = &entries[i];
    match named_call(events, entry.place) {
        None => false,
        Some(Call::Enq(_)) => is_same_reply(&entry.reply, &Reply::Done),
        Some(Call::Deq) => {
            let reply = reply_with(take_front(events, base, entries, fronts, i));
            is_same_reply(&entry.reply, &reply)
        }
    }
}

/// Whether the replay gives every reply.
pub(crate) fn replay_is_right(events: &Events, base: &[Value], entries: &[Entry]) -> bool
    ensures { IsTrue result ↔ Replays events.now.items base.now entries.now }
{
    let mut fronts = Fronts { base: 0, entry: 0 };
    for i in 0..entries.len() {
        if !is_right_next(events, base, entries, &mut fronts, i) {
            return false;
        }
    }
    true
}
