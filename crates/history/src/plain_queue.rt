//! The replay of an order on a plain queue.

ghost use Rattle.std.specs.Prelude.{◌≡◌, ◌↔◌, IsTrue, IfOk, IfErr};
ghost use Rattle.words.specs.PlainQueue.{reply_of, served};
ghost use Rattle.events.specs.Replay.{queue_after, IsServed, Replays, IsFirstWrong};
ghost use Rattle.history.specs.Replaying.{CallLeaves, IfReplayed, IsFirstWrongIn, ReplaysIn, left_by};

use crate::replaying::named_call;
use events::{Entry, Events, History, Order, is_same_reply};
use std::alloc::{AllocError, Global};
use words::{Call, Refusal, Reply, Value};

/// What the queue answers to the call.
fn answer(queue: &mut Vec<Value>, call: Call) -> Result<Reply, AllocError>
    ensures left { IfOk result (λ reply. queue.new.items ≡ served queue.old.items call) }
    ensures reply { IfOk result (λ reply. reply ≡ reply_of queue.old.items call) }
{
    match call {
        Call::Enq(value) => {
            queue.push(value)?;
            Ok(Reply::Done)
        }
        Call::Deq => {
            if queue.is_empty() {
                Ok(Reply::Empty)
            } else {
                Ok(Reply::Got(queue.remove(0)))
            }
        }
    }
}

/// Serves the call of the entry, and says whether the entry names one and has the queue's reply.
fn is_served(queue: &mut Vec<Value>, events: &Events, entry: &Entry) -> Result<bool, AllocError>
    ensures served { IfOk result (λ yes. IsTrue yes ↔ IsServed events.now.items queue.old.items entry.now) }
    ensures left { IfOk result (λ yes. IsTrue yes
        → CallLeaves events.now.items queue.old.items entry.now queue.new.items) }
{
    let Some(call) = named_call(events, entry.place) else {
        return Ok(false);
    };
    let reply = answer(queue, call)?;
    Ok(is_same_reply(&reply, &entry.reply))
}

/// What the plain queue leaves from the base, or the place of the first wrong entry.
fn replay_from(
    alloc: Global,
    events: &Events,
    base: &[Value],
    entries: &[Entry],
) -> Result<Result<Vec<Value>, usize>, AllocError>
    ensures right { IfReplayed result (λ left. Replays events.now.items base.now entries.now) }
    ensures left { IfReplayed result (λ left. left.items ≡ queue_after events.now.items base.now entries.now) }
    ensures wrong { IfOk result (λ answer. IfErr answer (IsFirstWrong events.now.items base.now entries.now)) }
{
    let mut queue = Vec::from_slice(alloc, base)?;
    for (i, entry) in entries.iter().enumerate() {
        if !is_served(&mut queue, events, entry)? {
            return Ok(Err(i));
        }
    }
    Ok(Ok(queue))
}

/// What the plain queue leaves from the base, or the index of the first entry that names no call or has another reply
/// than the plain queue's. NoMemory where it was refused for what is left.
pub fn replay(
    alloc: Global,
    history: &History,
    order: &Order,
) -> Result<Result<Vec<Value>, usize>, Refusal>
    ensures right { IfReplayed result (λ left. ReplaysIn history.now order.now) }
    ensures left { IfReplayed result (λ left. left.items ≡ left_by history.now order.now) }
    ensures wrong { IfOk result (λ answer. IfErr answer (IsFirstWrongIn history.now order.now)) }
    ensures errors { IfErr result (λ e. e ≡ Refusal.NoMemory) }
{
    match replay_from(
        alloc,
        &history.events,
        history.base.as_slice(),
        order.entries.as_slice(),
    ) {
        Ok(answer) => Ok(answer),
        Err(_) => Err(Refusal::NoMemory),
    }
}
