//! The replay of an order on a plain queue that is empty at first.
// What is left is said of the events, of the queue before and of that after, so a clause is longer than 120 columns.

ghost use Rattle.std.specs.Prelude.{◌≡◌, ◌↔◌, [], IfOk, IsTrue};
ghost use Rattle.words.specs.PlainQueue.{reply_of, served};
ghost use Rattle.events.specs.Replay.{IsServed, Replays};
ghost use Rattle.history.specs.Replaying.{CallLeaves};

use crate::facts::Findings;
use events::{Entry, is_same_reply};
use std::alloc::{AllocError, Global};
use std::collections::VecDeque;
use words::{Call, Reply, Value};

/// What the queue answers to the call.
fn answer(queue: &mut VecDeque<Value>, call: Call) -> Result<Reply, AllocError>
    ensures left { IfOk result (λ reply. queue.new.items ≡ served queue.old.items call) }
    ensures reply { IfOk result (λ reply. reply ≡ reply_of queue.old.items call) }
{
    match call {
        Call::Enq(value) => {
            queue.push_back(value)?;
            Ok(Reply::Done)
        }
        Call::Deq => match queue.pop_front() {
            Some(value) => Ok(Reply::Got(value)),
            None => Ok(Reply::Empty),
        },
    }
}

/// Serves the call of the entry, and says whether the entry names one and has the queue's reply.
fn is_served(
    queue: &mut VecDeque<Value>,
    findings: &Findings,
    entry: &Entry,
) -> Result<bool, AllocError>
    ensures served { IfOk result (λ yes. IsTrue yes ↔ IsServed findings.now.events queue.old.items entry.now) }
    ensures left { IfOk result (λ yes. IsTrue yes
        → CallLeaves findings.now.events queue.old.items entry.now queue.new.items) }
{
    let Some(call) = findings.call_at(entry.place) else {
        return Ok(false);
    };
    let reply = answer(queue, call)?;
    Ok(is_same_reply(&reply, &entry.reply))
}

/// Whether the replay gives every reply.
pub(crate) fn replays(
    alloc: Global,
    findings: &Findings,
    entries: &[Entry],
) -> Result<bool, AllocError>
    ensures { IfOk result (λ yes. IsTrue yes ↔ Replays findings.now.events [] entries.now) }
{
    let mut queue = VecDeque::new(alloc);
    for (i, entry) in entries.iter().enumerate() {
        if !is_served(&mut queue, findings, entry)? {
            return Ok(false);
        }
    }
    Ok(true)
}
