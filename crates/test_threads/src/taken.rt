//! Whether each numbered call of clients took effect once, with the reply that its client got.

use arena::SlotId;
use history::Event;
use session::Session;
use std::alloc::{AllocError, Global};
use std::test::*;
use test_support::{call_at, number_of};
use words::{Call, MAX_CLIENTS, Refusal, Reply, Value};
use workers::{End, Entry};

/// The replies that a client got to its numbers in a log queue; nothing, where a number was answered twice or left out.
fn replies(alloc: Global, list: &[Entry], queue: SlotId) -> Result<Option<Vec<Reply>>, AllocError> {
    let mut replies = Vec::new(alloc);
    for entry in list.iter().filter(|entry| entry.queue == queue) {
        if let End::Answered(reply) = entry.end {
            replies.push(reply)?;
            if entry.number != Some(replies.len() as u64) {
                return Ok(None);
            }
        }
    }
    Ok(Some(replies))
}

/// The replies that all clients got to their numbers in a log queue.
fn all_replies(
    alloc: Global,
    lists: &[Vec<Entry>],
    queue: SlotId,
) -> Result<Option<Vec<Vec<Reply>>>, AllocError> {
    let mut all = Vec::new(alloc);
    for list in lists {
        let Some(replies) = replies(alloc, list.as_slice(), queue)? else {
            return Ok(None);
        };
        all.push(replies)?;
    }
    Ok(Some(all))
}

/// Whether the order of a log queue has each number of each client once, in turn, with the reply that the client got.
fn are_in_turn(session: &Session, all: &[Vec<Reply>], queue: SlotId) -> Result<bool, Refusal> {
    let history = session.broker().history(queue)?;
    let order = session.broker().order(queue)?;
    let mut counts = [0usize; MAX_CLIENTS];
    for entry in order.entries.as_slice() {
        let Some((client, number)) = call_at(&history.events, entry.place) else {
            return Ok(false);
        };
        let (Some(count), Some(replies)) = (counts.get_mut(client), all.get(client)) else {
            return Ok(false);
        };
        if replies.get(*count) != Some(&entry.reply) {
            return Ok(false);
        }
        *count = count.saturating_add(1);
        if number != *count as u64 {
            return Ok(false);
        }
    }
    Ok(
        all.iter()
            .zip(counts.iter())
            .all(|(replies, count)| replies.len() == *count),
    )
}

/// Which values were put into a queue and which were taken out of it, each once, by what clients were answered.
#[derive(Drop)]
struct Values {
    put: Vec<bool>,
    out: Vec<bool>,
    right: bool,
}

/// Marks a value, which has no mark yet: whether that is so.
fn mark(marks: &mut [bool], value: &Value) -> bool {
    match marks.get_mut(number_of(value) as usize) {
        Some(marked) if !*marked => {
            *marked = true;
            true
        }
        Some(_) | None => false,
    }
}

impl Values {
    /// So many values, of which none was put.
    fn new(alloc: Global, values: u32) -> Result<Self, AllocError> {
        let (mut put, mut out) = (Vec::new(alloc), Vec::new(alloc));
        put.resize(values as usize, false)?;
        out.resize(values as usize, false)?;
        Ok(Values {
            put,
            out,
            right: true,
        })
    }

    /// A value went out.
    fn goes_out(&mut self, value: &Value) {
        self.right &= mark(self.out.as_mut_slice(), value);
    }

    /// A call was answered.
    fn answered(&mut self, call: Call, reply: Reply) {
        match call {
            Call::Enq(value) => {
                self.right &= mark(self.put.as_mut_slice(), &value);
                self.right &= matches!(reply, Reply::Done);
            }
            Call::Deq => match reply {
                Reply::Got(value) => self.goes_out(&value),
                Reply::Empty => {}
                Reply::Done => self.right = false,
            },
        }
    }

    /// What the client of this list was answered in a queue.
    fn all_answered(&mut self, list: &[Entry], queue: SlotId) {
        for entry in list.iter().filter(|entry| entry.queue == queue) {
            if let End::Answered(reply) = entry.end {
                self.answered(entry.call, reply);
            }
        }
    }

    /// Whether these values are those that were put and did not go out.
    fn are_left(mut self, held: &[Value]) -> bool {
        for value in held {
            self.goes_out(value);
        }
        self.right && self.put.as_slice() == self.out.as_slice()
    }
}

/// Whether a log queue holds what clients put into it and did not take out of it, by what they were answered.
fn holds_the_rest(
    alloc: Global,
    session: &Session,
    lists: &[Vec<Entry>],
    queue: SlotId,
    values: u32,
) -> Result<bool, Fail> {
    let mut counted = Values::new(alloc, values)?;
    for list in lists {
        counted.all_answered(list.as_slice(), queue);
    }
    Ok(counted.are_left(session.broker().content(queue)?.as_slice()))
}

/// Whether each number of each client took effect once in a log queue, with the reply that the client got, and the
/// queue holds what is left by these replies.
pub(crate) fn are_once(
    alloc: Global,
    session: &Session,
    lists: &[Vec<Entry>],
    queue: SlotId,
    values: u32,
) -> Result<bool, Fail> {
    let Some(all) = all_replies(alloc, lists, queue)? else {
        return Ok(false);
    };
    let in_turn = are_in_turn(session, all.as_slice(), queue)?;
    Ok(in_turn && holds_the_rest(alloc, session, lists, queue, values)?)
}
