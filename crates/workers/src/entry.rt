//! What a seat remembers of its calls, and what its caller is told.

ghost use Rattle.std.specs.Prelude.{◌≡◌, true};
ghost use Rattle.workers.specs.Answers.{entry_begun};
ghost use Rattle.workers.specs.Lists.{ends_open, is_open, with_end, LastIsOf};

use arena::SlotId;
use directory::Name;
use words::{Call, Refusal, Reply};

/// What became of a call.
#[derive(Clone, Copy, Debug, PartialEq, Eq)]
pub enum End {
    /// It has not been answered, and its seat has not heard of a crash either.
    Open,
    /// A crash came before the answer.
    Interrupted,
    /// It was answered.
    Answered(Reply),
}

/// A call of a seat, in the queue of this name, which is in this slot. It ran from the place of its Call event in the
/// history of its queue, or, with no place, it was answered with the reply that was kept for its number.
#[derive(Clone, Copy, Debug, PartialEq, Eq)]
pub struct Entry {
    pub name: Name,
    pub queue: SlotId,
    pub number: Option<u64>,
    pub call: Call,
    pub place: Option<usize>,
    pub end: End,
}

/// What a caller is told of its call.
#[derive(Clone, Copy, Debug, PartialEq, Eq)]
pub enum Answer {
    /// The call's reply.
    Reply(Reply),
    /// It was not made.
    Refused(Refusal),
    /// A crash came before the answer. In a log queue the client is told whether it took effect, once the broker is
    /// ready.
    Interrupted,
    /// A step was refused memory. The call stays under way.
    Unfinished,
}

/// A call as it is asked for: in the queue of this name, and with a number in a log queue.
#[derive(Clone, Copy, Debug, PartialEq, Eq)]
pub struct Request {
    pub name: Name,
    pub number: Option<u64>,
    pub call: Call,
}

impl Request {
    /// The entry of the call that begins at this place of the queue in the slot, or that was answered with the reply
    /// that was kept.
    pub(crate) fn entry(&self, queue: SlotId, next: usize, kept: &Option<Reply>) -> Entry
        ensures { result ≡ entry_begun queue self.now next kept.now }
    {
        let (place, end) = match kept {
            Some(reply) => (None, End::Answered(*reply)),
            None => (Some(next), End::Open),
        };
        Entry {
            name: self.name,
            queue,
            number: self.number,
            call: self.call,
            place,
            end,
        }
    }
}

/// What one step of a call came to.
#[derive(Clone, Copy)]
pub(crate) enum Took {
    More,
    Answered(Reply),
    Interrupted,
    NoMemory,
}

/// Whether a call is open.
fn is_open_end(end: &End) -> bool
    ensures { result ≡ is_open end.now }
{
    matches!(end, End::Open)
}

/// Whether the last call of a list is open.
pub(crate) fn has_open_call(list: &[Entry]) -> bool
    ensures { result ≡ ends_open list.now }
{
    if list.is_empty() {
        return false;
    }
    is_open_end(&list[list.len() - 1].end)
}

/// The queue of the last call of a list.
pub(crate) fn last_queue(list: &[Entry]) -> SlotId
    requires { ends_open list.now ≡ true }
    ensures { LastIsOf result.0 list.now }
{
    list[list.len() - 1].queue
}

/// Writes what became of the last call of a list.
pub(crate) fn end_last(list: &mut Vec<Entry>, end: End)
    requires { ends_open list.old.items ≡ true }
    ensures { list.new.items ≡ with_end end list.old.items }
{
    let last = list.len() - 1;
    let entry = list[last];
    list[last] = Entry { end, ..entry };
}
