//! Calls and replies, and who they are of.

use crate::Item;
use std::fmt;

/// A client, from 0 to 15.
#[derive(Clone, Copy, Debug, PartialEq, Eq, PartialOrd, Ord)]
pub struct Client(pub u8);

/// A node of a queue's list. Node 0 is the sentinel, which is nobody's successor.
#[derive(Clone, Copy, Debug, PartialEq, Eq, PartialOrd, Ord)]
pub struct NodeId(pub u32);

/// What names a call in the memory: the number of its record, from 1.
#[derive(Clone, Copy, Debug, PartialEq, Eq, PartialOrd, Ord)]
pub struct Token(pub u32);

/// The kind of a queue.
#[derive(Clone, Copy, Debug, PartialEq, Eq)]
pub enum Kind {
    /// It remembers the outcome of each client's last dequeue.
    Durable,
    /// It tells each client what became of its last announced call.
    Log,
}

/// What a queue's messages are.
pub type Value = Item;

/// What a client asks for.
#[derive(Clone, Copy, Debug, PartialEq, Eq)]
pub enum Call {
    /// Append a value.
    Enq(Value),
    /// Remove the first value.
    Deq,
}

/// What a call is answered.
#[derive(Clone, Copy, Debug, PartialEq, Eq)]
pub enum Reply {
    /// The value was appended.
    Done,
    /// This value was first, and was removed.
    Got(Value),
    /// There was none.
    Empty,
}

/// As a transcript spells it: `done`, `got 68656c6c6f`, `empty`.
impl fmt::Display for Reply {
    ghost use Rattle.std.specs.Prelude.{Some};
    ghost use Rattle.words.specs.Text.{reply_text};

    ghost output = { λ reply. Some (reply_text reply) };

    fn fmt<W: fmt::Write>(&self, f: &mut fmt::Formatter<W>) -> fmt::Result {
        match self {
            Reply::Done => write!(f, "done"),
            Reply::Got(value) => write!(f, "got {value}"),
            Reply::Empty => write!(f, "empty"),
        }
    }
}
