//! The words of a queue, by what they are for.

ghost use Rattle.std.specs.Prelude.{◌≡◌, slice_index};
ghost use Rattle.arena.specs.Words.{item_part, value_of};

use std::fmt;
use words::{Client, NodeId, Token, Value};

/// A part of an item: its length, or one of the three words of its bytes.
#[derive(Clone, Copy)]
pub enum Part {
    Length,
    First,
    Second,
    Third,
}

/// A place of a layout: one word, by what it is for. Some are those of one kind of queue alone.
#[derive(Clone, Copy)]
pub enum Place {
    /// The node before the first of the queue, or an earlier one.
    Head,
    /// The last node, or the one before it.
    Tail,
    /// The token that the client announced last: its row in a durable queue, its log in a log queue.
    Announcement(Client),
    /// How many records the client has used.
    Bump(Client),
    /// A part of the node's message. In an image of the old form it has its first word alone.
    Item(NodeId, Part),
    /// The node's successor, or 0.
    Next(NodeId),
    /// The token that claims the node, or 0. In a log queue this is the remove word.
    Mark(NodeId),
    /// Durable: the answer of a dequeue: 0 none yet, 1 empty, `n + 2` claimed node `n`.
    Cell(Token),
    /// Log: the entry that inserts the node.
    Insert(NodeId),
    /// Log: the number of the entry's operation.
    Number(Token),
    /// Log: 1 for an enqueue, 2 for a dequeue.
    EntryKind(Token),
    /// Log: 0 open, 1 taken, 2 empty.
    Status(Token),
    /// Log: the node that the entry inserts, or the one that it removed.
    EntryNode(Token),
}

/// As a page names it: `length`, `first word`.
impl fmt::Display for Part {
    ghost use Rattle.std.specs.Prelude.{Some};
    ghost use Rattle.arena.specs.Names.{part_name};

    ghost output = { λ part. Some (part_name part) };

    fn fmt<W: fmt::Write>(&self, f: &mut fmt::Formatter<W>) -> fmt::Result {
        match self {
            Part::Length => write!(f, "length"),
            Part::First => write!(f, "first word"),
            Part::Second => write!(f, "second word"),
            Part::Third => write!(f, "third word"),
        }
    }
}

/// As a page names it: `head`, `link of node 2`, `item of node 0, length`.
impl fmt::Display for Place {
    ghost use Rattle.std.specs.Prelude.{Some};
    ghost use Rattle.arena.specs.Names.{place_name};

    ghost output = { λ place. Some (place_name place) };

    fn fmt<W: fmt::Write>(&self, f: &mut fmt::Formatter<W>) -> fmt::Result {
        match self {
            Place::Head => write!(f, "head"),
            Place::Tail => write!(f, "tail"),
            Place::Announcement(client) => write!(f, "announcement of client {}", client.0),
            Place::Bump(client) => write!(f, "bump of client {}", client.0),
            Place::Item(node, part) => write!(f, "item of node {}, {part}", node.0),
            Place::Next(node) => write!(f, "link of node {}", node.0),
            Place::Mark(node) => write!(f, "mark of node {}", node.0),
            Place::Cell(token) => write!(f, "cell {}", token.0),
            Place::Insert(node) => write!(f, "insert of node {}", node.0),
            Place::Number(token) => write!(f, "number of entry {}", token.0),
            Place::EntryKind(token) => write!(f, "kind of entry {}", token.0),
            Place::Status(token) => write!(f, "status of entry {}", token.0),
            Place::EntryNode(token) => write!(f, "node of entry {}", token.0),
        }
    }
}

/// A value that is to be written at a place.
#[derive(Clone, Copy)]
pub struct Write {
    pub place: Place,
    pub value: u64,
}

/// The word that is written for a part of an item.
#[tactic(auto, unfolding(crate::specs::Words::item_part))]
pub fn item_part(item: Value, part: Part) -> u64
    ensures { result ≡ item_part item part }
{
    item.parts()[part as usize]
}

/// The item of a length and three words.
#[tactic(auto, unfolding(crate::specs::Words::value_of))]
pub fn value_of(parts: [u64; 4]) -> Value
    ensures { result ≡ value_of (slice_index parts 0) (slice_index parts 1) (slice_index parts 2) (slice_index parts 3) }
{
    Value::of_parts(parts)
}
