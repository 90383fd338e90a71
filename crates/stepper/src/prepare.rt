//! The preparation of a call: it writes its record, each word with a store, a flush and a fence, before it acts.

ghost use Rattle.std.specs.Prelude.{◌≡◌, slice_get};
ghost use Rattle.stepper.specs.Preparation.{preparation_from, preparation_of, prepared_to, bump as bump_of, announcement as announcement_of, part_write};

use crate::places::{fence_at, flush_at, store_at};
use crate::resume::{After, Points, Resume, Stepped};
use arena::{DEQUEUE_KIND, ENQUEUE_KIND, Layout, Part, Place, Write, item_part};
use persist::WordMemory;
use words::{Call, Client, Kind, NodeId, Token, Value};

/// A call that has taken a record of its client's.
#[derive(Clone, Copy)]
pub struct Begun {
    pub client: Client,
    /// How many records the client had used before.
    pub used: u32,
    /// Its record: the number of its cell or entry and, for an enqueue, of its node.
    pub token: Token,
    /// Its operation number, in a log queue.
    pub number: u64,
    pub call: Call,
}

/// What a preparation answers at its end: the call, each word of whose record is kept.
pub type Prepared = Begun;

/// Where a preparation waits.
#[derive(Clone, Copy)]
pub enum Prepare {
    // The bump word comes first and the announcement last. A record written before it is used up could be taken again
    // after a crash; an announcement kept before its record would name a call that is not there:
    // `announces_before_the_node.edit`.
    Store(PrepareStore),
    Flush(PrepareFlush),
    // Each word is kept before the next is stored. A link to a node whose value is not kept would lose the value in a
    // crash, though the enqueue had answered: `fence_of_a_preparation_dropped.edit`.
    Fence(PrepareFence),
}

/// About to store a word of the record. Its fields stand in the order in which a step moves them at the least cost:
/// see `bench/acts.sh`.
#[derive(Clone, Copy)]
pub struct PrepareStore {
    pub(crate) write: Write,
    pub(crate) index: u8,
    pub(crate) begun: Begun,
}

/// About to ask that it be kept. Its fields stand as those of `PrepareStore`.
#[derive(Clone, Copy)]
pub struct PrepareFlush {
    pub(crate) write: Write,
    pub(crate) index: u8,
    pub(crate) begun: Begun,
}

/// About to keep it. Its fields stand as those of `PrepareStore`.
#[derive(Clone, Copy)]
pub struct PrepareFence {
    pub(crate) write: Write,
    pub(crate) index: u8,
    pub(crate) begun: Begun,
}

/// The words that a durable enqueue prepares, from 0 up, and none beyond the last.
fn durable_enqueue(begun: Begun, value: Value, index: u8) -> Option<Write>
    ensures { result ≡ slice_get (preparation_from Kind.Durable (Call.Enq value) begun) index }
{
    match index {
        0 => Some(bump(begun)),
        1 => Some(part(begun, value, Part::Length)),
        2 => Some(part(begun, value, Part::First)),
        3 => Some(part(begun, value, Part::Second)),
        4 => Some(part(begun, value, Part::Third)),
        _ => None,
    }
}

/// The words that a durable dequeue prepares.
fn durable_dequeue(begun: Begun, index: u8) -> Option<Write>
    ensures { result ≡ slice_get (preparation_from Kind.Durable Call.Deq begun) index }
{
    match index {
        0 => Some(bump(begun)),
        1 => Some(announcement(begun)),
        _ => None,
    }
}

/// The words that a log enqueue prepares.
fn log_enqueue(begun: Begun, value: Value, index: u8) -> Option<Write>
    ensures { result ≡ slice_get (preparation_from Kind.Log (Call.Enq value) begun) index }
{
    let number = begun.token.0 as u64;
    let (place, value) = match index {
        0 => return Some(bump(begun)),
        1 => (Place::Number(begun.token), begun.number),
        2 => (Place::EntryKind(begun.token), ENQUEUE_KIND),
        3 => (Place::EntryNode(begun.token), number),
        4 => return Some(part(begun, value, Part::Length)),
        5 => return Some(part(begun, value, Part::First)),
        6 => return Some(part(begun, value, Part::Second)),
        7 => return Some(part(begun, value, Part::Third)),
        8 => (Place::Insert(NodeId(begun.token.0)), number),
        9 => return Some(announcement(begun)),
        _ => return None,
    };
    Some(Write { place, value })
}

/// The words that a log dequeue prepares.
fn log_dequeue(begun: Begun, index: u8) -> Option<Write>
    ensures { result ≡ slice_get (preparation_from Kind.Log Call.Deq begun) index }
{
    let (place, value) = match index {
        0 => return Some(bump(begun)),
        1 => (Place::Number(begun.token), begun.number),
        2 => (Place::EntryKind(begun.token), DEQUEUE_KIND),
        3 => return Some(announcement(begun)),
        _ => return None,
    };
    Some(Write { place, value })
}

/// A part of its message.
// The length comes first: were a word kept before it, by an eviction, a crash could leave bytes past the length.
fn part(begun: Begun, value: Value, part: Part) -> Write
    ensures { result ≡ part_write begun value part }
{
    Write {
        place: Place::Item(NodeId(begun.token.0), part),
        value: item_part(value, part),
    }
}

/// That the record is used.
fn bump(begun: Begun) -> Write
    ensures { result ≡ bump_of begun }
{
    Write {
        place: Place::Bump(begun.client),
        value: begun.used as u64 + 1,
    }
}

/// That the record is the client's last.
fn announcement(begun: Begun) -> Write
    ensures { result ≡ announcement_of begun }
{
    Write {
        place: Place::Announcement(begun.client),
        value: begun.token.0 as u64,
    }
}

/// The words that a call prepares.
fn write_at(kind: Kind, begun: &Begun, index: u8) -> Option<Write>
    ensures { result ≡ slice_get (preparation_of kind begun.now) index }
{
    match (kind, begun.call) {
        (Kind::Durable, Call::Enq(value)) => durable_enqueue(*begun, value, index),
        (Kind::Durable, Call::Deq) => durable_dequeue(*begun, index),
        (Kind::Log, Call::Enq(value)) => log_enqueue(*begun, value, index),
        (Kind::Log, Call::Deq) => log_dequeue(*begun, index),
    }
}

/// Where a preparation comes to its write at this index; past the last it is at its end.
fn prepare_at(kind: Kind, begun: Begun, index: u8) -> After<Prepare, Prepared>
    ensures { result ≡ prepared_to kind begun index }
{
    match write_at(kind, &begun, index) {
        Some(write) => After::More(Prepare::Store(PrepareStore {
            begun,
            index,
            write,
        })),
        None => After::Done(begun),
    }
}

impl Prepare {
    /// Where the preparation of a call begins.
    pub fn begin(kind: Kind, begun: Begun) -> After<Prepare, Prepared>
        ensures { result ≡ prepared_to kind begun 0 }
    {
        prepare_at(kind, begun, 0)
    }
}

impl Points for Prepare {
    type Answer = Prepared;

    ghost use Rattle.stepper.specs.Preparation.{access_of, successor, IsPoint};

    ghost access = { λ kind p. access_of p };

    ghost successor = { λ s p found. successor s.kind p };

    ghost in_range = { IsPoint };
}

impl Resume for PrepareStore {
    type Point = Prepare;

    ghost use Rattle.stepper.specs.declared.prepare.Prepare.TheVariants.{Store};

    ghost point = { Store };

    fn step<M: WordMemory>(self, layout: &Layout, memory: &mut M) -> Stepped<Prepare, Prepared> {
        let PrepareStore {
            begun,
            index,
            write,
        } = self;
        store_at(layout, memory, write);
        Stepped::quiet(After::More(Prepare::Flush(PrepareFlush {
            begun,
            index,
            write,
        })))
    }
}

impl Resume for PrepareFlush {
    type Point = Prepare;

    ghost use Rattle.stepper.specs.declared.prepare.Prepare.TheVariants.{Flush};

    ghost point = { Flush };

    fn step<M: WordMemory>(self, layout: &Layout, memory: &mut M) -> Stepped<Prepare, Prepared> {
        let PrepareFlush {
            begun,
            index,
            write,
        } = self;
        flush_at(layout, memory, write.place);
        Stepped::quiet(After::More(Prepare::Fence(PrepareFence {
            begun,
            index,
            write,
        })))
    }
}

impl Resume for PrepareFence {
    type Point = Prepare;

    ghost use Rattle.stepper.specs.declared.prepare.Prepare.TheVariants.{Fence};

    ghost point = { Fence };

    fn step<M: WordMemory>(self, layout: &Layout, memory: &mut M) -> Stepped<Prepare, Prepared> {
        let PrepareFence {
            begun,
            index,
            write,
        } = self;
        let change = fence_at(layout, memory, write.place);
        Stepped {
            after: prepare_at(layout.kind(), begun, index + 1),
            change,
        }
    }
}
