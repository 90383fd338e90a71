//! How a queue is created: its name and its kind are kept before its gate is opened.

ghost use Rattle.std.specs.Prelude.{◌≡◌, ◌<◌, ◌≤◌, length};
ghost use Rattle.arena.specs.Broker.{broker_size};
ghost use Rattle.directory.specs.Name.{IsName};
ghost use Rattle.directory.specs.Step.{after_one, change_by, lent_after_one, IsAskedFor};
ghost use Rattle.directory.specs.Creation.{access_of, new_creation, next_of, place_in, successor, value_for, word_after, IsNextAskedFor};

use crate::places::{fence_at, flush_at, store_at};
use crate::queue::{Queue, kind_code};
use arena::{BrokerLayout, BrokerPlace, OPEN_GATE, SLOTS, SlotId};
use persist::{Change, Noted, WordMemory};
use stepper::After;

/// A word of a slot that a creation keeps, by a flush and a fence. They are kept in this order.
#[derive(Clone, Copy)]
pub enum SlotWord {
    FirstName,
    SecondName,
    Kind,
    // The gate comes last. With the gate kept and a word of the name not, a crash would leave a queue of another name,
    // or of none: `gate_before_the_name.edit`.
    Gate,
}

/// What a creation is about to do.
#[derive(Clone, Copy)]
pub enum CreationPoint {
    Store(SlotWord),
    Flush(SlotWord),
    Fence(SlotWord),
}

/// A creation under way: of which queue, in which slot, and what it is about to do.
#[derive(Clone, Copy)]
pub struct Creation {
    pub slot: SlotId,
    pub queue: Queue,
    pub(crate) at: CreationPoint,
}

impl Creation {
    /// Where the creation of a queue in a closed slot begins.
    pub fn begin(slot: SlotId, queue: Queue) -> Self
        ensures made { result ≡ new_creation slot queue }
        ensures named { IsName queue.name }
    {
        // A name's bytes are a name, and callers are told so.
        let _name = queue.name.as_bytes();
        Creation {
            slot,
            queue,
            at: CreationPoint::Store(SlotWord::FirstName),
        }
    }

    /// One step: exactly one access. The last one answers the slot: there are [`crate::CREATION_STEPS`]. Beside it
    /// stands the change of a kept value, where the access was a fence that made one.
    pub fn step<M: WordMemory>(
        self,
        layout: &BrokerLayout,
        memory: &mut M,
    ) -> Noted<After<Creation, SlotId>>
        requires slot { self.slot.0 < SLOTS }
        requires room { broker_size layout.now ≤ length (M.words memory.old).cached }
        requires asked { IsAskedFor layout.now (access_of self) (M.lent memory.old).request }
        ensures one_access { M.words memory.new ≡ after_one layout.now (access_of self) (M.words memory.old) }
        ensures lent { M.lent memory.new ≡ lent_after_one layout.now (access_of self) (M.lent memory.old) }
        ensures next { result.answer ≡ successor self }
        ensures asked { IsNextAskedFor layout.now result.answer (M.lent memory.new).request }
        ensures change { result.change ≡ change_by layout.now (access_of self) (M.words memory.old) }
    {
        let change = self.access(layout, memory);
        let answer = match self.at.next() {
            Some(at) => After::More(Creation { at, ..self }),
            None => After::Done(self.slot),
        };
        Noted { answer, change }
    }

    /// Makes the access of its point, and answers the change of a kept value.
    fn access<M: WordMemory>(&self, layout: &BrokerLayout, memory: &mut M) -> Option<Change>
        requires slot { self.now.slot.0 < SLOTS }
        requires room { broker_size layout.now ≤ length (M.words memory.old).cached }
        requires asked { IsAskedFor layout.now (access_of self.now) (M.lent memory.old).request }
        ensures one_access { M.words memory.new ≡ after_one layout.now (access_of self.now) (M.words memory.old) }
        ensures lent { M.lent memory.new ≡ lent_after_one layout.now (access_of self.now) (M.lent memory.old) }
        ensures change { result ≡ change_by layout.now (access_of self.now) (M.words memory.old) }
    {
        match self.at {
            CreationPoint::Store(word) => {
                let value = self.value(word);
                store_at(layout, memory, self.place(word), value);
                None
            }
            CreationPoint::Flush(word) => {
                flush_at(layout, memory, self.place(word));
                None
            }
            CreationPoint::Fence(word) => fence_at(layout, memory, self.place(word)),
        }
    }

    /// Where a word of its slot stands.
    fn place(&self, word: SlotWord) -> BrokerPlace
        ensures { result ≡ place_in self.now.slot word }
    {
        match word {
            SlotWord::FirstName => BrokerPlace::FirstName(self.slot),
            SlotWord::SecondName => BrokerPlace::SecondName(self.slot),
            SlotWord::Kind => BrokerPlace::QueueKind(self.slot),
            SlotWord::Gate => BrokerPlace::Gate(self.slot),
        }
    }

    /// What it stores there.
    fn value(&self, word: SlotWord) -> u64
        ensures { result ≡ value_for self.now.queue word }
    {
        let [first, second] = self.queue.name.words();
        match word {
            SlotWord::FirstName => first,
            SlotWord::SecondName => second,
            SlotWord::Kind => kind_code(self.queue.kind),
            SlotWord::Gate => OPEN_GATE,
        }
    }
}

impl SlotWord {
    /// The word that is kept after this one, if there is one.
    fn after(self) -> Option<Self>
        ensures { result ≡ word_after self }
    {
        match self {
            SlotWord::FirstName => Some(SlotWord::SecondName),
            SlotWord::SecondName => Some(SlotWord::Kind),
            SlotWord::Kind => Some(SlotWord::Gate),
            SlotWord::Gate => None,
        }
    }
}

impl CreationPoint {
    /// What comes next, if anything does.
    fn next(self) -> Option<Self>
        ensures { result ≡ next_of self }
    {
        match self {
            CreationPoint::Store(word) => Some(CreationPoint::Flush(word)),
            CreationPoint::Flush(word) => Some(CreationPoint::Fence(word)),
            CreationPoint::Fence(word) => word.after().map(CreationPoint::Store),
        }
    }
}
