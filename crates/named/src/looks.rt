//! What the queues of a broker have: what happened, what they hold, and what their clients were told.

ghost use Rattle.std.specs.Prelude.{◌≡◌, ◌≢◌, ◌<◌, ◌≤◌, ℕ, slice_get, Ok, Err, IfOk, IfErr, OnOk, IsSome, Some, None};
ghost use Rattle.persist.specs.Image.{image_of, reading};
ghost use Rattle.interleave.specs.Queue.{told_in, told_to};
ghost use Rattle.interleave.specs.State.{kept_content, order_in};
ghost use Rattle.interleave.specs.Verdicts.{number_under_way};
ghost use Rattle.named.specs.Blocks.{state_in, IsWellIn};
ghost use Rattle.named.specs.Booting.{AreBootWords};
ghost use Rattle.named.specs.Slots.{answered, world_in, IfWorld, IsSlotWell, IsWhyUnread};
ghost use Rattle.named.specs.GoingOn.{BrokerGoesOn};
ghost use Rattle.named.specs.Looking.{look_at, IsOpenTo};
ghost use Rattle.named.specs.Promises.{KeepsPromises};
ghost use Rattle.named.specs.Brokers.{world_at, room_at, answer_at, IsWell};

use crate::block::Block;
use crate::broker::Broker;
use crate::slot::Slot;
use arena::SlotId;
use events::{History, Order};
use words::{Client, Kind, Refusal, Told, Value};

/// What a client finds in an open queue: its kind, and the number of the call that the client has under way, if it has
/// one; of a durable queue's call it is 0.
#[derive(Clone, Copy)]
pub struct Look {
    pub kind: Kind,
    pub calling: Option<u64>,
}

impl Broker {
    /// A slot, where there is one.
    fn slot(&self, slot: SlotId) -> Result<&Slot, Refusal>
        ensures world { IfOk result (λ s. world_in self.now.words s.now ≡ world_at self.now slot.0) }
        ensures there { IfOk result (λ s. slice_get self.now.slots slot.0 ≡ Some s.now) }
        ensures well { IfOk result (λ s. IsSlotWell self.now.words s.now) }
        ensures whole { IsWell self.now }
        ensures errors { IfErr result (λ e. (e ≡ Refusal.NoQueue) × (world_at self.now slot.0 ≡ None)) }
    {
        match self.slots.get(slot.0 as usize) {
            Some(slot) => Ok(slot),
            None => Err(Refusal::NoQueue),
        }
    }

    /// The queue of a slot. It is refused where the slot is closed, or there is none (NoQueue).
    fn queue(&self, slot: SlotId) -> Result<&Block, Refusal>
        ensures world { IfOk result (λ b. world_at self.now slot.0 ≡ Some (state_in self.now.words b.now)) }
        ensures well { IfOk result (λ b. IsWellIn self.now.words b.now) }
        ensures whole { IsWell self.now }
        ensures errors { IfErr result (λ e. (e ≡ Refusal.NoQueue) × (world_at self.now slot.0 ≡ None)) }
    {
        self.slot(slot)?.queue()
    }

    /// How many clients each queue has, from 1 to [`words::MAX_CLIENTS`].
    pub fn clients(&self) -> u32
        ensures { result ≡ self.now.counts.clients }
    {
        self.layout.clients()
    }

    /// How many records each client has in each queue, from 1 to [`words::MAX_RECORDS`].
    pub fn records(&self) -> u32
        ensures { result ≡ self.now.counts.records }
    {
        self.layout.queue(Kind::Log).records()
    }

    /// What the client was last told in the queue of a slot: what the last recovery read, and at first what the base
    /// tells. It is refused, in this order, where there is no such client (NoClient), while the broker recovers
    /// (NotReady), and where the slot is closed (NoQueue).
    #[tactic(auto, using(crate::proofs::promises::Promises::promises_well))]
    pub fn told(&self, slot: SlotId, client: Client) -> Result<Told, Refusal>
        ensures told { result ≡ answer_at (λ w. Ok (told_to (told_in w.queue) client)) self.now slot.0 client }
        ensures promises { KeepsPromises self.now }
    {
        let _ = &self.layout;
        self.admit(client)?;
        Ok(self.queue(slot)?.told(client))
    }

    /// Which kind of queue a slot has. It is refused where the slot is closed (NoQueue).
    #[tactic(auto, using(crate::proofs::promises::Promises::promises_well))]
    pub fn kind(&self, slot: SlotId) -> Result<Kind, Refusal>
        ensures kind { result ≡ answered (λ w. Ok w.shape.kind) (world_at self.now slot.0) }
        ensures promises { KeepsPromises self.now }
    {
        let _ = &self.layout;
        Ok(self.queue(slot)?.kind())
    }

    /// What a client finds in the queue of a slot. It is refused, in this order, where there is no such client
    /// (NoClient), while the broker recovers (NotReady), and where the slot is closed (NoQueue).
    #[tactic(auto, using(crate::proofs::promises::Promises::promises_well))]
    pub fn look(&self, slot: SlotId, client: Client) -> Result<Look, Refusal>
        ensures look { result ≡ answer_at (λ w. Ok (look_at client w)) self.now slot.0 client }
        ensures open { OnOk result (IsOpenTo self.now slot.0 client) }
        ensures promises { KeepsPromises self.now }
    {
        let _ = &self.layout;
        self.admit(client)?;
        let queue = self.queue(slot)?;
        Ok(Look {
            kind: queue.kind(),
            calling: queue.calling(client),
        })
    }

    /// The number of the call that the client has under way in the queue of a slot, if it has one; of a durable queue's
    /// call it is 0. It is refused as [`Broker::look`] is.
    pub fn calling(&self, slot: SlotId, client: Client) -> Result<Option<u64>, Refusal>
        ensures { result ≡ answer_at (λ w. Ok (number_under_way w client)) self.now slot.0 client }
    {
        Ok(self.look(slot, client)?.calling)
    }

    /// What happened in the queue of a slot since the history begins. It takes no memory, and is refused where the slot
    /// is closed (NoQueue). What is promised of every queue holds at every moment, as any broker has it.
    #[tactic(auto, using(crate::proofs::promises::Promises::promises_well))]
    pub fn history(&self, slot: SlotId) -> Result<&History, Refusal>
        ensures base { IfOk result (λ h. IfWorld (world_at self.now slot.0) (λ w. h.now.base.items ≡ w.base)) }
        ensures told { IfOk result (λ h. IfWorld (world_at self.now slot.0) (λ w. h.now.told ≡ w.told)) }
        ensures events { IfOk result (λ h. IfWorld (world_at self.now slot.0)
            (λ w. h.now.events.items ≡ w.log.events)) }
        ensures open { OnOk result (IsSome (world_at self.now slot.0)) }
        ensures promises { KeepsPromises self.now }
        ensures errors { IfErr result (λ e. (e ≡ Refusal.NoQueue) × (world_at self.now slot.0 ≡ None)) }
    {
        Ok(self.queue(slot)?.history())
    }

    /// The calls of the queue of a slot in the order in which they took effect. It is refused, in this order, where the
    /// slot is closed (NoQueue), and for want of memory (NoMemory).
    pub fn order(&self, slot: SlotId) -> Result<Order, Refusal>
        ensures order { IfOk result (λ order. IfWorld (world_at self.now slot.0)
            (λ w. order.entries.items ≡ order_in w)) }
        ensures open { OnOk result (IsSome (world_at self.now slot.0)) }
        ensures errors { IfErr result (IsWhyUnread (world_at self.now slot.0)) }
    {
        self.queue(slot)?.order()
    }

    /// What the queue of a slot holds by its kept words. It is refused, in this order, where the slot is closed
    /// (NoQueue), and for want of memory (NoMemory).
    pub fn content(&self, slot: SlotId) -> Result<Vec<Value>, Refusal>
        ensures content { IfOk result (λ values. IfWorld (world_at self.now slot.0)
            (λ w. values.items ≡ kept_content w)) }
        ensures open { OnOk result (IsSome (world_at self.now slot.0)) }
        ensures errors { IfErr result (IsWhyUnread (world_at self.now slot.0)) }
    {
        self.queue(slot)?.content(&self.memory)
    }

    /// Makes room in the history of the queue of a slot, so that its next acts, so many of them, are not refused for
    /// want of memory. It is refused, in this order, where the slot is closed (NoQueue), and for want of memory
    /// (NoMemory).
    pub fn reserve(&mut self, slot: SlotId, acts: usize) -> Result<(), Refusal>
        ensures worlds { (at : ℕ) → world_at self.new at ≡ world_at self.old at }
        ensures room { OnOk result (acts ≤ room_at self.new slot.0) }
        ensures kept { (at : ℕ) → room_at self.old at ≤ room_at self.new at }
        ensures other_rooms { (other : ℕ) → other ≢ slot.0 → room_at self.new other ≡ room_at self.old other }
        ensures full { result ≡ Err Refusal.NoMemory → room_at self.old slot.0 < acts }
        ensures open { OnOk result (IsSome (world_at self.old slot.0)) }
        ensures errors { IfErr result (IsWhyUnread (world_at self.old slot.0)) }
        ensures directory { self.new.directory ≡ self.old.directory }
        ensures creation { self.new.creation ≡ self.old.creation }
        ensures recovery { self.new.recovery ≡ self.old.recovery }
        ensures words { self.new.words ≡ self.old.words }
        ensures goes_on { BrokerGoesOn self.old self.new }
        ensures promises { KeepsPromises self.new }
    {
        if slot.0 as usize >= self.slots.len() {
            return Err(Refusal::NoQueue);
        }
        self.slots[slot.0 as usize].reserve(acts)
    }

    /// The kept words as bytes: the image of the broker's memory. A value that is only cached is not in it. It is
    /// refused for want of memory (NoMemory).
    pub fn to_image(&self) -> Result<Vec<u8>, Refusal>
        ensures image { IfOk result (λ bytes. bytes.items ≡ image_of self.now.words.kept) }
        ensures read { IfOk result (λ bytes. reading bytes.items ≡ Ok self.now.words.kept) }
        ensures boots { AreBootWords self.now.words.kept }
        ensures errors { IfErr result (λ e. e ≡ Refusal.NoMemory) }
    {
        self.memory.to_image()
    }
}
