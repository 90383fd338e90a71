//! Queues in fresh records: of a broker that begins on what another keeps, and of one at rest.

ghost use Rattle.std.specs.Prelude.{◌≡◌, ◌<◌, Err, IfErr, IfOk, OnErr, OnOk};
ghost use Rattle.named.specs.Brokers.{counts_of};
ghost use Rattle.named.specs.Promises.{KeepsPromises};
ghost use Rattle.named.specs.Renewing.{DoesNotFit, HasRoomInEach, IsAnewFor, IsRenewed, IsRenewedAt, IsWhyNotRenewedAt, IsWhyUnrenewed, MayRenew};
ghost use Rattle.notes.specs.Noting.{HasNoted};

use crate::broker::Broker;
use crate::recovery::BrokerRecovery;
use crate::slot::Slot;
use crate::slots::{boot_each, have_calls, reserve_each, take_rooms};
use arena::{BrokerLayout, SlotId};
use directory::{DirectoryRecovery, KeptBroker, sound as sound_directory};
use notes::Notes;
use persist::Memory;
use renewal::{FreshBlock, fresh_queue, renewed_broker};
use std::mem::replace;
use words::Refusal;

/// What a renewal puts in place of what is there: slots whose queues begin anew, each history with room for an act, and
/// the words of the renewed queue's block.
#[derive(Drop)]
struct Anew {
    slots: Vec<Slot>,
    block: FreshBlock,
}

impl Broker {
    /// A broker that begins on what this one keeps, as a crash leaves it, with each queue in fresh records, for so many
    /// clients and so many records of each. Each open queue's history begins with what the kept words hold and tell:
    /// the same items in their order, and to each client the same. What is only cached, calls and a creation under way
    /// are lost, as by a crash, and recovery begins. It is refused, in this order, where the clients are fewer than now
    /// or more than 16 (BadClients), where the records are none or more than 4,096 (BadRecords), where the items of a
    /// queue do not fit beside two records of each client (NoRoom), and for want of memory (NoMemory).
    pub fn renewed(self, clients: u32, records: u32) -> Result<Self, Refusal>
        ensures renewed { IfOk result (IsRenewed self.words.kept (counts_of clients records)) }
        ensures errors { IfErr result (IsWhyUnrenewed self.words.kept (counts_of clients records)) }
        ensures no_room { DoesNotFit self.words.kept (counts_of clients records) → result ≡ Err Refusal.NoRoom }
        ensures promises { IfOk result KeepsPromises }
    {
        let alloc = *self.slots.allocator();
        let mut memory = self.memory;
        memory.crash();
        let Ok(kept) = sound_directory(&memory) else {
            // A broker may begin on its kept words at every moment.
            unreachable!();
        };
        if clients < kept.layout.clients() {
            return Err(Refusal::BadClients);
        }
        let to = BrokerLayout::make(clients, records)?;
        let words = renewed_broker(alloc, &kept, &memory, &to)?;
        let Ok(renewed) = Memory::of(alloc, words) else {
            // A memory may have as many words as a broker's layout.
            return Err(Refusal::NoMemory);
        };
        let kept = KeptBroker {
            layout: to,
            directory: kept.directory,
        };
        Broker::begin(alloc, &kept, renewed)
    }

    /// Gives away the spare list, for a renewal to fill; an empty one is left.
    fn take_spare(&mut self) -> Vec<Slot>
        ensures { self.new ≡ self.old }
    {
        let alloc = *self.slots.allocator();
        replace(&mut self.spare, Vec::new(alloc))
    }

    /// Refuses a renewal of the queue of a slot where it may not begin.
    fn check_renewal(&self, slot: SlotId) -> Result<(), Refusal>
        ensures may { OnOk result (MayRenew self.now slot.0) }
        ensures errors { IfErr result (IsWhyNotRenewedAt self.now slot.0) }
    {
        self.check_ready()?;
        self.kind(slot)?;
        if self.creation.is_some() || have_calls(&self.slots) {
            return Err(Refusal::Busy);
        }
        Ok(())
    }

    /// What [`Broker::renew`] puts in place of what is there, its slots in this list, and nothing has changed yet. It is
    /// refused as that is.
    fn prepared(&self, slot: SlotId, list: Vec<Slot>) -> Result<Anew, Refusal>
        ensures may { OnOk result (MayRenew self.now slot.0) }
        ensures anew { IfOk result (λ anew. IsAnewFor self.now slot.0 anew.slots.items anew.block) }
        ensures errors { IfErr result (IsWhyNotRenewedAt self.now slot.0) }
        ensures stays { KeepsPromises self.now }
    {
        // A broker at rest has the directory that its kept words tell of.
        let kept = KeptBroker {
            layout: self.layout,
            directory: self.directory,
        };
        self.check_renewal(slot)?;
        let alloc = *self.slots.allocator();
        let block = fresh_queue(alloc, &kept, &self.memory, slot)?;
        let mut slots = boot_each(list, &kept, &self.memory)?;
        reserve_each(&mut slots, 1)?;
        Ok(Anew { slots, block })
    }

    /// Begins anew on this. Nothing is refused any more. The histories that begin take the room of those that end, and
    /// the list of slots is kept for the next renewal. So renewals with none refused between them take no more memory
    /// from one to the next, whichever thread makes them.
    fn begin_anew(&mut self, slot: SlotId, anew: Anew)
        requires may { MayRenew self.old slot.0 }
        requires anew { IsAnewFor self.old slot.0 anew.slots.items anew.block }
        ensures renewed { IsRenewedAt self.old self.new slot.0 }
        ensures room { HasRoomInEach self.new 1 }
        ensures promises { KeepsPromises self.new }
    {
        let Anew { slots, block } = anew;
        self.memory.rewrite(self.layout.block(slot), &block);
        let mut ended = replace(&mut self.slots, slots);
        take_rooms(&mut self.slots, &mut ended, 1);
        self.spare = ended;
        self.recovery = Some(BrokerRecovery::ReadDirectory {
            at: DirectoryRecovery::boot(),
        });
    }

    /// The whole system stops at rest, and the queue of a slot has fresh records when recovery begins: as many as it
    /// has now, and hardly any used. All queues stay. The histories of all of them end, as by [`Broker::rotate`], and
    /// others begin on what they hold and tell; the broker is down, as after [`Broker::crash`], with room in each
    /// history for what recovery adds to it. It is refused, in this order, while recovery is under way (NotReady), where
    /// the slot is closed (NoQueue), where a creation is under way or a call in any queue (Busy), where the items do not
    /// fit beside two records of each client (NoRoom), and for want of memory (NoMemory), and then nothing changed.
    pub fn renew(&mut self, slot: SlotId) -> Result<(), Refusal>
        ensures may { OnOk result (MayRenew self.old slot.0) }
        ensures renewed { OnOk result (IsRenewedAt self.old self.new slot.0) }
        ensures room { OnOk result (HasRoomInEach self.new 1) }
        ensures errors { IfErr result (IsWhyNotRenewedAt self.old slot.0) }
        ensures same { OnErr result (self.new ≡ self.old) }
        ensures promises { KeepsPromises self.new }
    {
        let list = self.take_spare();
        let anew = self.prepared(slot, list)?;
        self.begin_anew(slot, anew);
        Ok(())
    }

    /// As [`Broker::renew`], with the changes of kept words that it made, behind those that were noted before. Room is
    /// promised for so many more. It is refused for want of memory for these, too (NoMemory).
    pub fn renew_noted(
        &mut self,
        slot: SlotId,
        notes: &mut Notes,
        more: usize,
    ) -> Result<(), Refusal>
        ensures may { OnOk result (MayRenew self.old slot.0) }
        ensures renewed { OnOk result (IsRenewedAt self.old self.new slot.0) }
        ensures room { OnOk result (HasRoomInEach self.new 1) }
        ensures noted { OnOk result
            (HasNoted notes.old.changes notes.new.changes self.old.words.kept self.new.words.kept) }
        ensures promised { OnOk result (notes.new.promised ≡ more) }
        ensures errors { IfErr result (IsWhyNotRenewedAt self.old slot.0) }
        ensures same { OnErr result (self.new ≡ self.old) }
        ensures unnoted { OnErr result (notes.new ≡ notes.old) }
        ensures promises { KeepsPromises self.new }
    {
        let list = self.take_spare();
        let anew = self.prepared(slot, list)?;
        let from = self.layout.block(slot);
        if notes
            .note_rewrite(&self.memory, from, &anew.block, more)
            .is_err()
        {
            return Err(Refusal::NoMemory);
        }
        self.begin_anew(slot, anew);
        Ok(())
    }
}
