//! A broker of named queues.

ghost use Rattle.std.specs.Prelude.{◌≡◌, ◌↔◌, ◌⊎◌, ◌<◌, length, slice_set, Err, IfOk, IfErr, OnOk};
ghost use Rattle.arena.specs.Limits.{AreBadRecords, AreCounts};
ghost use Rattle.named.specs.Brokers.{counts_of, new_words, IsNew};
ghost use Rattle.named.specs.Promises.{KeepsPromises};

use crate::recovery::BrokerRecovery;
use crate::slot::Slot;
use crate::slots::closed_slots;
use arena::{BrokerLayout, SLOTS, SlotId};
use directory::{Creation, Directory};
use persist::{Memory, WordMemory};
use std::alloc::Global;
use std::marker::Model;
use words::{MAX_CLIENTS, MAX_RECORDS, QUEUE_PORTS, Refusal};

/// The port through which a creation acts: the one behind those of the slots' queues.
pub(crate) const CREATION_PORT: usize = SLOTS * QUEUE_PORTS;

/// A broker: one memory, and up to eight queues in it, each of which has a name, a kind and a slot.
#[derive(Drop)]
pub struct Broker {
    pub(crate) layout: BrokerLayout,
    pub(crate) memory: Memory,
    pub(crate) slots: Vec<Slot>,
    pub(crate) directory: Directory,
    /// The creation that is under way. One that a crash dropped stays until the broker is ready again: recovery may be
    /// the first to find its queue.
    pub(crate) creation: Option<Creation>,
    pub(crate) recovery: Option<BrokerRecovery>,
    /// An emptied list for the slots of the next renewal. It has no memory at first, and none after a renewal that was
    /// refused. It says nothing of the broker.
    pub(crate) spare: Vec<Slot>,
}

impl Model for Broker {
    ghost use Rattle.named.specs.Asked.{IsWellOver};
    ghost use Rattle.named.specs.Brokers.{Brokered};

    ghost Value = { Brokered };

    ghost use Rattle.named.specs.BrokerView.{broker_view};

    ghost view = { broker_view };

    ghost invariant = { λ b. IsWellOver (broker_view b) b.memory };
}

/// Stores a value in a word, and keeps it.
fn keep(memory: &mut Memory, word: usize, value: u64)
    requires cached { word < length memory.old.words.cached }
    ensures cached { memory.new.words.cached ≡ slice_set memory.old.words.cached word value }
    ensures kept { memory.new.words.kept ≡ slice_set memory.old.words.kept word value }
{
    memory.store(word, value).unwrap();
    memory.flush(word).unwrap();
    let _change = memory.fence().unwrap();
}

/// The memory of a new broker: its head says how many clients and records there are.
fn new_memory(
    alloc: Global,
    layout: &BrokerLayout,
    clients: u32,
    records: u32,
) -> Result<Memory, Refusal>
    requires counts { layout.now ≡ counts_of clients records }
    ensures cached { IfOk result (λ memory. memory.words.cached ≡ new_words layout.now) }
    ensures kept { IfOk result (λ memory. memory.words.kept ≡ new_words layout.now) }
    ensures errors { IfErr result (λ e. e ≡ Refusal.NoMemory) }
{
    let Ok(mut memory) = Memory::new(alloc, layout.size()) else {
        return Err(Refusal::NoMemory);
    };
    keep(&mut memory, 0, clients as u64);
    keep(&mut memory, 1, records as u64);
    Ok(memory)
}

impl Broker {
    /// A broker with no queue, whose queues will have 1 to 16 clients with 1 to 4,096 records each. It takes all memory
    /// that creations need. It is refused, in this order, where the clients are none or more (BadClients), where the
    /// records are (BadRecords), and for want of memory (NoMemory).
    pub fn make(alloc: Global, clients: u32, records: u32) -> Result<Self, Refusal>
        ensures made { IfOk result (IsNew (counts_of clients records)) }
        ensures counts { OnOk result (AreCounts clients records) }
        ensures bad_clients { result ≡ Err Refusal.BadClients ↔ ((clients ≡ 0) ⊎ (MAX_CLIENTS < clients)) }
        ensures bad_records { result ≡ Err Refusal.BadRecords ↔ AreBadRecords clients records }
        ensures errors { IfErr result (λ e. (e ≡ Refusal.BadClients) ⊎ (e ≡ Refusal.BadRecords) ⊎
            (e ≡ Refusal.NoMemory)) }
        ensures promises { IfOk result KeepsPromises }
    {
        let layout = BrokerLayout::make(clients, records)?;
        let memory = new_memory(alloc, &layout, clients, records)?;
        let slots = closed_slots(alloc)?;
        Ok(Broker {
            layout,
            memory,
            slots,
            directory: Directory::new(),
            creation: None,
            recovery: None,
            spare: Vec::new(alloc),
        })
    }
}
