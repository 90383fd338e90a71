//! A broker that begins on what a memory keeps.

ghost use Rattle.std.specs.Prelude.{◌≡◌, ◌<◌, ◌≤◌, length, Ok, IfOk, IfErr, OnOk, None};
ghost use Rattle.arena.specs.Broker.{broker_size_in};
ghost use Rattle.named.specs.Booting.{AreBootWords, AreBootWordsIn, AreRead, AreReadIn, IsBlockDamagedIn, IsBooted, IsDamagedFor, IsSoundFor, MayRefuse};
ghost use Rattle.named.specs.Promises.{KeepsPromises};

use crate::broker::Broker;
use crate::recovery::BrokerRecovery;
use crate::slots::boot_each;
use arena::{BrokerLayout, Form, SLOTS, SlotId};
use directory::{DirectoryRecovery, KeptBroker, sound as sound_directory};
use persist::Memory;
use sound_words::sound_in as sound_queue;
use std::alloc::Global;
use words::{Kind, Refusal};

/// Whether a queue of this kind may begin on the kept words of a slot's block. It is refused where they break a rule
/// of this form (Damaged, with the first such rule).
fn check_block(
    form: Form,
    layout: &BrokerLayout,
    memory: &Memory,
    slot: SlotId,
    kind: Kind,
) -> Result<(), Refusal>
    requires slot { slot.0 < SLOTS }
    requires room { broker_size_in form layout.now ≤ length memory.now.words.cached }
    requires kept { broker_size_in form layout.now ≤ length memory.now.words.kept }
    ensures sound { OnOk result (IsSoundFor form layout.now kind slot.0 memory.now.words.kept) }
    ensures damaged { IfErr result (IsDamagedFor form layout.now kind slot.0 memory.now.words.kept) }
{
    let block = memory.view(layout.block_in(form, slot), layout.block_size_in(form))?;
    sound_queue(form, &layout.queue(kind), &block)
}

/// Whether so it is of each open slot, in slot order.
pub(crate) fn check_blocks(form: Form, kept: &KeptBroker, memory: &Memory) -> Result<(), Refusal>
    requires { AreReadIn form memory.now.words kept.now.layout kept.now.directory }
    ensures sound { OnOk result (AreBootWordsIn form memory.now.words.kept) }
    ensures damaged { IfErr result (IsBlockDamagedIn form memory.now.words.kept) }
{
    let places = kept.directory.queues();
    for slot in 0..SLOTS {
        if let Some(queue) = &places[slot] {
            check_block(form, &kept.layout, memory, SlotId(slot as u8), queue.kind)?;
        }
    }
    Ok(())
}

impl Broker {
    /// A broker that begins on what a memory keeps, where its words are known to obey the rules. `kept` is what they
    /// say. Recovery begins. It is refused for want of memory alone (NoMemory).
    pub(crate) fn begin(alloc: Global, kept: &KeptBroker, memory: Memory) -> Result<Self, Refusal>
        requires read { AreRead memory.words kept.now.layout kept.now.directory }
        requires sound { AreBootWords memory.words.kept }
        ensures booted { IfOk result (IsBooted memory.words) }
        ensures errors { IfErr result (λ e. e ≡ Refusal.NoMemory) }
        ensures promises { IfOk result KeepsPromises }
    {
        let slots = boot_each(Vec::new(alloc), kept, &memory)?;
        Ok(Broker {
            layout: kept.layout,
            memory,
            slots,
            directory: kept.directory,
            creation: None,
            recovery: Some(BrokerRecovery::ReadDirectory {
                at: DirectoryRecovery::boot(),
            }),
            spare: Vec::new(alloc),
        })
    }

    /// A broker that begins on what a memory keeps, as a crash left it: what is not kept is lost, and recovery begins.
    /// How many clients and records there are, the memory's head says. Each open queue's history begins with what its
    /// kept words hold and tell. It is refused, in this order, where the words break a rule (Damaged, with the first
    /// such rule: of the head, of the directory, of the open blocks in slot order), and for want of memory (NoMemory).
    pub fn boot(alloc: Global, mut memory: Memory) -> Result<Self, Refusal>
        ensures booted { IfOk result (IsBooted memory.words) }
        ensures sound { OnOk result (AreBootWords memory.words.kept) }
        ensures errors { IfErr result (MayRefuse memory.words.kept) }
        ensures promises { IfOk result KeepsPromises }
    {
        memory.crash();
        let kept = sound_directory(&memory)?;
        check_blocks(Form::OfItems, &kept, &memory)?;
        Broker::begin(alloc, &kept, memory)
    }
}
