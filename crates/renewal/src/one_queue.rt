//! The words of a whole broker, one queue in fresh records.

ghost use Rattle.std.specs.Prelude.{◌≡◌, ◌<◌, ◌≤◌, ◌⊎◌, Err, IfErr, IfOk, OnOk, Some, length};
ghost use Rattle.arena.specs.Broker.{broker_size};
ghost use Rattle.directory.specs.Sound.{counts_in};
ghost use Rattle.renewal.specs.Broker.{BlockFits, HasSoundBlock, MayBeRenewedTo};
ghost use Rattle.renewal.specs.OneQueue.{IsBlockWithin, IsWhyNotRenewed, QueueFits, RenewsQueue, StaysRenewed, queue_anew};

use crate::fresh::{FreshBlock, fresh_block};
use arena::{BrokerLayout, SLOTS, SlotId};
use directory::{KeptBroker, Queue};
use persist::Memory;
use std::alloc::Global;
use words::Refusal;

/// The block of a slot's queue in fresh records.
fn fresh_in(
    alloc: Global,
    layout: &BrokerLayout,
    memory: &Memory,
    slot: SlotId,
    queue: &Queue,
) -> Result<FreshBlock, Refusal>
    requires slot { slot.0 < SLOTS }
    requires room { broker_size layout.now ≤ length memory.now.words.cached }
    requires kept { broker_size layout.now ≤ length memory.now.words.kept }
    requires sound { HasSoundBlock layout.now slot.0 memory.now.words.kept queue.now }
    ensures words { IfOk result (λ block. block ≡ queue_anew layout.now queue.now slot.0 memory.now.words.kept) }
    ensures room { OnOk result (QueueFits layout.now queue.now slot.0 memory.now.words.kept) }
    ensures no_room { result ≡ Err Refusal.NoRoom → ¬ QueueFits layout.now queue.now slot.0 memory.now.words.kept }
    ensures errors { IfErr result (λ e. (e ≡ Refusal.NoRoom) ⊎ (e ≡ Refusal.NoMemory)) }
{
    let Ok(block) = memory.view(layout.block(slot), layout.block_size()) else {
        // The memory has as many words as the layout.
        unreachable!();
    };
    let layout = layout.queue(queue.kind);
    fresh_block(alloc, &layout, &block, &layout)
}

/// The block of one slot's queue in fresh records: written over its block it makes a broker of which all else is as it
/// is kept. `kept` is what `memory` keeps of a broker, and its kept words obey the rules. The queue holds the same
/// items in their order, and tells each client the same. It is refused, in this order, where the slot has no queue
/// (NoQueue), where the items do not fit beside two records of each client (NoRoom), and where memory is refused
/// (NoMemory).
pub fn fresh_queue(
    alloc: Global,
    kept: &KeptBroker,
    memory: &Memory,
    slot: SlotId,
) -> Result<FreshBlock, Refusal>
    requires { MayBeRenewedTo memory.now.words kept.now.layout kept.now.directory kept.now.layout }
    ensures slot { OnOk result (slot.0 < SLOTS) }
    ensures within { IfOk result (IsBlockWithin kept.now.layout slot.0 memory.now.words.kept) }
    ensures renewed { IfOk result (RenewsQueue kept.now.layout slot.0 memory.now.words.kept) }
    ensures same { OnOk result (StaysRenewed slot.0 memory.now.words.kept) }
    ensures room { OnOk result (BlockFits (counts_in memory.now.words.kept) memory.now.words.kept slot.0) }
    ensures errors { IfErr result (IsWhyNotRenewed memory.now.words.kept slot.0) }
{
    let at = slot.0 as usize;
    if at >= SLOTS {
        return Err(Refusal::NoQueue);
    }
    match &kept.directory.queues()[at] {
        None => Err(Refusal::NoQueue),
        Some(queue) => fresh_in(alloc, &kept.layout, memory, slot, queue),
    }
}
