//! The words of a whole broker, each queue in fresh records.

ghost use Rattle.std.specs.Prelude.{◌≡◌, ◌↔◌, ◌⊎◌, ◌++◌, ◌<◌, ◌≤◌, IfErr, IfOk, IfSome, IsTrue, OnOk, Err, length};
ghost use Rattle.arena.specs.Broker.{broker_size};
ghost use Rattle.arena.specs.Limits.{AreCounts};
ghost use Rattle.renewal.specs.Broker.{
  AllFit,
  FitsAnew,
  HasSoundBlock,
  IsBrokerRenewalOf,
  MayBeRenewedTo,
  block_anew,
  blocks_renewed,
  broker_renewed,
  front_renewed,
};

use crate::block::{fits, renewed_block};
use crate::content::count;
use arena::{BLOCKS_FROM, BrokerLayout, HEAD_WORDS, SLOTS, SlotId};
use directory::{KeptBroker, Queue};
use persist::{KeptWords, Memory};
use sound_words::KeptQueue;
use std::alloc::{AllocError, Global};
use words::{Kind, Refusal};

/// Adds the words of the head, which has the new counts, and of the directory, which stays.
fn add_front(to: &BrokerLayout, memory: &Memory, words: &mut Vec<u64>) -> Result<(), AllocError>
    requires { BLOCKS_FROM ≤ length memory.now.words.kept }
    ensures words { OnOk result (words.new.items ≡ words.old.items ++ front_renewed to.now memory.now.words.kept) }
    ensures counts { AreCounts to.now.clients to.now.records }
{
    // Queues of both kinds have the same counts.
    let queue = to.queue(Kind::Log);
    words.push(queue.clients() as u64)?;
    words.push(queue.records() as u64)?;
    for word in HEAD_WORDS..BLOCKS_FROM {
        words.push(memory.kept(word))?;
    }
    Ok(())
}

/// The words of a slot's block: those of its queue in fresh records, or zeros where it has no queue.
pub(crate) fn slot_words(
    alloc: Global,
    layout: &BrokerLayout,
    memory: &Memory,
    slot: SlotId,
    queue: &Option<Queue>,
    to: &BrokerLayout,
) -> Result<Vec<u64>, Refusal>
    requires slot { slot.0 < SLOTS }
    requires room { broker_size layout.now ≤ length memory.now.words.cached }
    requires kept { broker_size layout.now ≤ length memory.now.words.kept }
    requires clients { layout.now.clients ≤ to.now.clients }
    requires sound { IfSome queue.now (HasSoundBlock layout.now slot.0 memory.now.words.kept) }
    ensures words { IfOk result (λ w. w.items ≡ block_anew to.now layout.now queue.now slot.0 memory.now.words.kept) }
    ensures room { OnOk result (FitsAnew to.now layout.now queue.now slot.0 memory.now.words.kept) }
    ensures no_room { result ≡ Err Refusal.NoRoom
        → ¬ FitsAnew to.now layout.now queue.now slot.0 memory.now.words.kept }
    ensures errors { IfErr result (λ e. (e ≡ Refusal.NoRoom) ⊎ (e ≡ Refusal.NoMemory)) }
{
    let Some(queue) = queue else {
        return match vec![in alloc; 0; to.block_size()] {
            Ok(words) => Ok(words),
            Err(_) => Err(Refusal::NoMemory),
        };
    };
    let Ok(block) = memory.view(layout.block(slot), layout.block_size()) else {
        // The memory has as many words as the layout.
        unreachable!();
    };
    let (old, new) = (layout.queue(queue.kind), to.queue(queue.kind));
    renewed_block(alloc, &old, &block, &new)
}

/// Whether the items of a slot's queue, if it has one, fit.
fn slot_fits(
    layout: &BrokerLayout,
    memory: &Memory,
    slot: SlotId,
    queue: &Option<Queue>,
    to: &BrokerLayout,
) -> bool
    requires slot { slot.0 < SLOTS }
    requires room { broker_size layout.now ≤ length memory.now.words.cached }
    requires kept { broker_size layout.now ≤ length memory.now.words.kept }
    requires sound { IfSome queue.now (HasSoundBlock layout.now slot.0 memory.now.words.kept) }
    ensures { IsTrue result ↔ FitsAnew to.now layout.now queue.now slot.0 memory.now.words.kept }
{
    let Some(queue) = queue else {
        return true;
    };
    let Ok(block) = memory.view(layout.block(slot), layout.block_size()) else {
        // The memory has as many words as the layout.
        unreachable!();
    };
    let (old, new) = (layout.queue(queue.kind), to.queue(queue.kind));
    fits(&new, count(&old, &KeptQueue::new(&old, &block)))
}

/// Whether the items of all queues fit.
fn do_all_fit(kept: &KeptBroker, memory: &Memory, to: &BrokerLayout) -> bool
    requires { MayBeRenewedTo memory.now.words kept.now.layout kept.now.directory to.now }
    ensures { IsTrue result ↔ AllFit to.now memory.now.words.kept }
{
    let places = kept.directory.queues();
    for slot in 0..SLOTS {
        if !slot_fits(&kept.layout, memory, SlotId(slot as u8), &places[slot], to) {
            return false;
        }
    }
    true
}

/// Adds the words of all blocks, in the order of the slots.
fn add_blocks(
    alloc: Global,
    kept: &KeptBroker,
    memory: &Memory,
    to: &BrokerLayout,
    words: &mut Vec<u64>,
) -> Result<(), Refusal>
    requires { MayBeRenewedTo memory.now.words kept.now.layout kept.now.directory to.now }
    ensures words { OnOk result (words.new.items ≡ words.old.items ++ blocks_renewed to.now memory.now.words.kept) }
    ensures room { OnOk result (AllFit to.now memory.now.words.kept) }
    ensures no_room { result ≡ Err Refusal.NoRoom → ¬ AllFit to.now memory.now.words.kept }
    ensures errors { IfErr result (λ e. (e ≡ Refusal.NoRoom) ⊎ (e ≡ Refusal.NoMemory)) }
{
    let places = kept.directory.queues();
    for slot in 0..SLOTS {
        let queue = &places[slot];
        let block = slot_words(alloc, &kept.layout, memory, SlotId(slot as u8), queue, to)?;
        if words.extend_from_slice(&block).is_err() {
            return Err(Refusal::NoMemory);
        }
    }
    Ok(())
}

/// The words of a broker with each queue in fresh records, for as many clients or more and for these records of each.
/// `kept` is what `memory` keeps of a broker that a crash stopped, and whose words obey the rules. Each queue stays in
/// its slot with its name and its kind, with the same items in their order, and tells each client the same. It is
/// refused, in this order, where the items of a queue do not fit beside two records of each client (NoRoom), and where
/// memory is refused (NoMemory).
pub fn renewed_broker(
    alloc: Global,
    kept: &KeptBroker,
    memory: &Memory,
    to: &BrokerLayout,
) -> Result<Vec<u64>, Refusal>
    requires { MayBeRenewedTo memory.now.words kept.now.layout kept.now.directory to.now }
    ensures renewed { IfOk result (λ words. words.items ≡ broker_renewed to.now memory.now.words.kept) }
    ensures same { IfOk result (λ words. IsBrokerRenewalOf memory.now.words.kept to.now words.items) }
    ensures no_room { result ≡ Err Refusal.NoRoom ↔ ¬ AllFit to.now memory.now.words.kept }
    ensures errors { IfErr result (λ e. (e ≡ Refusal.NoRoom) ⊎ (e ≡ Refusal.NoMemory)) }
{
    if !do_all_fit(kept, memory, to) {
        return Err(Refusal::NoRoom);
    }
    let Ok(mut words) = Vec::with_capacity(alloc, to.size()) else {
        return Err(Refusal::NoMemory);
    };
    let Ok(()) = add_front(to, memory, &mut words) else {
        return Err(Refusal::NoMemory);
    };
    add_blocks(alloc, kept, memory, to, &mut words)?;
    Ok(words)
}
