//! The words of a broker of the form of items, from those of one of the form of values.

ghost use Rattle.std.specs.Prelude.{◌≡◌, ◌++◌, ◌<◌, ◌≤◌, IfOk, IfSome, OnOk, length, replicate, take};
ghost use Rattle.arena.specs.Broker.{broker_size_in};
ghost use Rattle.arena.specs.declared.form.Form.TheVariants.{OfValues};
ghost use Rattle.migration.specs.Words.{HasSoundValues, MayBeMigrated, blocks_migrated, broker_migrated, old_block, slot_migrated};

use crate::block::add_block;
use arena::{BLOCKS_FROM, BrokerLayout, Form, SLOTS, SlotId};
use directory::{KeptBroker, Queue};
use persist::{KeptWords, Memory};
use std::alloc::{AllocError, Global};
use words::Kind;

/// Adds words that are 0.
fn add_zeros(count: usize, words: &mut Vec<u64>) -> Result<(), AllocError>
    ensures { OnOk result (words.new.items ≡ words.old.items ++ replicate count 0) }
{
    for _ in 0..count {
        words.push(0)?;
    }
    Ok(())
}

/// Adds the words of a slot's block.
fn add_slot(
    layout: &BrokerLayout,
    memory: &Memory,
    slot: SlotId,
    queue: &Option<Queue>,
    words: &mut Vec<u64>,
) -> Result<(), AllocError>
    requires slot { slot.0 < SLOTS }
    requires room { broker_size_in OfValues layout.now ≤ length memory.now.words.cached }
    requires kept { broker_size_in OfValues layout.now ≤ length memory.now.words.kept }
    requires sound { IfSome queue.now (HasSoundValues layout.now slot.0 memory.now.words.kept) }
    // Long, since it names the words of before, the slot's queue and its block.
    ensures { OnOk result (words.new.items ≡ words.old.items
        ++ slot_migrated layout.now queue.now (old_block layout.now slot.0 memory.now.words.kept)) }
{
    let Some(queue) = queue else {
        return add_zeros(layout.block_size(), words);
    };
    let (from, len) = (
        layout.block_in(Form::OfValues, slot),
        layout.block_size_in(Form::OfValues),
    );
    let Ok(block) = memory.view(from, len) else {
        // The memory has as many words as the layout.
        unreachable!();
    };
    add_block(&layout.queue(queue.kind), &block, words)
}

/// Adds the words of the head and the directory, which both forms have.
fn add_front(memory: &Memory, words: &mut Vec<u64>) -> Result<(), AllocError>
    requires { BLOCKS_FROM ≤ length memory.now.words.kept }
    ensures { OnOk result (words.new.items ≡ words.old.items ++ take BLOCKS_FROM memory.now.words.kept) }
{
    for word in 0..BLOCKS_FROM {
        words.push(memory.kept(word))?;
    }
    Ok(())
}

/// Adds the words of all blocks, in the order of the slots.
fn add_blocks(kept: &KeptBroker, memory: &Memory, words: &mut Vec<u64>) -> Result<(), AllocError>
    requires sound { MayBeMigrated memory.now.words kept.now.layout kept.now.directory }
    ensures { OnOk result (words.new.items ≡ words.old.items ++ blocks_migrated memory.now.words.kept) }
{
    let places = kept.directory.queues();
    for slot in 0..SLOTS {
        let queue = &places[slot];
        add_slot(&kept.layout, memory, SlotId(slot as u8), queue, words)?;
    }
    Ok(())
}

/// The words of a broker of the form of items that has the queues of one of the form of values, as a crash left it.
/// That one's kept words obey the rules of its form, and these are what they say.
#[tactic(auto, unfolding(crate::specs::Words::broker_migrated))]
pub fn broker_words(
    alloc: Global,
    kept: &KeptBroker,
    memory: &Memory,
) -> Result<Vec<u64>, AllocError>
    requires { MayBeMigrated memory.now.words kept.now.layout kept.now.directory }
    ensures { IfOk result (λ words. words.items ≡ broker_migrated memory.now.words.kept) }
{
    let mut words = Vec::with_capacity(alloc, kept.layout.size())?;
    add_front(memory, &mut words)?;
    add_blocks(kept, memory, &mut words)?;
    Ok(words)
}
