//! A broker that begins on what a memory of the form of values keeps.

ghost use Rattle.std.specs.Prelude.{IfErr, IfOk, OnOk};
ghost use Rattle.arena.specs.declared.form.Form.TheVariants.{OfValues};
ghost use Rattle.named.specs.Booting.{AreBootWordsIn, MayRefuseIn};
ghost use Rattle.named.specs.Migrating.{IsMigrated};
ghost use Rattle.named.specs.Promises.{KeepsPromises};

use crate::booting::check_blocks;
use crate::broker::Broker;
use arena::Form;
use directory::sound_in;
use migration::broker_words;
use persist::Memory;
use std::alloc::Global;
use words::Refusal;

impl Broker {
    /// A broker that begins on what a memory of the form of values keeps, as a crash left it: its words are written
    /// anew in the form of items, each value as the item of its four bytes, the low one first. Each open queue's
    /// history begins with what the old words hold and tell. It is refused, in this order, where these break a rule of
    /// their form (Damaged, with the first such rule, as [`Broker::boot`] says), and for want of memory (NoMemory).
    pub fn migrate(alloc: Global, mut memory: Memory) -> Result<Self, Refusal>
        ensures migrated { IfOk result (IsMigrated memory.words.kept) }
        ensures sound { OnOk result (AreBootWordsIn OfValues memory.words.kept) }
        ensures errors { IfErr result (MayRefuseIn OfValues memory.words.kept) }
        ensures promises { IfOk result KeepsPromises }
    {
        memory.crash();
        let kept = sound_in(Form::OfValues, &memory)?;
        check_blocks(Form::OfValues, &kept, &memory)?;
        let Ok(words) = broker_words(alloc, &kept, &memory) else {
            return Err(Refusal::NoMemory);
        };
        let Ok(memory) = Memory::of(alloc, words) else {
            // A memory may have as many words as a broker's layout.
            return Err(Refusal::NoMemory);
        };
        Broker::boot(alloc, memory)
    }
}
