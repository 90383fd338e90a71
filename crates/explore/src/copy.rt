//! What a world keeps, copied to another memory, and recovery there.

ghost use Rattle.std.specs.Prelude.{◌≡◌, ◌<◌, length, slice_set};
ghost use Rattle.words.specs.declared.limits.TheConstants.{MAX_CLIENTS};
ghost use Rattle.persist.specs.Memory.{IsUnasked};
ghost use Rattle.interleave.specs.Holds.{Holds};
ghost use Rattle.interleave.specs.Queue.{told_in};
ghost use Rattle.interleave.specs.State.{after_stop, taken_of};
ghost use Rattle.explore.specs.Points.{events_once_ready, recovered, recovery_of};

use crate::attempts::most_to_ready;
use events::copied;
use interleave::World;
use persist::{EvictableWords, KeptWords, Memory, WordMemory};
use recover::boot;
use words::Reports;

/// Makes this the kept value of a word.
fn keep_word(memory: &mut Memory, word: usize, value: u64)
    requires { word < length memory.old.words.kept }
    ensures { memory.new.words.kept ≡ slice_set memory.old.words.kept word value }
{
    // There is such a word, so neither is refused.
    let _ = WordMemory::size(memory);
    let _ = memory.store(word, value);
    let _ = memory.evict(word);
}

/// Makes the copy keep what a memory of as many words keeps. It caches nothing else, and asks for nothing.
pub(crate) fn copy_kept(copy: &mut Memory, memory: &Memory)
    requires { length copy.old.words.kept ≡ length memory.now.words.kept }
    ensures kept { copy.new.words.kept ≡ memory.now.words.kept }
    ensures cached { copy.new.words.cached ≡ memory.now.words.kept }
    ensures unasked { IsUnasked copy.new }
{
    for word in 0..KeptWords::size(memory) {
        let value = memory.kept(word);
        if copy.kept(word) != value {
            keep_word(copy, word, value);
        }
    }
    copy.crash();
}

/// How many steps a recovery had, and what it told each client.
#[derive(Drop)]
pub(crate) struct Recovered {
    pub(crate) steps: u32,
    pub(crate) told: Reports,
}

/// Recovery of the copy, which has what the world keeps, to its end: as if the world had stopped.
pub(crate) fn recover(copy: &mut Memory, world: &World) -> Recovered
    requires holds { Holds world.now.now }
    requires cached { copy.old.words.cached ≡ world.now.now.words.kept }
    requires kept { copy.old.words.kept ≡ world.now.now.words.kept }
    ensures steps { result.steps ≡ taken_of (after_stop world.now.now) (recovery_of world.now.now.shape) }
    ensures told { result.told ≡ told_in (recovered world.now.now).queue }
    ensures sixteen { length result.told ≡ MAX_CLIENTS }
    ensures kept { copy.new.words.kept ≡ (recovered world.now.now).words.kept }
    ensures events { (recovered world.now.now).log.events ≡ events_once_ready world.now.now result.told }
    ensures size { length copy.new.words.kept ≡ length copy.old.words.kept }
{
    let layout = world.layout();
    let most = most_to_ready(layout);
    let mut recovery = boot();
    let mut ready = false;
    for steps in 0..most {
        if ready {
            return Recovered {
                steps,
                told: copied(recovery.told()),
            };
        }
        ready = recovery.step(layout, copy).answer;
    }
    Recovered {
        steps: most,
        told: copied(recovery.told()),
    }
}
