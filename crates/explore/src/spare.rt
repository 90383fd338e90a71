//! The memory of worlds that are made one after another.

ghost use Rattle.std.specs.Prelude.{◌≡◌, ◌<◌, ◌≤◌, IfOk, IfErr};
ghost use Rattle.persist.specs.Memory.{zero_words};
ghost use Rattle.interleave.specs.State.{new_world};

use arena::Layout;
use interleave::World;
use persist::{MAX_WORDS, Memory, WordMemory};
use std::alloc::Global;
use words::Refusal;

/// A memory that the next world may have. To set its words to zero costs less than to be given others by the system.
#[derive(Drop)]
pub(crate) struct Spare {
    memory: Option<Memory>,
}

impl Spare {
    /// No memory yet.
    pub(crate) fn none() -> Self {
        Spare { memory: None }
    }

    /// A memory of so many words, all zero.
    fn zero_memory(&mut self, alloc: Global, size: usize) -> Result<Memory, Refusal>
        requires some { 0 < size }
        requires small { size ≤ MAX_WORDS }
        ensures zero { IfOk result (λ m. m.words ≡ zero_words size) }
        ensures errors { IfErr result (λ e. e ≡ Refusal.NoMemory) }
    {
        if let Some(mut memory) = self.memory.take() {
            if WordMemory::size(&memory) == size {
                memory.clear();
                return Ok(memory);
            }
        }
        Memory::new(alloc, size)
    }

    /// A new world, on the spare memory where it has as many words.
    pub(crate) fn world(&mut self, alloc: Global, layout: Layout) -> Result<World, Refusal>
        ensures made { IfOk result (λ w. w.now ≡ new_world layout) }
        ensures errors { IfErr result (λ e. e ≡ Refusal.NoMemory) }
    {
        let memory = self.zero_memory(alloc, layout.size())?;
        Ok(World::over(alloc, layout, memory))
    }

    /// The world's memory may be had again.
    pub(crate) fn keep(&mut self, world: World) {
        self.memory = Some(world.into_memory());
    }
}
