//! A memory, lent through one of its ports.

ghost use Rattle.std.specs.Prelude.{◌≡◌, ◌<◌};
ghost use Rattle.persist.specs.Memory.{lent_whole};
ghost use Rattle.persist.specs.declared.memory.TheConstants.{PORTS};

use crate::access::{Change, EvictableWords, KeptWords, Swap, WordMemory};
use crate::memory::{Memory, PORTS};
use words::Refusal;

/// A memory as a client reaches it: all its words, with their numbers. What is flushed is asked for through this port,
/// and a fence completes what this port asks for.
#[derive(Drop)]
pub struct Port<'a> {
    memory: &'a mut Memory,
    port: usize,
    ghost real: { port < PORTS },
}

impl<'a> Port<'a> {
    ghost use Rattle.persist.specs.Lent.{port_lent};

    pub(crate) fn new(memory: &'a mut Memory, port: usize) -> Port<'a>
        requires { port < PORTS }
        ensures same_memory { result.memory.ghost_name ≡ memory.entry.ghost_name }
        ensures words { result.memory.now.words ≡ memory.old.words }
        ensures lent { port_lent result ≡ lent_whole memory.entry.ghost_name port memory.old }
    {
        Port { memory, port }
    }
}

impl WordMemory for Port<'_> {
    ghost words = { λ p. p.memory.now.words };

    ghost lent = { λ p. lent_whole p.memory.ghost_name p.port p.memory.now };

    fn size(&self) -> usize {
        WordMemory::size(self.memory)
    }

    fn load(&mut self, word: usize) -> Result<u64, Refusal> {
        self.memory.load(word)
    }

    fn store(&mut self, word: usize, value: u64) -> Result<(), Refusal> {
        self.memory.store(word, value)
    }

    fn cas(&mut self, word: usize, old: u64, new: u64) -> Result<Swap, Refusal> {
        self.memory.cas(word, old, new)
    }

    fn flush(&mut self, word: usize) -> Result<(), Refusal> {
        if word >= WordMemory::size(self.memory) {
            return Err(Refusal::NoWord);
        }
        self.memory.ask(self.port, word);
        Ok(())
    }

    fn fence(&mut self) -> Result<Option<Change>, Refusal> {
        let size = WordMemory::size(self.memory);
        self.memory.complete(self.port, 0, size)
    }
}

impl KeptWords for Port<'_> {
    ghost kept_words = { λ p. p.memory.now.words.kept };

    fn size(&self) -> usize {
        KeptWords::size(self.memory)
    }

    fn kept(&self, word: usize) -> u64 {
        self.memory.kept(word)
    }
}

impl EvictableWords for Port<'_> {
    ghost use Rattle.std.specs.Prelude.{refl};

    ghost kept_is = { λ p. refl };

    fn evict(&mut self, word: usize) -> Result<Option<Change>, Refusal> {
        self.memory.evict(word)
    }
}
