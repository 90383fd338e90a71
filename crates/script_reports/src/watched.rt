//! A memory lent through a port, which notes the access that is made to it.

ghost use Rattle.persist.specs.Lent.{port_lent, port_words};

use persist::{Change, EvictableWords, KeptWords, Port, Swap, WordMemory};
use words::Refusal;

/// An access to a word, and what it found or changed.
#[derive(Clone, Copy)]
pub(crate) enum Access {
    Load { word: usize, value: u64 },
    Store { word: usize, value: u64 },
    Swap { word: usize, swap: Swap },
    Flush { word: usize },
    /// With the change of the kept value, where there was one.
    Fence(Option<Change>),
}

/// The words of a port, and the last access that was made through it. It is the port in all else.
#[derive(Drop)]
pub(crate) struct Watched<'a> {
    pub(crate) port: Port<'a>,
    pub(crate) last: Option<Access>,
}

impl WordMemory for Watched<'_> {
    ghost words = { λ w. port_words w.port };

    ghost lent = { λ w. port_lent w.port };

    fn size(&self) -> usize {
        WordMemory::size(&self.port)
    }

    fn load(&mut self, word: usize) -> Result<u64, Refusal> {
        let value = self.port.load(word)?;
        self.last = Some(Access::Load { word, value });
        Ok(value)
    }

    fn store(&mut self, word: usize, value: u64) -> Result<(), Refusal> {
        self.port.store(word, value)?;
        self.last = Some(Access::Store { word, value });
        Ok(())
    }

    fn cas(&mut self, word: usize, old: u64, new: u64) -> Result<Swap, Refusal> {
        let swap = self.port.cas(word, old, new)?;
        self.last = Some(Access::Swap { word, swap });
        Ok(swap)
    }

    fn flush(&mut self, word: usize) -> Result<(), Refusal> {
        self.port.flush(word)?;
        self.last = Some(Access::Flush { word });
        Ok(())
    }

    fn fence(&mut self) -> Result<Option<Change>, Refusal> {
        let change = self.port.fence()?;
        self.last = Some(Access::Fence(change));
        Ok(change)
    }
}

impl KeptWords for Watched<'_> {
    ghost kept_words = { λ w. (port_words w.port).kept };

    fn size(&self) -> usize {
        KeptWords::size(&self.port)
    }

    fn kept(&self, word: usize) -> u64 {
        self.port.kept(word)
    }
}

impl EvictableWords for Watched<'_> {
    ghost use Rattle.std.specs.Prelude.{refl};

    ghost kept_is = { λ w. refl };

    fn evict(&mut self, word: usize) -> Result<Option<Change>, Refusal> {
        self.port.evict(word)
    }
}
