//! A part of a memory, lent as a memory of its own.

ghost use Rattle.std.specs.Prelude.{◌≡◌, ◌+◌, ◌<◌, ◌≤◌, length, Ok, Err, IfSome, take, drop};
ghost use Rattle.persist.specs.Changes.{change_at, change_from};
ghost use Rattle.persist.specs.Memory.{lent_part, words_in};
ghost use Rattle.persist.specs.declared.memory.TheConstants.{PORTS};

use crate::access::{Change, EvictableWords, KeptWords, Swap, WordMemory};
use crate::memory::{Memory, PORTS};
use words::Refusal;

/// A part of a memory, lent through a port, with its words numbered from 0, also in the changes that it answers. What
/// is outside stays as it is: a fence is refused while the port asks for a word there.
#[derive(Drop)]
pub struct Window<'a> {
    memory: &'a mut Memory,
    port: usize,
    from: usize,
    len: usize,
    ghost real: { port < PORTS },
    ghost inside: { from + len ≤ length memory.now.words.cached },
    ghost fits: { from + len ≤ 18446744073709551615 },
    ghost same: { length memory.now.words.kept ≡ length memory.now.words.cached },
}

/// The change, with the word's number in the part.
fn renumbered(change: Option<Change>, word: usize) -> Option<Change>
    ensures { result ≡ change_at word change }
{
    match change {
        Some(change) => Some(Change {
            word,
            old: change.old,
            new: change.new,
        }),
        None => None,
    }
}

/// The change, with the word's number from the word `from` on.
fn numbered_from(change: Option<Change>, from: usize) -> Option<Change>
    requires { IfSome change (λ c. from ≤ c.word) }
    ensures { result ≡ change_from from change }
{
    match change {
        Some(change) => Some(Change {
            word: change.word - from,
            old: change.old,
            new: change.new,
        }),
        None => None,
    }
}

impl<'a> Window<'a> {
    ghost use Rattle.persist.specs.Lent.{window_lent};

    pub(crate) fn new(memory: &'a mut Memory, port: usize, from: usize, len: usize) -> Window<'a>
        requires real { port < PORTS }
        requires inside { from + len ≤ length memory.old.words.cached }
        requires fits { from + len ≤ 18446744073709551615 }
        requires same { length memory.old.words.kept ≡ length memory.old.words.cached }
        ensures same_memory { result.memory.ghost_name ≡ memory.entry.ghost_name }
        ensures words { words_in result.from result.len result.memory.now.words ≡ words_in from len memory.old.words }
        ensures lent { window_lent result ≡ lent_part memory.entry.ghost_name port from len memory.old }
    {
        Window {
            memory,
            port,
            from,
            len,
        }
    }
}

impl WordMemory for Window<'_> {
    ghost words = { λ w. words_in w.from w.len w.memory.now.words };

    ghost lent = { λ w. lent_part w.memory.ghost_name w.port w.from w.len w.memory.now };

    fn size(&self) -> usize {
        self.len
    }

    fn load(&mut self, word: usize) -> Result<u64, Refusal> {
        if word >= self.len {
            return Err(Refusal::NoWord);
        }
        self.memory.load(self.from + word)
    }

    fn store(&mut self, word: usize, value: u64) -> Result<(), Refusal> {
        if word >= self.len {
            return Err(Refusal::NoWord);
        }
        self.memory.store(self.from + word, value)
    }

    fn cas(&mut self, word: usize, old: u64, new: u64) -> Result<Swap, Refusal> {
        if word >= self.len {
            return Err(Refusal::NoWord);
        }
        self.memory.cas(self.from + word, old, new)
    }

    fn flush(&mut self, word: usize) -> Result<(), Refusal> {
        if word >= self.len {
            return Err(Refusal::NoWord);
        }
        self.memory.ask(self.port, self.from + word);
        Ok(())
    }

    fn fence(&mut self) -> Result<Option<Change>, Refusal> {
        let change = self.memory.complete(self.port, self.from, self.len)?;
        Ok(numbered_from(change, self.from))
    }
}

impl KeptWords for Window<'_> {
    ghost kept_words = { λ w. take w.len (drop w.from w.memory.now.words.kept) };

    fn size(&self) -> usize {
        self.len
    }

    fn kept(&self, word: usize) -> u64 {
        self.memory.kept(self.from + word)
    }
}

impl EvictableWords for Window<'_> {
    ghost use Rattle.std.specs.Prelude.{refl};

    ghost kept_is = { λ w. refl };

    fn evict(&mut self, word: usize) -> Result<Option<Change>, Refusal> {
        if word >= self.len {
            return Err(Refusal::NoWord);
        }
        let change = self.memory.evict(self.from + word)?;
        Ok(renumbered(change, word))
    }
}

/// The kept values of a part of a memory, numbered from 0.
#[derive(Clone, Copy)]
pub struct View<'a> {
    memory: &'a Memory,
    from: usize,
    len: usize,
    ghost inside: { from + len ≤ length memory.now.words.kept },
    ghost fits: { from + len ≤ 18446744073709551615 },
}

impl<'a> View<'a> {
    pub(crate) fn new(memory: &'a Memory, from: usize, len: usize) -> View<'a>
        requires inside { from + len ≤ length memory.now.words.kept }
        requires fits { from + len ≤ usize.MAX }
        ensures { take result.len (drop result.from result.memory.now.words.kept)
            ≡ take len (drop from memory.now.words.kept) }
    {
        View { memory, from, len }
    }
}

impl KeptWords for View<'_> {
    ghost kept_words = { λ v. take v.len (drop v.from v.memory.now.words.kept) };

    fn size(&self) -> usize {
        self.len
    }

    fn kept(&self, word: usize) -> u64 {
        self.memory.kept(self.from + word)
    }
}
