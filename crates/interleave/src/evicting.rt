//! An eviction.

ghost use Rattle.std.specs.Prelude.{◌≡◌, ◌<◌};
ghost use Rattle.interleave.specs.Core.{state_of};
ghost use Rattle.interleave.specs.Holds.{Holds};
ghost use Rattle.interleave.specs.Rules.{evicting, IsByRuleOver};

use crate::lent::Core;
use persist::{Change, EvictableWords};
use words::Refusal;

impl Core {
    /// The environment keeps a word, by its number in the words that are lent. It is no access, takes no memory, and
    /// may make a call take effect. It is refused where there is no such word (NoWord).
    pub fn evict<M: EvictableWords>(
        &mut self,
        memory: &mut M,
        word: usize,
    ) -> Result<Option<Change>, Refusal>
        requires holds { Holds (state_of self.old (M.words memory.old)) }
        ensures by_rule { IsByRuleOver (evicting word) self.old (M.words memory.old) result
            self.new (M.words memory.new) }
        ensures room { self.new.trace.room ≡ self.old.trace.room }
        ensures holds { Holds (state_of self.new (M.words memory.new)) }
        ensures lent { M.lent memory.new ≡ M.lent memory.old }
    {
        let change = memory.evict(word)?;
        self.note_change(memory, change);
        Ok(change)
    }
}
