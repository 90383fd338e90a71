//! An eviction from the memory of a broker.

ghost use Rattle.std.specs.Prelude.{◌≡◌, ◌<◌, ℕ, None, MatchOption};
ghost use Rattle.persist.specs.Memory.{words_after_eviction};
ghost use Rattle.named.specs.Blocks.{IsSameWords};
ghost use Rattle.named.specs.Brokers.{room_at};
ghost use Rattle.named.specs.Evicting.{evict_result, AreWorldsEvicted, IsInBlockOf, IsInNoBlock};
ghost use Rattle.named.specs.GoingOn.{IsDowntime};
ghost use Rattle.named.specs.Lasting.{steps_left};
ghost use Rattle.named.specs.Promises.{KeepsPromises};

use crate::broker::Broker;
use arena::{BrokerLayout, BrokerPlace, SlotId};
use persist::{Change, EvictableWords};
use words::Refusal;

/// The slot whose block a word is in, if it is in one.
fn block_of(layout: &BrokerLayout, word: usize) -> Option<SlotId>
    ensures { MatchOption result (IsInNoBlock layout.now word) (λ slot. IsInBlockOf layout.now slot.0 word) }
{
    match layout.what_is(word)? {
        BrokerPlace::Block { slot, .. } => Some(slot),
        BrokerPlace::Clients | BrokerPlace::Records => None,
        BrokerPlace::FirstName(_) | BrokerPlace::SecondName(_) => None,
        BrokerPlace::QueueKind(_) | BrokerPlace::Gate(_) => None,
    }
}

impl Broker {
    /// The environment keeps a word, by its number in the whole memory, also while recovery is under way. It is no
    /// access, takes no memory, and may make a call take effect where the word is one of an open queue's. It is refused
    /// where there is no such word (NoWord).
    pub fn evict(&mut self, word: usize) -> Result<Option<Change>, Refusal>
        ensures result { result ≡ evict_result self.old word }
        ensures words { IsSameWords (words_after_eviction word self.old.words) self.new.words }
        ensures worlds { AreWorldsEvicted self.old self.new word }
        ensures same { self.new ≡ record self.old { words = self.new.words; slots = self.new.slots } }
        ensures room { (slot : ℕ) → room_at self.new slot ≡ room_at self.old slot }
        ensures left { steps_left self.new ≡ steps_left self.old }
        ensures downtime { IsDowntime self.old self.new }
        ensures promises { KeepsPromises self.new }
    {
        // A word of an open queue is evicted through its window, so that the queue notices what takes effect.
        match block_of(&self.layout, word) {
            Some(slot) => self.slots[slot.0 as usize].evict(&mut self.memory, word),
            None => self.memory.evict(word),
        }
    }
}
