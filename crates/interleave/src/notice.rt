//! What takes effect when a kept word changes.

ghost use Rattle.std.specs.Prelude.{◌≡◌, ◌≤◌, length};
ghost use Rattle.std.specs.Option.{option_copied};
ghost use Rattle.arena.specs.Layout.{size_of};
ghost use Rattle.arena.specs.Place.{IsNode, IsPlace};
ghost use Rattle.arena.specs.Words.{values};
ghost use Rattle.interleave.specs.Core.{call_with_record, core_with_effects};
ghost use Rattle.interleave.specs.Effects.{AreInSequence};
ghost use Rattle.interleave.specs.Changes.{effects_by_change, effects_by_count, effects_by_keep, effects_by_take};
ghost use Rattle.interleave.specs.Ranges.{WordsFit};
ghost use Rattle.interleave.specs.Trace.{HaveRoom};
ghost use Rattle.interleave.specs.Values.{value_of_place};

use crate::lent::Core;
use arena::{EMPTY_CELL, EMPTY_STATUS, Layout, Part, Place, value_of};
use persist::{Change, EvictableWords, KeptWords};
use protocol::UnderWay;
use words::{NodeId, Reply, Value};

/// The kept value of a place. Looking at it is no access.
pub(crate) fn kept_at<K: KeptWords>(layout: &Layout, kept: &K, place: Place) -> u64
    requires place { IsPlace layout.now place }
    requires room { size_of layout.now ≤ length (K.kept_words kept.now) }
    ensures { result ≡ value_of_place layout.now (K.kept_words kept.now) place }
{
    let word = layout.word(place);
    kept.kept(word)
}

/// The kept message of a node.
pub(crate) fn kept_value<K: KeptWords>(layout: &Layout, kept: &K, node: NodeId) -> Value
    requires node { IsNode layout.now node.0 }
    requires room { size_of layout.now ≤ length (K.kept_words kept.now) }
    ensures { result ≡ values (value_of_place layout.now (K.kept_words kept.now)) node.0 }
{
    value_of([
        kept_at(layout, kept, Place::Item(node, Part::Length)),
        kept_at(layout, kept, Place::Item(node, Part::First)),
        kept_at(layout, kept, Place::Item(node, Part::Second)),
        kept_at(layout, kept, Place::Item(node, Part::Third)),
    ])
}

impl Core {
    /// The call whose record has this number, if it is under way.
    fn call_with(&self, number: u64) -> Option<&UnderWay>
        ensures { option_copied result ≡ call_with_record self.now number }
    {
        let owner = number.saturating_sub(1) / self.layout.records() as u64;
        self.calls.under_way(owner as usize)
    }

    /// The call with this record, if it is under way, takes effect with this reply.
    fn take_call(&mut self, number: u64, reply: Reply)
        requires room { HaveRoom self.old.trace.log (effects_by_take self.old number reply) }
        ensures { self.new ≡ core_with_effects self.old (effects_by_take self.old number reply) }
    {
        if let Some(under_way) = self.call_with(number) {
            let place = under_way.place;
            self.trace.take(place, reply);
        }
    }

    /// What the call with this record found counts.
    fn settle_call(&mut self, number: u64)
        requires sequence { AreInSequence self.old.trace.log.effects }
        ensures { self.new ≡ core_with_effects self.old (effects_by_count self.old number) }
    {
        if let Some(under_way) = self.call_with(number) {
            let place = under_way.place;
            self.trace.settle(place);
        }
    }

    /// The kept value of a place has become this: a call takes effect when its link or its claim is kept, and an empty
    /// dequeue counts when its answer is.
    fn notice<M: EvictableWords>(&mut self, memory: &M, place: Place, new: u64)
        requires place { IsPlace self.old.shape place }
        requires fit { WordsFit self.old.shape (M.words memory.now) }
        requires sequence { AreInSequence self.old.trace.log.effects }
        requires room { HaveRoom self.old.trace.log (effects_by_keep self.old (M.words memory.now) place new) }
        ensures { self.new ≡ core_with_effects self.old (effects_by_keep self.old (M.words memory.now) place new) }
    {
        match place {
            Place::Next(_) => self.take_call(new, Reply::Done),
            Place::Mark(node) => {
                let value = kept_value(&self.layout, memory, node);
                self.take_call(new, Reply::Got(value));
            }
            Place::Cell(token) => {
                if new == EMPTY_CELL {
                    self.settle_call(token.0 as u64);
                }
            }
            Place::Status(entry) => {
                if new == EMPTY_STATUS {
                    self.settle_call(entry.0 as u64);
                }
            }
            _ => {}
        }
    }

    /// What takes effect by a change of a kept word, if there was one: by a step's fence, or by an eviction.
    pub(crate) fn note_change<M: EvictableWords>(&mut self, memory: &M, change: Option<Change>)
        requires fit { WordsFit self.old.shape (M.words memory.now) }
        requires sequence { AreInSequence self.old.trace.log.effects }
        requires room { HaveRoom self.old.trace.log (effects_by_change self.old (M.words memory.now) change) }
        ensures { self.new ≡ core_with_effects self.old (effects_by_change self.old (M.words memory.now) change) }
    {
        let Some(change) = change else {
            return;
        };
        if let Some(place) = self.layout.what_is(change.word) {
            self.notice(memory, place, change.new);
        }
    }
}
