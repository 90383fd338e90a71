//! Whether the chain is sound, and where each node stands on it.

ghost use Rattle.std.specs.Prelude.{◌≡◌, ◌≢◌, ℕ, ◌<◌, ◌↔◌, length, slice_index, IsTrue};
ghost use Rattle.arena.specs.Place.{IsRecord};
ghost use Rattle.arena.specs.Shape.{greatest};
ghost use Rattle.sound_words.specs.Kept.{kept_of};
ghost use Rattle.sound_words.specs.Sound.{EachRecord, IsLooseIfOff, IsSentinelIn, ChainIsSoundIn};
ghost use Rattle.sound_words.specs.Order.{IsRun, IsOrder};

use crate::kept::KeptQueue;
use arena::Place;
use persist::KeptWords;
use words::{Kind, NodeId};

/// Whether the table has a place for the node. Past its end it has none.
pub(crate) fn has_place(place: &[u32], node: u64) -> bool
    ensures { IsTrue result ↔ slice_index place.now node ≢ 0 }
{
    node < place.len() as u64 && place[node as usize] != 0
}

impl<W: KeptWords> KeptQueue<'_, W> {
    /// Whether the chain ends and has nodes of used records. Notes where each node stands on it, from 1.
    fn follow(&self, place: &mut [u32]) -> bool
        requires table { greatest self.now.shape < length place.old }
        requires blank { (n : ℕ) → slice_index place.old n ≡ 0 }
        ensures run { IsTrue result ↔ IsRun self.now.shape (kept_of self.now) }
        ensures order { IsTrue result → IsOrder self.now.shape (kept_of self.now) (λ n. slice_index place.new n) }
    {
        let mut node = 0u32;
        let greatest = self.clients() * self.records();
        for i in 0..greatest {
            let next = self.kept_at(Place::Next(NodeId(node)));
            if next == 0 {
                return true;
            }
            if !self.is_issued(next) {
                return false;
            }
            if place[next as usize] != 0 {
                return false;
            }
            place[next as usize] = i + 1;
            node = next as u32;
        }
        self.kept_at(Place::Next(NodeId(node))) == 0
    }

    /// Whether every word of node 0 but its link is 0.
    fn is_sentinel(&self) -> bool
        ensures { IsTrue result ↔ IsSentinelIn self.now.form self.now.shape (kept_of self.now) }
    {
        if !self.has_no_item(NodeId(0)) {
            return false;
        }
        if self.kept_at(Place::Mark(NodeId(0))) != 0 {
            return false;
        }
        match self.kind() {
            Kind::Durable => true,
            Kind::Log => self.kept_at(Place::Insert(NodeId(0))) == 0,
        }
    }

    /// Whether the node is on the chain, or has no link and no mark.
    fn is_loose_if_off(&self, place: &[u32], node: u32) -> bool
        requires order { IsOrder self.now.shape (kept_of self.now) (λ n. slice_index place.now n) }
        requires node { IsRecord self.now.shape node }
        ensures { IsTrue result ↔ IsLooseIfOff self.now.shape (kept_of self.now) node }
    {
        if has_place(place, node as u64) {
            return true;
        }
        if self.kept_at(Place::Next(NodeId(node))) != 0 {
            return false;
        }
        self.kept_at(Place::Mark(NodeId(node))) == 0
    }

    /// Whether so it is of each node but node 0.
    fn are_loose(&self, place: &[u32]) -> bool
        requires order { IsOrder self.now.shape (kept_of self.now) (λ n. slice_index place.now n) }
        ensures { IsTrue result
            ↔ EachRecord self.now.shape (IsLooseIfOff self.now.shape (kept_of self.now)) }
    {
        let greatest = self.clients() * self.records();
        for node in 1..greatest + 1 {
            if !self.is_loose_if_off(place, node) {
                return false;
            }
        }
        true
    }

    /// Whether the chain is sound. Notes where each node stands on it, from 1.
    pub(crate) fn is_chain_sound(&self, place: &mut [u32]) -> bool
        requires table { greatest self.now.shape < length place.old }
        requires blank { (n : ℕ) → slice_index place.old n ≡ 0 }
        ensures sound { IsTrue result ↔ ChainIsSoundIn self.now.form self.now.shape (kept_of self.now) }
        ensures order { IsTrue result → IsOrder self.now.shape (kept_of self.now) (λ n. slice_index place.new n) }
    {
        if !self.follow(place) {
            return false;
        }
        if !self.is_sentinel() {
            return false;
        }
        self.are_loose(place)
    }
}
