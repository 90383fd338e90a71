//! Whether claims are sound, and what each token claims; and whether the head and the tail are.

ghost use Rattle.std.specs.Prelude.{◌≡◌, ℕ, ◌<◌, ◌↔◌, length, slice_index, IsTrue};
ghost use Rattle.arena.specs.Place.{IsNode, IsRecord};
ghost use Rattle.arena.specs.Shape.{greatest};
ghost use Rattle.arena.specs.Words.{HoldsIn};
ghost use Rattle.sound_words.specs.Kept.{kept_of};
ghost use Rattle.sound_words.specs.Sound.{ChainIsSoundIn, EachRecord, ClaimsAreSoundIn, EndsAreSound, HeadIsSound, TailIsSound};
ghost use Rattle.sound_words.specs.Order.{IsOrder, AreClaims, IsClaimTable, IsInTurn};

use crate::chain::has_place;
use crate::kept::KeptQueue;
use arena::Place;
use persist::KeptWords;
use words::NodeId;

impl<W: KeptWords> KeptQueue<'_, W> {
    /// Whether the words of each message are an item's.
    fn are_in_range(&self) -> bool
        ensures { IsTrue result ↔ ((n : ℕ) → IsNode self.now.shape n
            → HoldsIn self.now.form (kept_of self.now) n) }
    {
        let greatest = self.clients() * self.records();
        for node in 0..greatest + 1 {
            if !self.holds_item(NodeId(node)) {
                return false;
            }
        }
        true
    }

    /// Whether claims are of used records, each by its own. Notes what each token claims.
    fn note_claims(&self, claimed: &mut [u32]) -> bool
        requires chain { ChainIsSoundIn self.now.form self.now.shape (kept_of self.now) }
        requires table { greatest self.now.shape < length claimed.old }
        requires blank { (n : ℕ) → slice_index claimed.old n ≡ 0 }
        ensures claims { IsTrue result ↔ AreClaims self.now.shape (kept_of self.now) }
        ensures noted { IsTrue result
            → IsClaimTable self.now.shape (kept_of self.now) (λ n. slice_index claimed.new n) }
    {
        let greatest = self.clients() * self.records();
        for node in 1..greatest + 1 {
            let mark = self.kept_at(Place::Mark(NodeId(node)));
            if mark == 0 {
                continue;
            }
            if !self.is_issued(mark) {
                return false;
            }
            if claimed[mark as usize] != 0 {
                return false;
            }
            claimed[mark as usize] = node;
        }
        true
    }

    /// Whether the node is claimed, or is followed by no claimed one.
    fn is_in_turn(&self, node: u32) -> bool
        requires chain { ChainIsSoundIn self.now.form self.now.shape (kept_of self.now) }
        requires node { IsRecord self.now.shape node }
        ensures { IsTrue result ↔ IsInTurn self.now.shape (kept_of self.now) node }
    {
        if self.kept_at(Place::Mark(NodeId(node))) != 0 {
            return true;
        }
        let next = self.kept_at(Place::Next(NodeId(node)));
        if next == 0 {
            return true;
        }
        self.kept_at(Place::Mark(NodeId(next as u32))) == 0
    }

    /// Whether so it is of each node but node 0.
    fn are_in_turn(&self) -> bool
        requires chain { ChainIsSoundIn self.now.form self.now.shape (kept_of self.now) }
        ensures { IsTrue result ↔ EachRecord self.now.shape (IsInTurn self.now.shape (kept_of self.now)) }
    {
        let greatest = self.clients() * self.records();
        for node in 1..greatest + 1 {
            if !self.is_in_turn(node) {
                return false;
            }
        }
        true
    }

    /// Whether claims are sound. Notes what each token claims.
    pub(crate) fn are_claims_sound(&self, claimed: &mut [u32]) -> bool
        requires chain { ChainIsSoundIn self.now.form self.now.shape (kept_of self.now) }
        requires table { greatest self.now.shape < length claimed.old }
        requires blank { (n : ℕ) → slice_index claimed.old n ≡ 0 }
        ensures sound { IsTrue result ↔ ClaimsAreSoundIn self.now.form self.now.shape (kept_of self.now) }
        ensures noted { IsTrue result
            → IsClaimTable self.now.shape (kept_of self.now) (λ n. slice_index claimed.new n) }
    {
        if !self.are_in_range() {
            return false;
        }
        if !self.are_in_turn() {
            return false;
        }
        self.note_claims(claimed)
    }

    /// Whether the head is at the sentinel or at a claimed node.
    fn is_head_sound(&self, place: &[u32]) -> bool
        requires chain { ChainIsSoundIn self.now.form self.now.shape (kept_of self.now) }
        requires order { IsOrder self.now.shape (kept_of self.now) (λ n. slice_index place.now n) }
        ensures { IsTrue result ↔ HeadIsSound self.now.shape (kept_of self.now) }
    {
        let head = self.kept_at(Place::Head);
        if head == 0 {
            return true;
        }
        if !has_place(place, head) {
            return false;
        }
        self.kept_at(Place::Mark(NodeId(head as u32))) != 0
    }

    /// Whether the tail is at the sentinel or on the chain.
    fn is_tail_sound(&self, place: &[u32]) -> bool
        requires order { IsOrder self.now.shape (kept_of self.now) (λ n. slice_index place.now n) }
        ensures { IsTrue result ↔ TailIsSound self.now.shape (kept_of self.now) }
    {
        let tail = self.kept_at(Place::Tail);
        if tail == 0 {
            return true;
        }
        has_place(place, tail)
    }

    /// Whether the head and the tail are sound.
    pub(crate) fn are_ends_sound(&self, place: &[u32]) -> bool
        requires chain { ChainIsSoundIn self.now.form self.now.shape (kept_of self.now) }
        requires order { IsOrder self.now.shape (kept_of self.now) (λ n. slice_index place.now n) }
        ensures { IsTrue result ↔ EndsAreSound self.now.shape (kept_of self.now) }
    {
        if !self.is_head_sound(place) {
            return false;
        }
        self.is_tail_sound(place)
    }
}
