//! Whether the rows and cells of a durable queue are sound.

ghost use Rattle.std.specs.Prelude.{◌≡◌, ◌≢◌, ℕ, ◌<◌, ◌↔◌, slice_index, IsTrue};
ghost use Rattle.arena.specs.Place.{IsNode, IsRecord, IsClient};
ghost use Rattle.arena.specs.Shape.{greatest};
ghost use Rattle.arena.specs.Words.{links};
ghost use Rattle.arena.specs.Chain.{LeadsTo};
ghost use Rattle.arena.specs.declared.place.Place.TheVariants.{Head};
ghost use Rattle.words.specs.declared.call.Kind.TheVariants.{Durable};
ghost use Rattle.sound_words.specs.Kept.{kept_of};
ghost use Rattle.sound_words.specs.Sound.{ChainIsSoundIn, EachRecord, ClaimsAreSoundIn, EndsAreSound, RowsAreSoundIn, RowIsSound, IsOwn, named_in};
ghost use Rattle.sound_words.specs.Order.{IsPlaceTable, IsTokenTable, CellTellsIn, ClaimIsToldInCell};

use crate::kept::KeptQueue;
use arena::{EMPTY_CELL, Form, GOT_CELL, Place};
use persist::KeptWords;
use words::{Client, NodeId, Token};

impl<W: KeptWords> KeptQueue<'_, W> {
    /// Whether the client used the record with this number.
    pub(crate) fn is_own(&self, client: Client, number: u64) -> bool
        ensures { IsTrue result ↔ IsOwn self.now.shape (kept_of self.now) client.0 number }
    {
        if !self.is_issued(number) {
            return false;
        }
        (number - 1) / self.records() as u64 == client.0 as u64
    }

    /// Whether the head is at this node of the chain, or after it.
    pub(crate) fn is_passed(&self, place: &[u32], node: u32) -> bool
        requires chain { ChainIsSoundIn self.now.form self.now.shape (kept_of self.now) }
        requires places { IsPlaceTable self.now.shape (kept_of self.now) place.now }
        requires ends { EndsAreSound self.now.shape (kept_of self.now) }
        requires node { slice_index place.now node ≢ 0 }
        ensures { IsTrue result ↔ LeadsTo (links (kept_of self.now)) (kept_of self.now Head) node }
    {
        let head = self.kept_at(Place::Head);
        place[node as usize] <= place[head as usize]
    }

    /// Whether the row is empty or names a cell of the client.
    fn is_row_sound(&self, client: Client) -> bool
        requires client { IsClient self.now.shape client.0 }
        ensures { IsTrue result ↔ RowIsSound self.now.shape (kept_of self.now) client.0 }
    {
        let cell = self.kept_at(Place::Announcement(client));
        if cell == 0 {
            return true;
        }
        self.is_own(client, cell)
    }

    /// Whether so it is of each client.
    fn are_rows_own(&self) -> bool
        ensures { IsTrue result
            ↔ ((t : ℕ) → IsClient self.now.shape t → RowIsSound self.now.shape (kept_of self.now) t) }
    {
        for t in 0..self.clients() {
            if !self.is_row_sound(Client(t as u8)) {
                return false;
            }
        }
        true
    }

    /// What a cell says past GOT_CELL of the node that it claims.
    fn named(&self, node: NodeId) -> u64
        requires { IsNode self.now.shape node.0 }
        ensures { result ≡ named_in self.now.form (kept_of self.now) node.0 }
    {
        match self.form() {
            Form::OfValues => self.kept_value_word(node),
            Form::OfItems => node.0 as u64,
        }
    }

    /// Whether the cell names no node, or one that it claims.
    fn is_result_sound(&self, claimed: &[u32], cell: u32) -> bool
        requires durable { self.now.shape.kind ≡ Durable }
        requires chain { ChainIsSoundIn self.now.form self.now.shape (kept_of self.now) }
        requires tokens { IsTokenTable self.now.shape (kept_of self.now) claimed.now }
        requires cell { IsRecord self.now.shape cell }
        ensures { IsTrue result ↔ CellTellsIn self.now.form self.now.shape (kept_of self.now) cell }
    {
        let answer = self.kept_at(Place::Cell(Token(cell)));
        if answer < GOT_CELL {
            return true;
        }
        let node = claimed[cell as usize];
        if node == 0 {
            return false;
        }
        self.named(NodeId(node)) == answer - GOT_CELL
    }

    /// Whether so it is of each cell.
    fn are_results_sound(&self, claimed: &[u32]) -> bool
        requires durable { self.now.shape.kind ≡ Durable }
        requires chain { ChainIsSoundIn self.now.form self.now.shape (kept_of self.now) }
        requires tokens { IsTokenTable self.now.shape (kept_of self.now) claimed.now }
        ensures { IsTrue result
            ↔ EachRecord self.now.shape (CellTellsIn self.now.form self.now.shape (kept_of self.now)) }
    {
        let greatest = self.clients() * self.records();
        for cell in 1..greatest + 1 {
            if !self.is_result_sound(claimed, cell) {
                return false;
            }
        }
        true
    }

    /// Whether the node is unclaimed, or its claim's cell is not empty and, once the head has passed the node, not
    /// open.
    fn is_claim_told(&self, place: &[u32], node: u32) -> bool
        requires durable { self.now.shape.kind ≡ Durable }
        requires chain { ChainIsSoundIn self.now.form self.now.shape (kept_of self.now) }
        requires claims { ClaimsAreSoundIn self.now.form self.now.shape (kept_of self.now) }
        requires places { IsPlaceTable self.now.shape (kept_of self.now) place.now }
        requires ends { EndsAreSound self.now.shape (kept_of self.now) }
        requires node { IsRecord self.now.shape node }
        ensures { IsTrue result ↔ ClaimIsToldInCell self.now.shape (kept_of self.now) node }
    {
        let mark = self.kept_at(Place::Mark(NodeId(node)));
        if mark == 0 {
            return true;
        }
        match self.kept_at(Place::Cell(Token(mark as u32))) {
            0 => !self.is_passed(place, node),
            EMPTY_CELL => false,
            _ => true,
        }
    }

    /// Whether so it is of each node but node 0.
    fn are_claims_told(&self, place: &[u32]) -> bool
        requires durable { self.now.shape.kind ≡ Durable }
        requires chain { ChainIsSoundIn self.now.form self.now.shape (kept_of self.now) }
        requires claims { ClaimsAreSoundIn self.now.form self.now.shape (kept_of self.now) }
        requires places { IsPlaceTable self.now.shape (kept_of self.now) place.now }
        requires ends { EndsAreSound self.now.shape (kept_of self.now) }
        ensures { IsTrue result
            ↔ EachRecord self.now.shape (ClaimIsToldInCell self.now.shape (kept_of self.now)) }
    {
        let greatest = self.clients() * self.records();
        for node in 1..greatest + 1 {
            if !self.is_claim_told(place, node) {
                return false;
            }
        }
        true
    }

    /// Whether the rows and cells of a durable queue are sound.
    pub(crate) fn are_rows_sound(&self, place: &[u32], claimed: &[u32]) -> bool
        requires durable { self.now.shape.kind ≡ Durable }
        requires chain { ChainIsSoundIn self.now.form self.now.shape (kept_of self.now) }
        requires claims { ClaimsAreSoundIn self.now.form self.now.shape (kept_of self.now) }
        requires places { IsPlaceTable self.now.shape (kept_of self.now) place.now }
        requires tokens { IsTokenTable self.now.shape (kept_of self.now) claimed.now }
        requires ends { EndsAreSound self.now.shape (kept_of self.now) }
        ensures { IsTrue result ↔ RowsAreSoundIn self.now.form self.now.shape (kept_of self.now) }
    {
        if !self.are_rows_own() {
            return false;
        }
        if !self.are_results_sound(claimed) {
            return false;
        }
        self.are_claims_told(place)
    }
}
