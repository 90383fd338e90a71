//! Whether records that are not used are blank.

ghost use Rattle.std.specs.Prelude.{◌≡◌, ℕ, ◌≤◌, ◌↔◌, IsTrue};
ghost use Rattle.arena.specs.Place.{IsRecord, IsClient};
ghost use Rattle.arena.specs.Words.{bumps};
ghost use Rattle.words.specs.declared.call.Kind.TheVariants.{Durable, Log};
ghost use Rattle.sound_words.specs.Kept.{kept_of};
ghost use Rattle.sound_words.specs.Sound.{IsBlankRecordIn, IsBlankEntry, IsBlankIfUnusedIn, RecordsAreSoundIn};

use crate::kept::KeptQueue;
use arena::Place;
use persist::KeptWords;
use words::{Client, Kind, NodeId, Token};

impl<W: KeptWords> KeptQueue<'_, W> {
    /// Whether each client used no more records than it has.
    fn are_within(&self) -> bool
        ensures { IsTrue result
            ↔ ((t : ℕ) → IsClient self.now.shape t → bumps (kept_of self.now) t ≤ self.now.shape.records) }
    {
        let records = self.records() as u64;
        for t in 0..self.clients() {
            if self.kept_at(Place::Bump(Client(t as u8))) > records {
                return false;
            }
        }
        true
    }

    /// Whether every word of an entry, and the insert word of its node, is 0.
    fn is_blank_entry(&self, entry: Token) -> bool
        requires log { self.now.shape.kind ≡ Log }
        requires entry { IsRecord self.now.shape entry.0 }
        ensures { IsTrue result ↔ IsBlankEntry (kept_of self.now) entry.0 }
    {
        if self.kept_at(Place::Insert(NodeId(entry.0))) != 0 {
            return false;
        }
        if self.kept_at(Place::Number(entry)) != 0 {
            return false;
        }
        if self.kept_at(Place::EntryKind(entry)) != 0 {
            return false;
        }
        if self.kept_at(Place::Status(entry)) != 0 {
            return false;
        }
        self.kept_at(Place::EntryNode(entry)) == 0
    }

    /// Whether every word of a record and of its node is 0.
    fn is_blank(&self, number: u32) -> bool
        requires record_number { IsRecord self.now.shape number }
        ensures { IsTrue result ↔ IsBlankRecordIn self.now.form self.now.shape (kept_of self.now) number }
    {
        let node = NodeId(number);
        if !self.has_no_item(node) {
            return false;
        }
        if self.kept_at(Place::Next(node)) != 0 {
            return false;
        }
        if self.kept_at(Place::Mark(node)) != 0 {
            return false;
        }
        match self.kind() {
            Kind::Durable => self.kept_at(Place::Cell(Token(number))) == 0,
            Kind::Log => self.is_blank_entry(Token(number)),
        }
    }

    /// Whether the record is used or blank.
    fn is_blank_if_unused(&self, number: u32) -> bool
        requires record_number { IsRecord self.now.shape number }
        ensures { IsTrue result ↔ IsBlankIfUnusedIn self.now.form self.now.shape (kept_of self.now) number }
    {
        if self.is_issued(number as u64) {
            return true;
        }
        self.is_blank(number)
    }

    /// Whether no client used more records than it has, and those that are not used are blank.
    pub(crate) fn are_records_sound(&self) -> bool
        ensures { IsTrue result ↔ RecordsAreSoundIn self.now.form self.now.shape (kept_of self.now) }
    {
        if !self.are_within() {
            return false;
        }
        let greatest = self.clients() * self.records();
        for number in 1..greatest + 1 {
            if !self.is_blank_if_unused(number) {
                return false;
            }
        }
        true
    }
}
