//! Whether the logs and entries of a log queue are sound.

ghost use Rattle.std.specs.Prelude.{◌≡◌, ℕ, ◌<◌, ◌↔◌, IsTrue};
ghost use Rattle.arena.specs.Place.{IsRecord, IsClient};
ghost use Rattle.arena.specs.Shape.{greatest};
ghost use Rattle.words.specs.declared.call.Kind.TheVariants.{Log};
ghost use Rattle.sound_words.specs.Kept.{kept_of};
ghost use Rattle.sound_words.specs.Sound.{ChainIsSoundIn, EachRecord, ClaimsAreSoundIn, EndsAreSound, EntriesAreSound, LogIsSound, IsAnnounced, IsOwn, IsOfSomeCall, StatusIsSound, RemovedIsSound};
ghost use Rattle.sound_words.specs.Order.{IsPlaceTable, IsTokenTable, IsInsertedIfOn, EntryTells, ClaimIsToldInEntry};

use crate::chain::has_place;
use crate::kept::KeptQueue;
use arena::{DEQUEUE_KIND, EMPTY_STATUS, ENQUEUE_KIND, Place, TAKEN_STATUS};
use persist::KeptWords;
use words::{Client, MAX_CALL_NUMBER, NodeId, Token};

impl<W: KeptWords> KeptQueue<'_, W> {
    /// Whether the node is off the chain or inserted by its entry.
    fn is_inserted_if_on(&self, place: &[u32], node: u32) -> bool
        requires log { self.now.shape.kind ≡ Log }
        requires places { IsPlaceTable self.now.shape (kept_of self.now) place.now }
        requires node { IsRecord self.now.shape node }
        ensures { IsTrue result ↔ IsInsertedIfOn self.now.shape (kept_of self.now) node }
    {
        if !has_place(place, node as u64) {
            return true;
        }
        if self.kept_at(Place::Insert(NodeId(node))) != node as u64 {
            return false;
        }
        self.kept_at(Place::EntryKind(Token(node))) == ENQUEUE_KIND
    }

    /// Whether so it is of each node but node 0.
    fn are_inserted(&self, place: &[u32]) -> bool
        requires log { self.now.shape.kind ≡ Log }
        requires places { IsPlaceTable self.now.shape (kept_of self.now) place.now }
        ensures { IsTrue result
            ↔ EachRecord self.now.shape (IsInsertedIfOn self.now.shape (kept_of self.now)) }
    {
        let greatest = self.clients() * self.records();
        for node in 1..greatest + 1 {
            if !self.is_inserted_if_on(place, node) {
                return false;
            }
        }
        true
    }

    /// Whether an entry is of an enqueue whose node it names, or of a dequeue.
    fn is_of_some_call(&self, entry: Token) -> bool
        requires log { self.now.shape.kind ≡ Log }
        requires entry { IsRecord self.now.shape entry.0 }
        ensures { IsTrue result ↔ IsOfSomeCall (kept_of self.now) entry.0 }
    {
        match self.kept_at(Place::EntryKind(entry)) {
            ENQUEUE_KIND => self.kept_at(Place::EntryNode(entry)) == entry.0 as u64,
            DEQUEUE_KIND => true,
            _ => false,
        }
    }

    /// Whether an entry of the client is one that it may have announced.
    fn is_announced(&self, client: Client, entry: Token) -> bool
        requires log { self.now.shape.kind ≡ Log }
        requires own { IsOwn self.now.shape (kept_of self.now) client.0 entry.0 }
        ensures { IsTrue result ↔ IsAnnounced self.now.shape (kept_of self.now) client.0 entry.0 }
    {
        let _client = client;
        let number = self.kept_at(Place::Number(entry));
        if number == 0 || number > MAX_CALL_NUMBER {
            return false;
        }
        self.is_of_some_call(entry)
    }

    /// Whether the log is empty or names such an entry of the client.
    fn is_log_sound(&self, client: Client) -> bool
        requires log { self.now.shape.kind ≡ Log }
        requires client { IsClient self.now.shape client.0 }
        ensures { IsTrue result ↔ LogIsSound self.now.shape (kept_of self.now) client.0 }
    {
        let entry = self.kept_at(Place::Announcement(client));
        if entry == 0 {
            return true;
        }
        if !self.is_own(client, entry) {
            return false;
        }
        self.is_announced(client, Token(entry as u32))
    }

    /// Whether so it is of each client.
    fn are_logs_sound(&self) -> bool
        requires log { self.now.shape.kind ≡ Log }
        ensures { IsTrue result
            ↔ ((t : ℕ) → IsClient self.now.shape t → LogIsSound self.now.shape (kept_of self.now) t) }
    {
        for t in 0..self.clients() {
            if !self.is_log_sound(Client(t as u8)) {
                return false;
            }
        }
        true
    }

    /// Whether an entry's status is right: 1 where its node is on the chain, 2 where it claims nothing.
    fn is_status_sound(&self, place: &[u32], claimed: &[u32], entry: u32) -> bool
        requires log { self.now.shape.kind ≡ Log }
        requires chain { ChainIsSoundIn self.now.form self.now.shape (kept_of self.now) }
        requires places { IsPlaceTable self.now.shape (kept_of self.now) place.now }
        requires tokens { IsTokenTable self.now.shape (kept_of self.now) claimed.now }
        requires entry { IsRecord self.now.shape entry }
        ensures { IsTrue result ↔ StatusIsSound self.now.shape (kept_of self.now) entry }
    {
        let kind = self.kept_at(Place::EntryKind(Token(entry)));
        let status = self.kept_at(Place::Status(Token(entry)));
        if status == 0 {
            return true;
        }
        if status != kind {
            return false;
        }
        match status {
            TAKEN_STATUS => has_place(place, entry as u64),
            EMPTY_STATUS => claimed[entry as usize] == 0,
            _ => false,
        }
    }

    /// Whether the node word of a dequeue's entry is 0 or a node that it claims.
    fn is_removed_sound(&self, claimed: &[u32], entry: u32) -> bool
        requires log { self.now.shape.kind ≡ Log }
        requires tokens { IsTokenTable self.now.shape (kept_of self.now) claimed.now }
        requires entry { IsRecord self.now.shape entry }
        ensures { IsTrue result ↔ RemovedIsSound self.now.shape (kept_of self.now) entry }
    {
        let node = self.kept_at(Place::EntryNode(Token(entry)));
        if node == 0 {
            return true;
        }
        claimed[entry as usize] as u64 == node
    }

    /// Whether an entry's kind, status and node word are right.
    fn is_entry_sound(&self, place: &[u32], claimed: &[u32], entry: u32) -> bool
        requires log { self.now.shape.kind ≡ Log }
        requires chain { ChainIsSoundIn self.now.form self.now.shape (kept_of self.now) }
        requires places { IsPlaceTable self.now.shape (kept_of self.now) place.now }
        requires tokens { IsTokenTable self.now.shape (kept_of self.now) claimed.now }
        requires entry { IsRecord self.now.shape entry }
        ensures { IsTrue result ↔ EntryTells self.now.shape (kept_of self.now) entry }
    {
        let kind = self.kept_at(Place::EntryKind(Token(entry)));
        if kind > 2 {
            return false;
        }
        if !self.is_status_sound(place, claimed, entry) {
            return false;
        }
        if kind != DEQUEUE_KIND {
            return true;
        }
        self.is_removed_sound(claimed, entry)
    }

    /// Whether so it is of each entry.
    fn are_entries_right(&self, place: &[u32], claimed: &[u32]) -> bool
        requires log { self.now.shape.kind ≡ Log }
        requires chain { ChainIsSoundIn self.now.form self.now.shape (kept_of self.now) }
        requires places { IsPlaceTable self.now.shape (kept_of self.now) place.now }
        requires tokens { IsTokenTable self.now.shape (kept_of self.now) claimed.now }
        ensures { IsTrue result
            ↔ EachRecord self.now.shape (EntryTells self.now.shape (kept_of self.now)) }
    {
        let greatest = self.clients() * self.records();
        for entry in 1..greatest + 1 {
            if !self.is_entry_sound(place, claimed, entry) {
                return false;
            }
        }
        true
    }

    /// Whether the node is unclaimed, or its claim is a dequeue's and, once the head has passed the node, tells of one.
    fn is_removal_told(&self, place: &[u32], node: u32) -> bool
        requires log { self.now.shape.kind ≡ Log }
        requires chain { ChainIsSoundIn self.now.form self.now.shape (kept_of self.now) }
        requires claims { ClaimsAreSoundIn self.now.form self.now.shape (kept_of self.now) }
        requires places { IsPlaceTable self.now.shape (kept_of self.now) place.now }
        requires ends { EndsAreSound self.now.shape (kept_of self.now) }
        requires node { IsRecord self.now.shape node }
        ensures { IsTrue result ↔ ClaimIsToldInEntry self.now.shape (kept_of self.now) node }
    {
        let mark = self.kept_at(Place::Mark(NodeId(node)));
        if mark == 0 {
            return true;
        }
        let entry = Token(mark as u32);
        if self.kept_at(Place::EntryKind(entry)) != DEQUEUE_KIND {
            return false;
        }
        if self.kept_at(Place::EntryNode(entry)) != 0 {
            return true;
        }
        !self.is_passed(place, node)
    }

    /// Whether so it is of each node but node 0.
    fn are_removals_told(&self, place: &[u32]) -> bool
        requires log { self.now.shape.kind ≡ Log }
        requires chain { ChainIsSoundIn self.now.form self.now.shape (kept_of self.now) }
        requires claims { ClaimsAreSoundIn self.now.form self.now.shape (kept_of self.now) }
        requires places { IsPlaceTable self.now.shape (kept_of self.now) place.now }
        requires ends { EndsAreSound self.now.shape (kept_of self.now) }
        ensures { IsTrue result
            ↔ EachRecord self.now.shape (ClaimIsToldInEntry self.now.shape (kept_of self.now)) }
    {
        let greatest = self.clients() * self.records();
        for node in 1..greatest + 1 {
            if !self.is_removal_told(place, node) {
                return false;
            }
        }
        true
    }

    /// Whether the logs and entries of a log queue are sound.
    pub(crate) fn are_entries_sound(&self, place: &[u32], claimed: &[u32]) -> bool
        requires log { self.now.shape.kind ≡ Log }
        requires chain { ChainIsSoundIn self.now.form self.now.shape (kept_of self.now) }
        requires claims { ClaimsAreSoundIn self.now.form self.now.shape (kept_of self.now) }
        requires places { IsPlaceTable self.now.shape (kept_of self.now) place.now }
        requires tokens { IsTokenTable self.now.shape (kept_of self.now) claimed.now }
        requires ends { EndsAreSound self.now.shape (kept_of self.now) }
        ensures { IsTrue result ↔ EntriesAreSound self.now.shape (kept_of self.now) }
    {
        if !self.are_inserted(place) {
            return false;
        }
        if !self.are_logs_sound() {
            return false;
        }
        if !self.are_entries_right(place, claimed) {
            return false;
        }
        self.are_removals_told(place)
    }
}
