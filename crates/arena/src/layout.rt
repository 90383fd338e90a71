//! The layout of a queue: which word is whose.

ghost use Rattle.std.specs.Prelude.{◌≡◌, ◌↔◌, ◌⊎◌, ◌<◌, ◌≤◌, IfOk, IfErr, IsOk, Err};
ghost use Rattle.arena.specs.Answers.{empty_answer_of, result_of};
ghost use Rattle.arena.specs.Layout.{word_at, place_at, size_of};
ghost use Rattle.arena.specs.Limits.{AreBadRecords, AreCounts};
ghost use Rattle.arena.specs.Place.{IsPlace};
ghost use Rattle.arena.specs.Shape.{greatest};

use crate::codes::{EMPTY_CELL, EMPTY_STATUS, GOT_CELL};
use crate::place::{Place, Write};
use crate::{durable, log};
use std::marker::Model;
use words::{Kind, MAX_CLIENTS, MAX_RECORD_NUMBER, MAX_RECORDS, NodeId, Refusal, Token};

/// The most words of a queue's layout: those of a log queue with the most clients and the most records.
pub const MAX_LAYOUT_WORDS: usize = 720_937;

/// Which word of a queue's memory is whose, by its kind, its clients and the records of each. Each place has a word of
/// its own below the size, and each word below the size is some place's.
#[derive(Clone, Copy, Debug)]
pub struct Layout {
    pub(crate) kind: Kind,
    pub(crate) clients: u32,
    pub(crate) records: u32,
}

impl Model for Layout {
    ghost use Rattle.arena.specs.Shape.{Shape};
    ghost use Rattle.arena.specs.Limits.{AreCounts};

    ghost Value = { Shape };

    ghost view = { λ l. record { kind = l.kind; clients = l.clients; records = l.records } };

    ghost invariant = { λ l. AreCounts l.clients l.records };

    ghost inverse = { λ s. record { kind = s.kind; clients = s.clients; records = s.records } };
}

/// Whether a queue may have so many clients and records.
pub(crate) fn check_counts(clients: u32, records: u32) -> Result<(), Refusal>
    ensures ok { IsOk result ↔ AreCounts clients records }
    ensures bad_clients { result ≡ Err Refusal.BadClients ↔ ((clients ≡ 0) ⊎ (MAX_CLIENTS < clients)) }
    ensures bad_records { result ≡ Err Refusal.BadRecords ↔ AreBadRecords clients records }
    ensures errors { IfErr result (λ e. (e ≡ Refusal.BadClients) ⊎ (e ≡ Refusal.BadRecords)) }
{
    if clients == 0 || clients > MAX_CLIENTS as u32 {
        return Err(Refusal::BadClients);
    }
    if records == 0 || records > MAX_RECORDS {
        return Err(Refusal::BadRecords);
    }
    Ok(())
}

impl Layout {
    /// A layout of a queue of this kind for 1 to [`MAX_CLIENTS`] clients with 1 to [`MAX_RECORDS`] records each. It is
    /// refused, in this order, where the clients are none or more (BadClients), and where the records are (BadRecords).
    pub fn make(kind: Kind, clients: u32, records: u32) -> Result<Self, Refusal>
        ensures ok { IsOk result ↔ AreCounts clients records }
        ensures made { IfOk result (λ l. l ≡ record { kind = kind; clients = clients; records = records }) }
        ensures bad_clients { result ≡ Err Refusal.BadClients ↔ ((clients ≡ 0) ⊎ (MAX_CLIENTS < clients)) }
        ensures bad_records { result ≡ Err Refusal.BadRecords ↔ AreBadRecords clients records }
        ensures errors { IfErr result (λ e. (e ≡ Refusal.BadClients) ⊎ (e ≡ Refusal.BadRecords)) }
    {
        check_counts(clients, records)?;
        Ok(Layout {
            kind,
            clients,
            records,
        })
    }

    pub fn kind(&self) -> Kind
        ensures { result ≡ self.now.kind }
    {
        self.kind
    }

    /// How many clients there are, from 1 to [`MAX_CLIENTS`].
    pub fn clients(&self) -> u32
        ensures value { result ≡ self.now.clients }
        ensures counts { AreCounts self.now.clients self.now.records }
    {
        self.clients
    }

    /// How many records each client has, from 1 to [`MAX_RECORDS`].
    pub fn records(&self) -> u32
        ensures value { result ≡ self.now.records }
        ensures counts { AreCounts self.now.clients self.now.records }
    {
        self.records
    }

    /// The greatest number of a node, and of a record.
    pub(crate) fn greatest(&self) -> usize
        ensures value { result ≡ greatest self.now }
        ensures small { result ≤ MAX_RECORD_NUMBER }
        ensures counts { AreCounts self.now.clients self.now.records }
    {
        self.clients as usize * self.records as usize
    }

    /// How many words there are.
    #[tactic(auto, unfolding(crate::specs::Layout::size_in))]
    pub fn size(&self) -> usize
        ensures value { result ≡ size_of self.now }
        ensures some { 0 < result }
        ensures small { result ≤ MAX_LAYOUT_WORDS }
    {
        let clients = self.clients as usize;
        match self.kind {
            Kind::Durable => 8 + 2 * clients + 7 * self.greatest(),
            Kind::Log => 9 + 2 * clients + 11 * self.greatest(),
        }
    }

    /// The word of a place.
    // Part of its caller, as `what_is` is: each act asks where its place lies.
    #[inline(always)]
    #[tactic(auto, unfolding(crate::specs::Layout::word_in, crate::specs::Layout::size_in))]
    pub fn word(&self, place: Place) -> usize
        requires { IsPlace self.now place }
        ensures word { result ≡ word_at self.now place }
        ensures below { result < size_of self.now }
        ensures few { greatest self.now ≤ MAX_RECORD_NUMBER }
    {
        match self.kind {
            Kind::Durable => durable::word(self, place),
            Kind::Log => log::word(self, place),
        }
    }

    /// The place of a word, where the word is below the size.
    #[inline(always)]
    #[tactic(auto, unfolding(crate::specs::Layout::place_in))]
    pub fn what_is(&self, word: usize) -> Option<Place>
        ensures { result ≡ place_at self.now word }
    {
        match self.kind {
            Kind::Durable => durable::what_is(self, word),
            Kind::Log => log::what_is(self, word),
        }
    }

    /// Where a dequeue that found the queue empty says so.
    pub fn empty_answer(&self, token: Token) -> Write
        ensures { result ≡ empty_answer_of self.now.kind token }
    {
        match self.kind {
            Kind::Durable => Write {
                place: Place::Cell(token),
                value: EMPTY_CELL,
            },
            Kind::Log => Write {
                place: Place::Status(token),
                value: EMPTY_STATUS,
            },
        }
    }

    /// Where the result of a dequeue is written that claimed a node.
    pub fn result(&self, token: Token, node: NodeId) -> Write
        ensures { result ≡ result_of self.now.kind token node }
    {
        match self.kind {
            Kind::Durable => Write {
                place: Place::Cell(token),
                value: node.0 as u64 + GOT_CELL,
            },
            Kind::Log => Write {
                place: Place::EntryNode(token),
                value: node.0 as u64,
            },
        }
    }
}
