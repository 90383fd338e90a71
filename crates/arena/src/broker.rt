//! The words of a broker: a head, a directory of its slots, and a block of words for the queue of each slot.

ghost use Rattle.std.specs.Prelude.{◌≡◌, ◌↔◌, ◌⊎◌, ℕ, ◌+◌, ◌<◌, ◌≤◌, IfOk, IfErr, IsOk, MatchOption, Err, Ok, Some};
ghost use Rattle.arena.specs.Shape.{shape_of};
ghost use Rattle.arena.specs.Limits.{AreBadRecords, AreCounts};
ghost use Rattle.arena.specs.Layout.{size_of};
ghost use Rattle.arena.specs.Broker.{block_from_in, block_size_in, broker_size_in, block_size_of, block_from, broker_size, broker_word, broker_place, directory_from, directory_place, IsBrokerPlace, block_len, IsPlaceOfWord};

use crate::form::Form;
use crate::layout::{Layout, MAX_LAYOUT_WORDS, check_counts};
use crate::values::block_size_of_values;
use std::marker::Model;
use words::{Kind, MAX_CLIENTS, MAX_RECORDS, Refusal};

/// How many slots a broker has, each for one queue.
pub const SLOTS: usize = 8;

/// How many words the head has, before the directory.
pub const HEAD_WORDS: usize = 2;

/// How many words the directory has for each slot.
pub const DIRECTORY_WORDS: usize = 4;

/// The word at which the first block begins: after the head and the directory.
pub const BLOCKS_FROM: usize = HEAD_WORDS + SLOTS * DIRECTORY_WORDS;

/// The most words of a broker's layout.
pub const MAX_BROKER_WORDS: usize = BLOCKS_FROM + SLOTS * MAX_LAYOUT_WORDS;

/// A slot of a broker, from 0 to 7.
#[derive(Clone, Copy, Debug, PartialEq, Eq, PartialOrd, Ord)]
pub struct SlotId(pub u8);

/// A place of a broker's layout: one word, by what it is for.
#[derive(Clone, Copy)]
pub enum BrokerPlace {
    /// How many clients each queue has. It never changes.
    Clients,
    /// How many records each client has in each queue. It never changes.
    Records,
    /// The first word of the name of the slot's queue.
    FirstName(SlotId),
    /// The second word of that name.
    SecondName(SlotId),
    /// The kind of the slot's queue: 1 durable, 2 log.
    QueueKind(SlotId),
    /// Whether the slot has a queue: 0 closed, 1 open.
    Gate(SlotId),
    /// A word of the slot's block, from 0.
    Block { slot: SlotId, word: usize },
}

/// The words of a broker whose queues all have as many clients, and as many records of each. The words of a slot's
/// block are the same whichever kind its queue is of.
#[derive(Clone, Copy, Debug)]
pub struct BrokerLayout {
    clients: u32,
    records: u32,
}

impl Model for BrokerLayout {
    ghost use Rattle.arena.specs.Shape.{Counts};
    ghost use Rattle.arena.specs.Limits.{AreCounts};

    ghost Value = { Counts };

    ghost view = { λ l. record { clients = l.clients; records = l.records } };

    ghost invariant = { λ l. AreCounts l.clients l.records };

    ghost inverse = { λ s. record { clients = s.clients; records = s.records } };
}

/// How many words a block has: as many as the longer of the two kinds of queue needs.
pub fn block_size(clients: u32, records: u32) -> usize
    requires { AreCounts clients records }
    ensures value { result ≡ block_size_of clients records }
    ensures some { 0 < result }
    ensures small { result ≤ MAX_LAYOUT_WORDS }
{
    9 + 2 * clients as usize + 11 * (clients as usize * records as usize)
}

/// One of the four words of a slot in the directory.
fn slot_place(slot: SlotId, field: usize) -> BrokerPlace
    ensures { result ≡ directory_place slot.0 field }
{
    match field {
        0 => BrokerPlace::FirstName(slot),
        1 => BrokerPlace::SecondName(slot),
        2 => BrokerPlace::QueueKind(slot),
        _ => BrokerPlace::Gate(slot),
    }
}

/// The first word of a slot in the directory.
fn slot_from(slot: SlotId) -> usize
    ensures { result ≡ directory_from slot.0 }
{
    HEAD_WORDS + DIRECTORY_WORDS * slot.0 as usize
}

impl BrokerLayout {
    /// A layout of queues for 1 to [`MAX_CLIENTS`] clients with 1 to [`MAX_RECORDS`] records each. It is
    /// refused, in this order, where the clients are none or more (BadClients), and where the records are (BadRecords).
    pub fn make(clients: u32, records: u32) -> Result<Self, Refusal>
        ensures ok { IsOk result ↔ AreCounts clients records }
        ensures made { IfOk result (λ l. l ≡ record { clients = clients; records = records }) }
        ensures bad_clients { result ≡ Err Refusal.BadClients ↔ ((clients ≡ 0) ⊎ (MAX_CLIENTS < clients)) }
        ensures bad_records { result ≡ Err Refusal.BadRecords ↔ AreBadRecords clients records }
        ensures errors { IfErr result (λ e. (e ≡ Refusal.BadClients) ⊎ (e ≡ Refusal.BadRecords)) }
    {
        check_counts(clients, records)?;
        Ok(BrokerLayout { clients, records })
    }

    /// How many words there are.
    pub fn size(&self) -> usize
        ensures value { result ≡ broker_size self.now }
        ensures small { result ≤ MAX_BROKER_WORDS }
    {
        BLOCKS_FROM + SLOTS * self.block_size()
    }

    /// How many words each block has.
    pub fn block_size(&self) -> usize
        ensures value { result ≡ block_len self.now }
        ensures some { 0 < result }
        ensures small { result ≤ MAX_LAYOUT_WORDS }
    {
        block_size(self.clients, self.records)
    }

    /// How many words there are in this form.
    pub fn size_in(&self, form: Form) -> usize
        ensures value { result ≡ broker_size_in form self.now }
        ensures small { result ≤ MAX_BROKER_WORDS }
    {
        BLOCKS_FROM + SLOTS * self.block_size_in(form)
    }

    /// How many words each block has in this form.
    pub fn block_size_in(&self, form: Form) -> usize
        ensures value { result ≡ block_size_in form self.now.clients self.now.records }
        ensures small { result ≤ MAX_LAYOUT_WORDS }
    {
        match form {
            Form::OfValues => block_size_of_values(self.clients, self.records),
            Form::OfItems => block_size(self.clients, self.records),
        }
    }

    /// The word at which a slot's block begins in this form.
    #[tactic(auto, using(crate::proofs::BrokerWords::block_ends))]
    pub fn block_in(&self, form: Form, slot: SlotId) -> usize
        requires { slot.0 < SLOTS }
        ensures from { result ≡ block_from_in form self.now slot.0 }
        ensures within { result + block_size_in form self.now.clients self.now.records ≤ broker_size_in form self.now }
    {
        BLOCKS_FROM + slot.0 as usize * self.block_size_in(form)
    }

    /// The word at which a slot's block begins.
    #[tactic(auto, using(crate::proofs::BrokerWords::block_ends))]
    pub fn block(&self, slot: SlotId) -> usize
        requires { slot.0 < SLOTS }
        ensures from { result ≡ block_from self.now slot.0 }
        ensures within { result + block_len self.now ≤ broker_size self.now }
        ensures small { result + block_len self.now ≤ MAX_BROKER_WORDS }
        ensures apart { (other : ℕ) → slot.0 < other → result + block_len self.now ≤ block_from self.now other }
    {
        BLOCKS_FROM + slot.0 as usize * self.block_size()
    }

    /// How many clients each queue has, from 1 to [`MAX_CLIENTS`].
    pub fn clients(&self) -> u32
        ensures value { result ≡ self.now.clients }
        ensures counts { AreCounts self.now.clients self.now.records }
    {
        self.clients
    }

    /// The layout of a queue of this kind in a block. It has room there.
    #[tactic(auto, using(crate::proofs::BrokerWords::queue_fits))]
    pub fn queue(&self, kind: Kind) -> Layout
        ensures layout { result ≡ shape_of kind self.now }
        ensures fits { size_of (shape_of kind self.now) ≤ block_len self.now }
    {
        Layout {
            kind,
            clients: self.clients,
            records: self.records,
        }
    }

    /// The word of a place.
    #[tactic(auto, using(crate::proofs::BrokerWords::broker_below, crate::proofs::BrokerWords::broker_own))]
    pub fn word(&self, place: BrokerPlace) -> usize
        requires { IsBrokerPlace self.now place }
        ensures word { result ≡ broker_word self.now place }
        ensures below { result < broker_size self.now }
        ensures own { broker_place self.now result ≡ Some place }
    {
        match place {
            BrokerPlace::Clients => 0,
            BrokerPlace::Records => 1,
            BrokerPlace::FirstName(slot) => slot_from(slot),
            BrokerPlace::SecondName(slot) => slot_from(slot) + 1,
            BrokerPlace::QueueKind(slot) => slot_from(slot) + 2,
            BrokerPlace::Gate(slot) => slot_from(slot) + 3,
            BrokerPlace::Block { slot, word } => self.block(slot) + word,
        }
    }

    /// The place of a word, where the word is below the size.
    #[tactic(auto, using(crate::proofs::BrokerWords::broker_named))]
    pub fn what_is(&self, word: usize) -> Option<BrokerPlace>
        ensures place { result ≡ broker_place self.now word }
        ensures named { MatchOption result (broker_size self.now ≤ word) (IsPlaceOfWord self.now word) }
    {
        if word == 0 {
            Some(BrokerPlace::Clients)
        } else if word == 1 {
            Some(BrokerPlace::Records)
        } else if word < BLOCKS_FROM {
            let slot = SlotId(((word - HEAD_WORDS) / DIRECTORY_WORDS) as u8);
            Some(slot_place(slot, (word - HEAD_WORDS) % DIRECTORY_WORDS))
        } else if word < self.size() {
            let block_size = self.block_size();
            let slot = SlotId(((word - BLOCKS_FROM) / block_size) as u8);
            let word = (word - BLOCKS_FROM) % block_size;
            Some(BrokerPlace::Block { slot, word })
        } else {
            None
        }
    }
}
