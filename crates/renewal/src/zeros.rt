//! The runs of a fresh block's words that are 0 throughout, so that nothing needs to be worked out for these.

ghost use Rattle.std.specs.Prelude.{◌≡◌, ◌≤◌, ◌<◌, ◌+◌, ◌/◌, ℕ, IfOk, slice_index_or, false};
ghost use Rattle.arena.specs.Place.{IsClient};
ghost use Rattle.arena.specs.Shape.{greatest, record_of};
ghost use Rattle.renewal.specs.Words.{MayBeRenewed, word_renewed};
ghost use Rattle.renewal.specs.Zeros.{AreZeroRuns, answer_from, node_from, first_unused};

use crate::renewal::Renewal;
use arena::block_size;
use std::alloc::{AllocError, Global};
use words::{Client, Kind};

/// How many words a run has. A longer run leaves out more words at the ends of what is 0.
pub(crate) const RUN: usize = 64;

/// Whether the word's run is noted.
pub(crate) fn is_noted(runs: &[bool], word: usize) -> bool
    ensures { result ≡ slice_index_or runs.now (word / RUN) false }
{
    match runs.get(word / RUN) {
        Some(noted) => *noted,
        None => false,
    }
}

impl Renewal<'_> {
    /// Where the words of a node begin, or those of the nodes end.
    fn node_from(&self, node: usize) -> usize
        requires { node ≤ greatest self.now.shape + 1 }
        ensures { result ≡ node_from self.now.shape node }
    {
        let before = 2 + 2 * self.layout.clients() as usize;
        match self.layout.kind() {
            Kind::Durable => before + 6 * node,
            Kind::Log => before + 7 * node,
        }
    }

    /// Where the words of a record's cell or entry begin, or those of the records end.
    fn answer_from(&self, number: usize) -> usize
        requires some { 1 ≤ number }
        requires few { number ≤ greatest self.now.shape + 1 }
        ensures { result ≡ answer_from self.now.shape number }
    {
        let before = self.node_from(self.greatest() + 1);
        match self.layout.kind() {
            Kind::Durable => before + (number - 1),
            Kind::Log => before + 4 * (number - 1),
        }
    }

    /// The client's first record that is not used, or past its last one.
    fn first_unused(&self, client: Client) -> usize
        requires { IsClient self.now.shape client.0 }
        ensures record { result ≡ first_unused self.now client.0 }
        ensures some { 1 ≤ result }
        ensures few { result ≤ greatest self.now.shape + 1 }
    {
        (self.first_record(client) as u64 + self.used(client)) as usize
    }

    /// Past the client's last record.
    fn past_records(&self, client: Client) -> usize
        requires { IsClient self.now.shape client.0 }
        ensures record { result ≡ record_of self.now.shape client.0 self.now.shape.records }
        ensures some { 1 ≤ result }
        ensures few { result ≤ greatest self.now.shape + 1 }
        ensures may { MayBeRenewed self.now }
    {
        (self.first_record(client) + self.layout.records()) as usize
    }

    /// Notes the runs that lie between these words, which are all 0.
    fn note(&self, from: usize, to: usize, runs: &mut Vec<bool>)
        requires zero { (w : ℕ) → from ≤ w → w < to → word_renewed self.now w ≡ 0 }
        requires runs { AreZeroRuns self.now runs.old.items }
        ensures { AreZeroRuns self.now runs.new.items }
    {
        for run in from / RUN + 1..to / RUN {
            if run < runs.len() {
                runs[run] = true;
            }
        }
    }

    /// Notes the runs of the records that the client does not use.
    fn note_unused(&self, client: Client, runs: &mut Vec<bool>)
        requires client { IsClient self.now.shape client.0 }
        requires runs { AreZeroRuns self.now runs.old.items }
        ensures { AreZeroRuns self.now runs.new.items }
    {
        let unused = self.first_unused(client);
        let past = self.past_records(client);
        self.note(self.node_from(unused), self.node_from(past), runs);
        self.note(self.answer_from(unused), self.answer_from(past), runs);
    }

    /// Of each run of the block's words whether it is noted to be 0 throughout.
    pub(crate) fn zero_runs(&self, alloc: Global) -> Result<Vec<bool>, AllocError>
        ensures { IfOk result (λ runs. AreZeroRuns self.now runs.items) }
    {
        let clients = self.layout.clients();
        let size = block_size(clients, self.layout.records());
        let mut runs = vec![in alloc; false; size / RUN]?;
        self.note(self.layout.size(), size, &mut runs);
        for client in 0..clients {
            self.note_unused(Client(client as u8), &mut runs);
        }
        Ok(runs)
    }
}
