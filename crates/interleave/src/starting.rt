//! The start of a call.

ghost use Rattle.std.specs.Prelude.{◌≡◌, ◌≤◌, ◌<◌, ◌+◌, length, slice_get, slice_set, slice_index, Some, None, true, Ok, IfErr};
ghost use Rattle.persist.specs.Memory.{Load};
ghost use Rattle.arena.specs.Layout.{size_of, word_at};
ghost use Rattle.arena.specs.Place.{IsPlace};
ghost use Rattle.arena.specs.declared.place.Place.TheVariants.{Bump};
ghost use Rattle.stepper.specs.Step.{after_one};
ghost use Rattle.interleave.specs.Calls.{is_no_memory};
ghost use Rattle.interleave.specs.Core.{answer_to_start, call_begun_by, state_of, IsLeftByStart};
ghost use Rattle.interleave.specs.Holds.{Holds};
ghost use Rattle.interleave.specs.Rules.{IsByStartOver};
ghost use Rattle.interleave.specs.Trace.{AddsCall, AddsIssued};

use crate::calls::record_number;
use crate::lent::Core;
use arena::Place;
use helping::Op;
use persist::WordMemory;
use protocol::UnderWay;
use stepper::{Begun, load_at};
use words::{Call, Client, Refusal};

impl Core {
    /// Loads the client's bump word: how many records it used.
    fn load_bump<M: WordMemory>(&self, memory: &mut M, client: Client) -> u64
        requires place { IsPlace self.now.shape (Bump client) }
        requires room { size_of self.now.shape ≤ length (M.words memory.old).cached }
        ensures value { result ≡ slice_index (M.words memory.old).cached (word_at self.now.shape (Bump client)) }
        ensures one_access { M.words memory.new ≡ after_one self.now.shape (Load (Bump client)) (M.words memory.old) }
        ensures lent { M.lent memory.new ≡ M.lent memory.old }
    {
        load_at(&self.layout, memory, Place::Bump(client))
    }

    /// A client that is there begins a call, with this record.
    fn take_record(&mut self, begun: &Begun)
        requires client { begun.now.client.0 < length self.old.calls }
        requires room { 0 < self.old.trace.room }
        ensures shape { self.new.shape ≡ self.old.shape }
        ensures queue { self.new.queue ≡ self.old.queue }
        ensures calls { self.new.calls
            ≡ slice_set self.old.calls begun.now.client.0 (Some (call_begun_by self.old begun.now)) }
        ensures base { self.new.trace.base ≡ self.old.trace.base }
        ensures told { self.new.trace.told ≡ self.old.trace.told }
        ensures events { AddsCall begun.now self.old.trace self.new.trace }
        ensures issued { AddsIssued begun.now self.old.trace self.new.trace }
        ensures effects { self.new.trace.log.effects ≡ self.old.trace.log.effects }
        ensures recovery { self.new.trace.recovery ≡ self.old.trace.recovery }
        ensures room { self.old.trace.room ≤ self.new.trace.room + 1 }
    {
        let under_way = UnderWay {
            place: self.trace.moment(),
            begun: *begun,
            op: Op::begin(self.layout.kind(), *begun),
        };
        self.calls.begin(begun.client, under_way);
        self.trace.begin(begun);
    }

    /// Begins a call of a client that has none, with its next record. The load of the bump word comes first.
    fn begin<M: WordMemory>(
        &mut self,
        memory: &mut M,
        client: Client,
        number: u64,
        call: Call,
    ) -> Result<(), Refusal>
        requires holds { Holds (state_of self.old (M.words memory.old)) }
        requires ready { self.old.trace.recovery ≡ None }
        requires idle { slice_get self.old.calls client.0 ≡ Some None }
        ensures world { IsLeftByStart result client number call
            self.old (M.words memory.old) self.new (M.words memory.new) }
        ensures result { result ≡ answer_to_start result self.old (M.words memory.old) client number }
        ensures lent { M.lent memory.new ≡ M.lent memory.old }
        ensures full { is_no_memory result ≡ true → self.old.trace.room ≡ 0 }
        ensures room { self.old.trace.room ≤ self.new.trace.room + 1 }
        ensures spare { IfErr result (λ e. self.old.trace.room ≤ self.new.trace.room) }
    {
        let records = self.layout.records();
        let clients = self.layout.clients();
        let used = self.load_bump(memory, client);
        if used == records as u64 {
            return Err(Refusal::NoRoom);
        }
        self.reserve(1)?;
        let used = used as u32;
        let begun = Begun {
            client,
            used,
            token: record_number(clients, records, client, used),
            number,
            call,
        };
        self.take_record(&begun);
        Ok(())
    }

    /// Starts a call. It is refused, in this order, where there is no such client (NoClient), where recovery is under
    /// way (NotReady), where the client has a call under way (Busy), where a log queue finds its number stale
    /// (StaleNumber), where the client's records are used up (NoRoom), and for want of memory (NoMemory); the last two
    /// alone make an access. A durable queue ignores the number.
    pub fn start<M: WordMemory>(
        &mut self,
        memory: &mut M,
        client: Client,
        number: u64,
        call: Call,
    ) -> Result<(), Refusal>
        requires holds { Holds (state_of self.old (M.words memory.old)) }
        ensures by_rule { IsByStartOver client number call self.old (M.words memory.old) result
            self.new (M.words memory.new) }
        ensures lent { M.lent memory.new ≡ M.lent memory.old }
        ensures holds { Holds (state_of self.new (M.words memory.new)) }
    {
        self.calls.check_idle(self.trace.is_down(), client)?;
        let number = self.queue.number(client, number)?;
        self.begin(memory, client, number, call)
    }
}
