//! One step of a call.

ghost use Rattle.std.specs.Prelude.{◌≡◌, ◌≤◌, ◌<◌, ◌+◌, length, slice_index_or, Err, None, Ok, IfErr, IfOk, IsSome};
ghost use Rattle.std.specs.Option.{option_copied};
ghost use Rattle.persist.specs.Noted.{answer_in, change_in, IsNoted};
ghost use Rattle.arena.specs.Layout.{size_of};
ghost use Rattle.stepper.specs.Step.{IsAskedFor};
ghost use Rattle.helping.specs.Table.{access_of, IsPoint};
ghost use Rattle.interleave.specs.Asked.{lent_by_noted_step, lent_once_stepped, IfCallAsked};
ghost use Rattle.interleave.specs.Calls.{answer_of, went_on_to_nothing, GoesOnTo, OfCall};
ghost use Rattle.interleave.specs.Core.{core_with_effects, state_of, waiting_of};
ghost use Rattle.interleave.specs.Effects.{AreInSequence};
ghost use Rattle.interleave.specs.Holds.{Holds};
ghost use Rattle.interleave.specs.Changes.{effects_by_step, looking};
ghost use Rattle.interleave.specs.Points.{change_by_op, found_by_op, lent_by_op, next_by_op, words_by_op, FindsInRange};
ghost use Rattle.interleave.specs.Ranges.{WordsFit, IsSafe};
ghost use Rattle.interleave.specs.Rules.{IsByStepOver};
ghost use Rattle.interleave.specs.Stepped.{HasRoomToStep, IsCallStep, IsLentByCall};
ghost use Rattle.interleave.specs.Trace.{AddsAnswer, HaveRoom};

use crate::lent::Core;
use helping::Op;
use persist::{EvictableWords, Noted, WordMemory};
use protocol::UnderWay;
use stepper::{After, Resume, Stepped};
use words::{Client, Refusal, Reply};

/// Whether a dequeue looked, and found no node to take.
fn found_nothing(after: &After<Op, Reply>) -> bool
    ensures { result ≡ went_on_to_nothing after.now }
{
    match after {
        After::More(op) => op.found_no_node(),
        After::Done(_) => false,
    }
}

/// The place of a call in the history, if its next step looks for a node.
fn looking(under_way: &UnderWay) -> Option<usize>
    ensures { result ≡ looking under_way.now }
{
    under_way.op.looks().then_some(under_way.place)
}

impl Core {
    /// The call that a client has under way. It is looked at where it stands: it is some 190 bytes, and each step looks.
    pub(crate) fn waiting(&self, client: Client) -> Result<&UnderWay, Refusal>
        ensures ok { IfOk result (λ call. waiting_of self.now client ≡ Ok call.now) }
        ensures errors { IfErr result (λ e. waiting_of self.now client ≡ Err e) }
    {
        self.calls.waiting(self.trace.is_down(), client)
    }

    /// The call that a client has under way, if it has one.
    fn call_of(&self, client: Client) -> Option<&UnderWay>
        ensures { option_copied result ≡ slice_index_or self.now.calls client.0 None }
    {
        self.calls.under_way(client.0 as usize)
    }

    /// The one access of a waiting point.
    fn step_at<M: WordMemory>(&self, memory: &mut M, op: Op) -> Stepped<Op, Reply>
        requires room { size_of self.now.shape ≤ length (M.words memory.old).cached }
        requires point { IsPoint self.now.shape op }
        requires read { FindsInRange self.now.shape op (found_by_op self.now.shape op (M.words memory.old)) }
        requires asked { let s = self.now.shape in IsAskedFor s (access_of s.kind op) (M.lent memory.old).request }
        ensures one_access { M.words memory.new ≡ words_by_op self.now.shape op (M.words memory.old) }
        ensures lent { M.lent memory.new ≡ lent_by_op self.now.shape op (M.lent memory.old) }
        ensures next { result.after ≡ next_by_op self.now.shape op (M.words memory.old) }
        ensures change { result.change ≡ change_by_op self.now.shape op (M.words memory.old) }
    {
        op.step(&self.layout, memory)
    }

    /// Notes what a step did: a look of the call at a place, or a change of a kept word.
    fn note<M: EvictableWords>(
        &mut self,
        memory: &M,
        looking: Option<usize>,
        stepped: &Stepped<Op, Reply>,
    )
        requires fit { WordsFit self.old.shape (M.words memory.now) }
        requires sequence { AreInSequence self.old.trace.log.effects }
        requires room { HaveRoom self.old.trace.log (effects_by_step self.old (M.words memory.now) looking stepped.now) }
        ensures { self.new
            ≡ core_with_effects self.old (effects_by_step self.old (M.words memory.now) looking stepped.now) }
    {
        match looking {
            Some(place) => self.trace.look(place, found_nothing(&stepped.after)),
            None => self.note_change(memory, stepped.change),
        }
    }

    /// What a step leads to takes the call's place, and an answer is noted.
    fn go_on(&mut self, client: Client, after: &After<Op, Reply>) -> Option<Reply>
        requires client { client.0 < length self.old.calls }
        requires room { 0 < self.old.trace.room }
        ensures shape { self.new.shape ≡ self.old.shape }
        ensures queue { self.new.queue ≡ self.old.queue }
        ensures calls { GoesOnTo client after.now self.old.calls self.new.calls }
        ensures answer { result ≡ answer_of after.now }
        ensures base { self.new.trace.base ≡ self.old.trace.base }
        ensures told { self.new.trace.told ≡ self.old.trace.told }
        ensures log { AddsAnswer client after.now self.old.trace self.new.trace }
        ensures recovery { self.new.trace.recovery ≡ self.old.trace.recovery }
        ensures room { self.old.trace.room ≤ self.new.trace.room + 1 }
        ensures stays { result ≡ None → self.new.trace.room ≡ self.old.trace.room }
    {
        match after {
            After::More(op) => {
                self.calls.go_on(client, op);
                None
            }
            After::Done(reply) => {
                self.calls.end(client);
                self.trace.answer(client, *reply);
                Some(*reply)
            }
        }
    }

    /// One step of the call that a client has under way: its answer, and the change of a kept value.
    fn advance<M: EvictableWords>(&mut self, memory: &mut M, client: Client) -> Noted<Option<Reply>>
        requires waits { IsSome (slice_index_or self.old.calls client.0 None) }
        requires safe { IsSafe self.old.shape (M.words memory.old) self.old.calls }
        requires asked { IfCallAsked self.old.shape (slice_index_or self.old.calls client.0 None)
            (M.lent memory.old).request }
        requires sequence { AreInSequence self.old.trace.log.effects }
        requires effects { OfCall self.old.calls client (λ u. HasRoomToStep self.old (M.words memory.old) u) }
        requires room { 0 < self.old.trace.room }
        ensures step { IsCallStep client self.old (M.words memory.old) self.new (M.words memory.new) result }
        ensures lent { IsLentByCall client self.old (M.lent memory.old) (M.lent memory.new) }
        ensures shape { self.new.shape ≡ self.old.shape }
        ensures queue { self.new.queue ≡ self.old.queue }
        ensures base { self.new.trace.base ≡ self.old.trace.base }
        ensures told { self.new.trace.told ≡ self.old.trace.told }
        ensures recovery { self.new.trace.recovery ≡ self.old.trace.recovery }
        ensures room { self.old.trace.room ≤ self.new.trace.room + 1 }
        ensures stays { result.answer ≡ None → self.new.trace.room ≡ self.old.trace.room }
    {
        let Some(under_way) = self.call_of(client) else {
            unreachable!()
        };
        let looking = looking(under_way);
        let stepped = self.step_at(memory, under_way.op);
        self.note(memory, looking, &stepped);
        Noted {
            answer: self.go_on(client, &stepped.after),
            change: stepped.change,
        }
    }

    /// As [`Core::step`], with the change of a kept word that the step made.
    #[inline(always)]
    pub fn step_noted<M: EvictableWords>(
        &mut self,
        memory: &mut M,
        client: Client,
    ) -> Result<Noted<Option<Reply>>, Refusal>
        requires holds { Holds (state_of self.old (M.words memory.old)) }
        requires asked { IfCallAsked self.old.shape (slice_index_or self.old.calls client.0 None)
            (M.lent memory.old).request }
        ensures by_rule { IsByStepOver client self.old (M.words memory.old) (answer_in result)
            self.new (M.words memory.new) }
        ensures stays { answer_in result ≡ Ok None → self.old.trace.room ≤ self.new.trace.room }
        ensures holds { Holds (state_of self.new (M.words memory.new)) }
        ensures lent { M.lent memory.new
            ≡ lent_by_noted_step result client self.old (M.words memory.old) (M.lent memory.old) }
        ensures noted { IsNoted (change_in result) (M.words memory.old).kept (M.words memory.new).kept }
    {
        let begun = &self.waiting(client)?.begun;
        let (caller, number) = (begun.client, begun.number);
        self.reserve(1)?;
        let noted = self.advance(memory, client);
        // Most steps answer nothing. Then no room of a reply is copied, here and above, where each copy would wait for
        // the one before it.
        if noted.answer.is_none() {
            return Ok(Noted {
                answer: None,
                change: noted.change,
            });
        }
        self.queue.returned(caller, number);
        Ok(noted)
    }

    /// One step of a client's call: exactly one access. It answers the reply where that was the last. The words are
    /// lent through the client's port: a call that waits to complete a flush has asked for it there. It is refused, in
    /// this order, where there is no such client (NoClient), where recovery is under way (NotReady), where it has no
    /// call (Idle), and for want of memory (NoMemory).
    #[inline(always)]
    pub fn step<M: EvictableWords>(
        &mut self,
        memory: &mut M,
        client: Client,
    ) -> Result<Option<Reply>, Refusal>
        requires holds { Holds (state_of self.old (M.words memory.old)) }
        requires asked { IfCallAsked self.old.shape (slice_index_or self.old.calls client.0 None)
            (M.lent memory.old).request }
        ensures by_rule { IsByStepOver client self.old (M.words memory.old) result self.new (M.words memory.new) }
        ensures stays { result ≡ Ok None → self.old.trace.room ≤ self.new.trace.room }
        ensures holds { Holds (state_of self.new (M.words memory.new)) }
        ensures lent { M.lent memory.new
            ≡ lent_once_stepped result client self.old (M.words memory.old) (M.lent memory.old) }
    {
        Ok(self.step_noted(memory, client)?.answer)
    }
}
