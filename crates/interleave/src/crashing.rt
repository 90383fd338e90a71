//! A crash of the whole system, and the steps of recovery.

ghost use Rattle.std.specs.Prelude.{◌≡◌, ◌<◌, ◌≤◌, ◌+◌, true, false, is_some, length, IfSome, None, Ok, IfErr};
ghost use Rattle.persist.specs.Memory.{Words, words_after_crash};
ghost use Rattle.persist.specs.Noted.{answer_in, change_in, IsNoted};
ghost use Rattle.interleave.specs.Asked.{lent_by_noted_recovery, lent_once_recovered, IfRecoveryAsked};
ghost use Rattle.interleave.specs.Calls.{is_no_memory};
ghost use Rattle.interleave.specs.Core.{core_with_room, state_of, IsStopped};
ghost use Rattle.interleave.specs.Holds.{Holds};
ghost use Rattle.interleave.specs.Queue.{queue_with_reports};
ghost use Rattle.interleave.specs.Recoveries.{IsLentByRecovery, IsRecoveryStep, MayRecover, OfRecovery};
ghost use Rattle.interleave.specs.Rules.{IsByRecoverOver};
ghost use Rattle.interleave.specs.State.{crash_result};
ghost use Rattle.interleave.specs.Trace.{AddsReady};

use crate::lent::Core;
use persist::{Noted, WordMemory};
use words::Refusal;

impl Core {
    /// The whole system stops, as in [`Core::crash`], where there is room for one event. So it is not refused: whoever
    /// has several cores makes room in each ([`Core::reserve`]) before any of them stops.
    pub fn stop(&mut self)
        requires { 0 < self.old.trace.room }
        ensures stopped { IsStopped self.old self.new }
        ensures room { self.old.trace.room ≤ self.new.trace.room + 1 }
        ensures holds { (ws : Words) → Holds (state_of self.old ws)
            → Holds (state_of self.new (words_after_crash ws)) }
    {
        self.calls.end_all();
        self.trace.crash();
    }

    /// The whole system stops: calls under way end without an answer, and recovery begins anew, also where it was under
    /// way. The memory's own crash goes with it, and is the caller's: before the next act every cached value is the
    /// kept one. It is refused for want of memory alone (NoMemory), and then nothing changed.
    pub fn crash(&mut self) -> Result<(), Refusal>
        requires { length self.old.trace.log.effects ≤ length self.old.trace.log.events }
        ensures stopped { result ≡ Ok tt → IsStopped self.old self.new }
        ensures same { IfErr result (λ e. self.new ≡ core_with_room self.old self.new.trace.room) }
        ensures result { result ≡ crash_result (is_no_memory result) }
        ensures full { is_no_memory result ≡ true → self.old.trace.room ≡ 0 }
        ensures room { self.old.trace.room ≤ self.new.trace.room + 1 }
        ensures spare { IfErr result (λ e. self.old.trace.room ≤ self.new.trace.room) }
    {
        self.reserve(1)?;
        self.stop();
        Ok(())
    }

    /// Recovery ends, and the clients are told what it read. What they are told is large, and stands in a function of
    /// its own so that no other step pays for its room.
    fn end_recovery(&mut self)
        requires down { is_some self.old.trace.recovery ≡ true }
        requires room { 0 < self.old.trace.room }
        ensures shape { self.new.shape ≡ self.old.shape }
        ensures calls { self.new.calls ≡ self.old.calls }
        ensures base { self.new.trace.base ≡ self.old.trace.base }
        ensures told { self.new.trace.told ≡ self.old.trace.told }
        ensures issued { self.new.trace.log.issued ≡ self.old.trace.log.issued }
        ensures effects { self.new.trace.log.effects ≡ self.old.trace.log.effects }
        ensures events { AddsReady self.old.trace self.new.trace }
        ensures recovery { self.new.trace.recovery ≡ None }
        ensures queue { OfRecovery self.old.trace.recovery (λ r. self.new.queue ≡ queue_with_reports self.old.queue r.told) }
        ensures room { self.old.trace.room ≤ self.new.trace.room + 1 }
    {
        let told = self.trace.end_recovery();
        self.queue.recovered(told);
    }

    /// Recovery makes a step, and once it is at its end the clients are told what it read. It answers whether it is,
    /// and the change of a kept value.
    #[inline(always)]
    fn recover_once<M: WordMemory>(&mut self, memory: &mut M) -> Noted<bool>
        requires down { is_some self.old.trace.recovery ≡ true }
        requires room { 0 < self.old.trace.room }
        requires may { IfSome self.old.trace.recovery (λ r. MayRecover self.old.shape (M.words memory.old) r) }
        requires asked { IfRecoveryAsked self.old.shape self.old.trace.recovery (M.lent memory.old).request }
        ensures shape { self.new.shape ≡ self.old.shape }
        ensures calls { self.new.calls ≡ self.old.calls }
        ensures base { self.new.trace.base ≡ self.old.trace.base }
        ensures told { self.new.trace.told ≡ self.old.trace.told }
        ensures issued { self.new.trace.log.issued ≡ self.old.trace.log.issued }
        ensures effects { self.new.trace.log.effects ≡ self.old.trace.log.effects }
        ensures step { IsRecoveryStep self.old (M.words memory.old) self.new (M.words memory.new) result }
        ensures lent { IsLentByRecovery self.old.shape self.old.trace.recovery (M.lent memory.old) (M.lent memory.new) }
        ensures room { self.old.trace.room ≤ self.new.trace.room + 1 }
        ensures stays { result.answer ≡ false → self.old.trace.room ≤ self.new.trace.room }
    {
        let recovered = self.trace.recover(&self.layout, memory);
        if recovered.answer {
            self.end_recovery();
        }
        recovered
    }

    /// As [`Core::recover_step`], with the change of a kept word that the step made.
    #[inline(always)]
    pub fn recover_step_noted<M: WordMemory>(
        &mut self,
        memory: &mut M,
    ) -> Result<Noted<bool>, Refusal>
        requires holds { Holds (state_of self.old (M.words memory.old)) }
        requires asked { IfRecoveryAsked self.old.shape self.old.trace.recovery (M.lent memory.old).request }
        ensures by_rule { IsByRecoverOver self.old (M.words memory.old) (answer_in result)
            self.new (M.words memory.new) }
        ensures stays { answer_in result ≡ Ok false → self.old.trace.room ≤ self.new.trace.room }
        ensures holds { Holds (state_of self.new (M.words memory.new)) }
        ensures lent { M.lent memory.new
            ≡ lent_by_noted_recovery result self.old (M.words memory.old) (M.lent memory.old) }
        ensures noted { IsNoted (change_in result) (M.words memory.old).kept (M.words memory.new).kept }
    {
        if !self.is_down() {
            return Err(Refusal::AlreadyReady);
        }
        self.reserve(1)?;
        Ok(self.recover_once(memory))
    }

    /// One step of recovery: exactly one access. It answers whether the queue is ready now, and then each client is
    /// told what became of its last call. The words are lent through recovery's port: where recovery waits to complete
    /// a flush, it has asked for it there. It is refused, in this order, where no recovery is under way (AlreadyReady),
    /// and for want of memory (NoMemory).
    #[inline(always)]
    pub fn recover_step<M: WordMemory>(&mut self, memory: &mut M) -> Result<bool, Refusal>
        requires holds { Holds (state_of self.old (M.words memory.old)) }
        requires asked { IfRecoveryAsked self.old.shape self.old.trace.recovery (M.lent memory.old).request }
        ensures by_rule { IsByRecoverOver self.old (M.words memory.old) result self.new (M.words memory.new) }
        ensures stays { result ≡ Ok false → self.old.trace.room ≤ self.new.trace.room }
        ensures holds { Holds (state_of self.new (M.words memory.new)) }
        ensures lent { M.lent memory.new ≡ lent_once_recovered result self.old (M.words memory.old) (M.lent memory.old) }
    {
        Ok(self.recover_step_noted(memory)?.answer)
    }
}
