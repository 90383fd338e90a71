//! Crashes of a session's broker, and its recovery.

ghost use Rattle.std.specs.Prelude.{◌≡◌, ◌<◌, ◌≤◌, ◌+◌, ℕ, true, Ok, IfOk, OnErr};
ghost use Rattle.persist.specs.Memory.{words_after_eviction};
ghost use Rattle.persist.specs.Noted.{answer_in, change_in, IsNoted};
ghost use Rattle.interleave.specs.Calls.{is_no_memory};
ghost use Rattle.interleave.specs.State.{crash_result};
ghost use Rattle.named.specs.Blocks.{IsSameWords};
ghost use Rattle.named.specs.Brokers.{room_at};
ghost use Rattle.named.specs.Evicting.{evict_result, AreWorldsEvicted};
ghost use Rattle.named.specs.GoingOn.{BrokerGoesOn, IsDowntime};
ghost use Rattle.named.specs.Lasting.{most_kept, steps_left};
ghost use Rattle.named.specs.Stopping.{HasFullQueue, IsSameButRoom, IsStopped};
ghost use Rattle.named.specs.Telling.{TellAtReady};
ghost use Rattle.session.specs.Acts.{IsNextRecoveryStep, IsSameButWordsAndSlots};
ghost use Rattle.session.specs.Keeping.{AreKeptAfter, SessionGoesOn};
ghost use Rattle.session.specs.Promises.{KeepsNumbers};

use crate::kept::Kept;
use crate::session::Session;
use directory::MAX_DIRECTORY_STEPS;
use persist::{Change, Noted};
use words::Refusal;

impl Session {
    /// The environment keeps a word, as [`named::Broker::evict`] has it.
    pub fn evict(&mut self, word: usize) -> Result<Option<Change>, Refusal>
        ensures result { result ≡ evict_result self.old.broker word }
        ensures words { IsSameWords (words_after_eviction word self.old.broker.words) self.new.broker.words }
        ensures worlds { AreWorldsEvicted self.old.broker self.new.broker word }
        ensures same { IsSameButWordsAndSlots self.old.broker self.new.broker }
        ensures room { (slot : ℕ) → room_at self.new.broker slot ≡ room_at self.old.broker slot }
        ensures left { steps_left self.new.broker ≡ steps_left self.old.broker }
        ensures kept { self.new.kept ≡ self.old.kept }
        ensures goes_on { SessionGoesOn self.old self.new }
        ensures downtime { IsDowntime self.old.broker self.new.broker }
        ensures promises { KeepsNumbers self.new }
    {
        self.broker.evict(word)
    }

    /// The whole system stops, as [`named::Broker::crash`] has it: calls under way end. What is kept of each client is
    /// that of before until the broker is ready again.
    pub fn crash(&mut self) -> Result<(), Refusal>
        ensures stopped { result ≡ Ok tt → IsStopped self.old.broker self.new.broker }
        ensures same { OnErr result (IsSameButRoom self.old.broker self.new.broker) }
        ensures result { result ≡ crash_result (is_no_memory result) }
        ensures full { is_no_memory result ≡ true → HasFullQueue self.old.broker }
        ensures room { (slot : ℕ) → room_at self.old.broker slot ≤ room_at self.new.broker slot + 1 }
        ensures spare { OnErr result ((slot : ℕ) → room_at self.old.broker slot ≤ room_at self.new.broker slot) }
        ensures left { result ≡ Ok tt → steps_left self.new.broker ≡ MAX_DIRECTORY_STEPS + most_kept self.new.broker }
        ensures kept { self.new.kept ≡ self.old.kept }
        ensures goes_on { SessionGoesOn self.old self.new }
        ensures queues { BrokerGoesOn self.old.broker self.new.broker }
        ensures downtime { result ≡ Ok tt → IsDowntime self.old.broker self.new.broker }
        ensures promises { KeepsNumbers self.new }
    {
        self.broker.crash()
    }

    /// One step of recovery, as [`named::Broker::recover_step`] takes it. Once the broker is ready, what each client is
    /// told is kept.
    pub fn recover_step(&mut self) -> Result<bool, Refusal>
        ensures step { IsNextRecoveryStep self.old.broker self.new.broker result }
        ensures full { is_no_memory result ≡ true → HasFullQueue self.old.broker }
        ensures room { (slot : ℕ) → room_at self.old.broker slot ≤ room_at self.new.broker slot + 1 }
        ensures spare { OnErr result ((slot : ℕ) → room_at self.old.broker slot ≤ room_at self.new.broker slot) }
        ensures told { TellAtReady self.old.broker self.new.broker }
        ensures few { steps_left self.old.broker ≤ MAX_DIRECTORY_STEPS + most_kept self.old.broker }
        ensures falls { IfOk result (λ ready. steps_left self.new.broker < steps_left self.old.broker) }
        ensures kept { AreKeptAfter self.old self.new result }
        ensures goes_on { SessionGoesOn self.old self.new }
        ensures downtime { IsDowntime self.old.broker self.new.broker }
        ensures promises { KeepsNumbers self.new }
    {
        Ok(self.recover_step_noted()?.answer)
    }

    /// As [`Session::recover_step`], with the change of a kept word that the step made.
    pub fn recover_step_noted(&mut self) -> Result<Noted<bool>, Refusal>
        ensures step { IsNextRecoveryStep self.old.broker self.new.broker (answer_in result) }
        ensures full { is_no_memory (answer_in result) ≡ true → HasFullQueue self.old.broker }
        ensures room { (slot : ℕ) → room_at self.old.broker slot ≤ room_at self.new.broker slot + 1 }
        ensures spare { OnErr result ((slot : ℕ) → room_at self.old.broker slot ≤ room_at self.new.broker slot) }
        ensures noted { IsNoted (change_in result) self.old.broker.words.kept self.new.broker.words.kept }
        ensures told { TellAtReady self.old.broker self.new.broker }
        ensures few { steps_left self.old.broker ≤ MAX_DIRECTORY_STEPS + most_kept self.old.broker }
        ensures falls { IfOk result (λ noted. steps_left self.new.broker < steps_left self.old.broker) }
        ensures kept { AreKeptAfter self.old self.new (answer_in result) }
        ensures goes_on { SessionGoesOn self.old self.new }
        ensures downtime { IsDowntime self.old.broker self.new.broker }
        ensures promises { KeepsNumbers self.new }
    {
        let Noted {
            answer: ready,
            change,
        } = self.broker.recover_step_noted()?;
        if ready {
            self.kept = Kept::told(&self.broker);
        }
        Ok(Noted {
            answer: ready,
            change,
        })
    }
}
