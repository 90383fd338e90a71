//! Crashes, recoveries, and creations, under the lock.

ghost use Rattle.std.specs.Prelude.{◌≡◌, ◌<◌, ◌+◌, ◌++◌, ◌∷◌, [], ℕ, Err, IfErr, IfOk, IfSome, IsErr, IsSome, List, None, OnErr, OnOk, true};
ghost use Rattle.directory.specs.Directory.{HasName, HasQueue};
ghost use Rattle.named.specs.Brokers.{MayCreate};
ghost use Rattle.named.specs.GoingOn.{BrokerGoesOn};
ghost use Rattle.named.specs.Lasting.{steps_left};
ghost use Rattle.named.specs.Stopping.{IsStopped};
ghost use Rattle.session.specs.Acts.{IsNextRecoveryStep};
ghost use Rattle.workers.specs.Creating.{creating_after_crash};
ghost use Rattle.workers.specs.Made.{IsMade};
ghost use Rattle.workers.specs.Moments.{GoesOnLater};
ghost use Rattle.workers.specs.Noting.{to_create, with_promised, HasPromised};
ghost use Rattle.workers.specs.Renewing.{HasRoomToRecover};
ghost use Rattle.workers.specs.Recovered.{is_ready_after, IsRecoveryRefusal, IsRefusedOnlyIfReady, IsStepIfRoom};
ghost use Rattle.workers.specs.Seen.{HasStoppedSince, IsCreationAt, IsWhyNotCreated, WasDown};
ghost use Rattle.workers.specs.declared.deeds.Deed.{Deed as AnyDeed};
ghost use Rattle.workers.specs.declared.locked.Creating.{Creating as AnyCreating};

use crate::book::{noted, promise, release, release_all};
use crate::deeds::Deed;
use crate::locked::{Creating, Locked};
use crate::marks::Marked;
use crate::naming::Naming;
use crate::operator::Operator;
use crate::shared::Created;
use arena::SlotId;
use directory::{CREATION_STEPS, Queue};
use roll::Roll;
use session::Session;
use words::Refusal;

impl Creating {
    /// After a crash.
    fn stopped(self) -> Self
        ensures { result ≡ creating_after_crash self }
    {
        match self {
            Creating::UnderWay => Creating::Interrupted,
            Creating::Nothing | Creating::Interrupted => self,
        }
    }
}

/// Whether the slot has this queue.
fn has(session: &Session, slot: SlotId, queue: &Queue) -> bool
    ensures { result ≡ true → HasQueue session.now.broker.directory slot.0 queue.now }
{
    let Ok(places) = session.broker().list() else {
        return false;
    };
    match places.get(usize::from(slot.0)) {
        Some(Some(there)) => there.name == queue.name && there.kind == queue.kind,
        _ => false,
    }
}

/// Why a creation may not begin yet: another one has not ended, or the broker recovers.
fn why_busy(session: &Session) -> Refusal
    ensures { (name : List ℕ) → IsWhyNotCreated session.now.broker name result }
{
    match session.broker().list() {
        Ok(_) => Refusal::Busy,
        Err(refusal) => refusal,
    }
}

impl<J: Naming> Locked<J> {
    /// Begins to create a queue. One that a crash ended is not over until its caller has seen that. Where changes are
    /// noted, room for all of the creation's is promised now; while memory for that is refused, it is Busy.
    pub(crate) fn create(&mut self, queue: &Queue) -> Result<(), Refusal>
        ensures may { OnOk result (MayCreate self.old.session.broker queue.now.name) }
        ensures taken { HasName J.first.broker.directory queue.now.name → IsErr result }
        ensures errors { IfErr result (IsWhyNotCreated self.old.session.broker queue.now.name) }
        ensures same { OnErr result (self.new ≡ self.old) }
    {
        if matches!(self.creating, Creating::Interrupted) {
            return Err(why_busy(&self.session));
        }
        if !promise(&mut self.book, CREATION_STEPS) {
            return Err(why_busy(&self.session));
        }
        if let Err(refusal) = self.session.create(queue.name.as_bytes(), queue.kind) {
            release(&mut self.book, CREATION_STEPS);
            return Err(refusal);
        }
        self.creating = Creating::UnderWay;
        Ok(())
    }

    /// The same, and a mark of the session, in the place of an earlier one.
    pub(crate) fn begin_creation(
        &mut self,
        queue: &Queue,
        before: Marked<J>,
    ) -> (Marked<J>, Result<(), Refusal>)
        ensures may { OnOk result.1 (MayCreate result.0.broker queue.now.name) }
        ensures taken { HasName J.first.broker.directory queue.now.name → IsErr result.1 }
        ensures errors { IfErr result.1 (IsWhyNotCreated result.0.broker queue.now.name) }
        ensures later { GoesOnLater before result.0 }
    {
        let marked = self.mark_after(before);
        (marked, self.create(queue))
    }

    /// One step of the creation of this queue, for its caller: what became of it, once it is over.
    fn creation_step(&mut self, queue: &Queue) -> Option<Created>
        ensures made { IfSome result (IsMade J.first.broker.directory self.new.session.broker) }
        ensures there { IfSome result (IsCreationAt self.new.session.broker queue.now) }
    {
        match self.creating {
            Creating::UnderWay => self.make_step(queue),
            Creating::Interrupted => {
                self.creating = Creating::Nothing;
                Some(Created::Interrupted)
            }
            Creating::Nothing => Some(Created::Interrupted),
        }
    }

    /// The same, and a mark of the session, in the place of an earlier one.
    pub(crate) fn create_step(
        &mut self,
        queue: &Queue,
        before: Marked<J>,
    ) -> (Marked<J>, Option<Created>)
        ensures made { IfSome result.1 (IsMade J.first.broker.directory result.0.broker) }
        ensures there { IfSome result.1 (IsCreationAt result.0.broker queue.now) }
        ensures later { GoesOnLater before result.0 }
    {
        let created = self.creation_step(queue);
        (self.mark_after(before), created)
    }

    /// One step of the creation that is under way. What it opened is looked at, since no clause says here that it is
    /// the caller's: another one is never begun before the caller has seen the end of his own.
    fn make_step(&mut self, queue: &Queue) -> Option<Created>
        requires under_way { self.old.creating ≡ AnyCreating.UnderWay }
        ensures made { IfSome result (IsMade J.first.broker.directory self.new.session.broker) }
        ensures there { IfSome result (IsCreationAt self.new.session.broker queue.now) }
    {
        let act = self.session.create_step_noted();
        match noted(&mut self.book, act) {
            Ok(None) => None,
            Ok(Some(slot)) => {
                self.creating = Creating::Nothing;
                if !has(&self.session, slot, queue) {
                    return Some(Created::Interrupted);
                }
                Some(Created::Queue(slot))
            }
            // The broker has it under way, and is ready.
            Err(_) => unreachable!(),
        }
    }

    /// The whole system stops: calls under way end, and so does a creation.
    fn stop(
        &mut self,
        deeds: &Roll<Deed>,
        operator: Operator<J>,
    ) -> (Operator<J>, Result<(), Refusal>)
        requires { deeds.now ≡ J.roll.deeds }
        ensures stopped { OnOk result.1 (IsStopped self.old.session.broker self.new.session.broker) }
        ensures stops { OnOk result.1 (result.0 ≡ operator ++ AnyDeed.Crash ∷ []) }
        ensures same { OnErr result.1 (result.0 ≡ operator) }
        ensures errors { IfErr result.1 (λ refusal. refusal ≡ Refusal.NoMemory) }
    {
        if let Err(refusal) = self.session.crash() {
            return (operator, Err(refusal));
        }
        self.creating = self.creating.stopped();
        release_all(&mut self.book);
        (self.register.enter_stop(deeds, operator), Ok(()))
    }

    /// The same, and a mark of the session, in the place of an earlier one.
    pub(crate) fn crash(
        &mut self,
        deeds: &Roll<Deed>,
        operator: Operator<J>,
        before: Marked<J>,
    ) -> (Operator<J>, Marked<J>, Result<(), Refusal>)
        requires { deeds.now ≡ J.roll.deeds }
        ensures stopped { OnOk result.2 (HasStoppedSince before result.1) }
        ensures stops { OnOk result.2 (result.0 ≡ operator ++ AnyDeed.Crash ∷ []) }
        ensures same { OnErr result.2 (result.0 ≡ operator) }
        ensures errors { IfErr result.2 (λ refusal. refusal ≡ Refusal.NoMemory) }
        ensures later { GoesOnLater before result.1 }
    {
        let marked = self.mark_after(before);
        let (operator, stopped) = self.stop(deeds, operator);
        (operator, self.mark_after(marked), stopped)
    }

    /// One step of recovery, for whose change room was promised: whether the broker is ready by it.
    pub(crate) fn recover_promised(&mut self) -> Result<bool, Refusal>
        requires promised { HasPromised
            (to_create self.old.creating self.old.session.broker.creation + 1) self.old.promised }
        ensures step { IsNextRecoveryStep self.old.session.broker self.new.session.broker result }
        ensures errors { IfErr result IsRecoveryRefusal }
        ensures goes_on { BrokerGoesOn self.old.session.broker self.new.session.broker }
        ensures down { OnOk result (IsSome self.old.session.broker.recovery) }
        ensures ready { is_ready_after result ≡ true → self.new.session.broker.recovery ≡ None }
        ensures room { HasRoomToRecover self.old.session.broker → HasRoomToRecover self.new.session.broker }
        ensures never_full { HasRoomToRecover self.old.session.broker → IsRefusedOnlyIfReady result }
        ensures falls { IfOk result
            (λ ready. steps_left self.new.session.broker < steps_left self.old.session.broker) }
        ensures less { self.old.promised ≡ with_promised 1 self.new.promised }
    {
        let act = self.session.recover_step_noted();
        noted(&mut self.book, act)
    }

    /// One step of recovery. Where changes are noted, it is refused for want of memory for its change, too (NoMemory).
    fn recovery_step(&mut self) -> Result<bool, Refusal>
        ensures step { IsStepIfRoom self.old.promised self.old.session.broker self.new.session.broker result }
        ensures errors { IfErr result IsRecoveryRefusal }
        ensures down { OnOk result (IsSome self.old.session.broker.recovery) }
        ensures ready { is_ready_after result ≡ true → self.new.session.broker.recovery ≡ None }
    {
        if !promise(&mut self.book, 1) {
            return Err(Refusal::NoMemory);
        }
        self.recover_promised()
    }

    /// The same, and a mark of the session, in the place of an earlier one.
    pub(crate) fn recover_step(&mut self, before: Marked<J>) -> (Marked<J>, Result<bool, Refusal>)
        ensures errors { IfErr result.1 IsRecoveryRefusal }
        ensures down { OnOk result.1 (WasDown before result.0) }
        ensures ready { is_ready_after result.1 ≡ true → result.0.broker.recovery ≡ None }
        ensures later { GoesOnLater before result.0 }
    {
        let marked = self.mark_after(before);
        let step = self.recovery_step();
        (self.mark_after(marked), step)
    }
}
