//! How a queue begins in fresh records, while nobody calls.

ghost use Rattle.std.specs.Prelude.{◌≡◌, ◌+◌, IfErr, IfOk, None, OnErr, OnOk};
ghost use Rattle.named.specs.GoingOn.{BrokerGoesOn};
ghost use Rattle.named.specs.Lasting.{steps_left};
ghost use Rattle.named.specs.Renewing.{IsRenewedAt};
ghost use Rattle.workers.specs.Noting.{HasPromised};
ghost use Rattle.workers.specs.Refusals.{IsWhyNotRenewed};
ghost use Rattle.workers.specs.Renewing.{HasRoomToRecover, IsRenewedOn};
ghost use Rattle.workers.specs.Seats.{AreAllInOrder, AreEmpty};
ghost use Rattle.workers.specs.Moments.{GoesOnLater};
ghost use Rattle.workers.specs.Seen.{IsRenewedBetween};

use crate::book::{release_all, renew};
use crate::closing::all_emptied;
use crate::entry::Entry;
use crate::locked::Locked;
use crate::marks::Marked;
use crate::naming::Naming;
use crate::seat::Seat;
use crate::shared::Shared;
use arena::SlotId;
use roll::Roll;
use std::sync::Wait;
use waiting::lock;
use words::Refusal;

impl<J: Naming> Locked<J> {
    /// The queue of a slot begins in fresh records. The histories of all queues end, and with them the lists of all
    /// seats, and the broker is to recover.
    fn begin_renewed(
        &mut self,
        roll: &Roll<Entry>,
        seats: Vec<Seat<J>>,
        slot: SlotId,
    ) -> (Vec<Seat<J>>, Result<(), Refusal>)
        requires roll { roll.now ≡ J.roll.lists }
        requires order { AreAllInOrder (λ seat. seat.client) J.clients seats.items }
        ensures order { AreAllInOrder (λ seat. seat.client) J.clients result.0.items }
        ensures empty { OnOk result.1 (AreEmpty (λ seat. seat.list.items) result.0.items) }
        ensures same { OnErr result.1 (result.0.items ≡ seats.items) }
        ensures errors { IfErr result.1 (IsWhyNotRenewed J.first slot) }
        ensures renewed { OnOk result.1 (IsRenewedAt self.old.session.broker self.new.session.broker slot.0) }
        ensures room { OnOk result.1 (HasRoomToRecover self.new.session.broker) }
        ensures promised { OnOk result.1 (HasPromised (steps_left self.new.session.broker + 1) self.new.promised) }
        ensures unchanged { OnErr result.1 (self.new ≡ self.old) }
    {
        if let Err(refusal) = renew(&mut self.session, &mut self.book, slot) {
            return (seats, Err(refusal));
        }
        self.rotated = true;
        (all_emptied(roll, &mut self.keeper, seats), Ok(()))
    }

    /// Recovers the broker until it is ready. Room for the changes of all steps was promised, where changes are noted.
    fn recover_all(&mut self)
        requires room { HasRoomToRecover self.old.session.broker }
        requires promised { HasPromised (steps_left self.old.session.broker + 1) self.old.promised }
        ensures ready { self.new.session.broker.recovery ≡ None }
        ensures goes_on { BrokerGoesOn self.old.session.broker self.new.session.broker }
        ensures creation { self.new.session.broker.creation ≡ None }
    {
        let mut ready = false;
        while !ready {
            match self.recover_promised() {
                Ok(now) => ready = now,
                // There is room, so no step is refused but one of a broker that is ready.
                Err(_) => return,
            }
        }
    }

    /// The queue of a slot begins in fresh records, and the broker recovers until it is ready.
    fn renew(
        &mut self,
        roll: &Roll<Entry>,
        seats: Vec<Seat<J>>,
        slot: SlotId,
    ) -> (Vec<Seat<J>>, Result<(), Refusal>)
        requires roll { roll.now ≡ J.roll.lists }
        requires order { AreAllInOrder (λ seat. seat.client) J.clients seats.items }
        ensures order { AreAllInOrder (λ seat. seat.client) J.clients result.0.items }
        ensures empty { OnOk result.1 (AreEmpty (λ seat. seat.list.items) result.0.items) }
        ensures same { OnErr result.1 (result.0.items ≡ seats.items) }
        ensures errors { IfErr result.1 (IsWhyNotRenewed J.first slot) }
        ensures renewed { OnOk result.1 (IsRenewedOn self.old.session.broker self.new.session.broker slot.0) }
        ensures ready { OnOk result.1 (self.new.session.broker.recovery ≡ None) }
        ensures unchanged { OnErr result.1 (self.new ≡ self.old) }
    {
        let (seats, begun) = self.begin_renewed(roll, seats, slot);
        if let Err(refusal) = begun {
            return (seats, Err(refusal));
        }
        self.recover_all();
        release_all(&mut self.book);
        (seats, Ok(()))
    }

    /// The same, and a mark of the session, in the place of an earlier one.
    fn renew_marked(
        &mut self,
        roll: &Roll<Entry>,
        seats: Vec<Seat<J>>,
        slot: SlotId,
        before: Marked<J>,
    ) -> (Vec<Seat<J>>, Marked<J>, Result<(), Refusal>)
        requires roll { roll.now ≡ J.roll.lists }
        requires order { AreAllInOrder (λ seat. seat.client) J.clients seats.items }
        ensures order { AreAllInOrder (λ seat. seat.client) J.clients result.0.items }
        ensures empty { OnOk result.2 (AreEmpty (λ seat. seat.list.items) result.0.items) }
        ensures same { OnErr result.2 (result.0.items ≡ seats.items) }
        ensures errors { IfErr result.2 (IsWhyNotRenewed J.first slot) }
        ensures renewed { OnOk result.2 (IsRenewedBetween before result.1 slot.0) }
        ensures later { GoesOnLater before result.1 }
    {
        let marked = self.mark_after(before);
        let (seats, renewed) = self.renew(roll, seats, slot);
        let marked = self.mark_after(marked);
        (seats, marked, renewed)
    }
}

impl<J: Naming> Shared<J> {
    /// The queue of a slot begins in fresh records, as [`session::Session::renew`] makes it, and the broker recovers, in
    /// one act: nobody calls meanwhile, and nobody is told NotReady. All queues hold what they held, what was settled
    /// is settled, and no call is interrupted. The histories of all queues end, and others begin; the seats' lists
    /// begin anew with them. The seats are all that were given, in client order, and come back so. It is refused, in
    /// this order, while the broker recovers (NotReady), where the slot has no queue (NoQueue), where a call in any
    /// queue or a creation is under way (Busy), where the items do not fit beside two records of each client (NoRoom),
    /// and for want of memory (NoMemory), and then nothing changed.
    pub fn renew<R: Wait>(
        &self,
        rt: &R,
        seats: Vec<Seat<J>>,
        slot: SlotId,
        before: Marked<J>,
    ) -> (Vec<Seat<J>>, Marked<J>, Result<(), Refusal>)
        requires { AreAllInOrder (λ seat. seat.client) J.clients seats.items }
        ensures order { AreAllInOrder (λ seat. seat.client) J.clients result.0.items }
        ensures empty { OnOk result.2 (AreEmpty (λ seat. seat.list.items) result.0.items) }
        ensures same { OnErr result.2 (result.0.items ≡ seats.items) }
        ensures renewed { OnOk result.2 (IsRenewedBetween before result.1 slot.0) }
        ensures errors { IfErr result.2 (IsWhyNotRenewed J.first slot) }
        ensures later { GoesOnLater before result.1 }
    {
        lock(rt, &self.locked).renew_marked(&self.roll, seats, slot, before)
    }
}
