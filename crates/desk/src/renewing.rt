//! Puts and takes, of which one that finds no room is made once more in fresh records.

ghost use Rattle.std.specs.Prelude.{◌≡◌, ◌<◌, IfErr, IfOk, IfSome, IsTrue};
ghost use Rattle.desk.specs.Answering.{IsCallAnswer, IsCalledBetween, IsCalledOf, IsWhyUnrenewed};
ghost use Rattle.desk.specs.Calls.{asked_in};
ghost use Rattle.desk.specs.Requests.{is_no_room};
ghost use Rattle.desk.specs.Worth.{IsWorthIt};
ghost use Rattle.workers.specs.Moments.{GoesOnLater, IsBetween};
ghost use Rattle.workers.specs.Seen.{IsRenewedBetween};
ghost use Rattle.workers.specs.Usage.{HasItemsOf, IsUsageOf};

use crate::calls::{Asked, answer_at_seat, asked_in};
use crate::counter::Counter;
use crate::worth::is_worth_it;
use arena::SlotId;
use events::copied;
use std::sync::Wait;
use wire::{Answer, Request};
use words::{Client, Refusal};
use workers::{Marked, Naming, Usage};

/// Whether a call found no room.
fn is_no_room(answer: &Answer) -> bool
    ensures { result ≡ is_no_room answer.now }
{
    matches!(answer, Answer::Refused(Refusal::NoRoom))
}

/// A queue that is to begin in fresh records, and what it holds. It is no `Drop`, and only [`Counter::renewed_for`] takes
/// it: the queue begins so.
struct Worth {
    slot: SlotId,
    held: Usage,
}

/// A queue that began in fresh records for a call, and what it held before. It is no `Drop`, and only [`Renewed::call`]
/// takes it: the call is made once more.
struct Renewed {
    slot: SlotId,
    held: Usage,
}

impl Renewed {
    /// The call that found no room before.
    fn call<J: Naming, R: Wait>(
        self,
        rt: &R,
        counter: &Counter<'_, J>,
        before: Marked<J>,
        client: Client,
        request: &Request,
    ) -> (Marked<J>, Answer)
        ensures is { IfSome (asked_in request.now) (λ asked. IsCallAnswer J.first before result.0 client asked result.1) }
        ensures later { GoesOnLater before result.0 }
    {
        let Renewed { slot: _, held: _ } = self;
        counter.call_once(rt, before, client, request)
    }
}

impl<J: Naming> Counter<'_, J> {
    /// A put or a take of this client, made once. It is refused where another connection is using the client's seat
    /// (Busy), and as [`answer_at_seat`] is.
    fn call_once<R: Wait>(
        &self,
        rt: &R,
        before: Marked<J>,
        client: Client,
        request: &Request,
    ) -> (Marked<J>, Answer)
        ensures is { IfSome (asked_in request.now) (λ asked. IsCallAnswer J.first before result.0 client asked result.1) }
        ensures later { GoesOnLater before result.0 }
    {
        let Some((owed, seat)) = self.seats.take(rt, client) else {
            return (before, Answer::Refused(Refusal::Busy));
        };
        let (seat, marked, answer) = answer_at_seat(rt, self.shared, before, seat, copied(request));
        self.seats.put(rt, owed, seat);
        (marked, answer)
    }

    /// The slot of the queue of a call. It is refused where there is none (NoQueue), and as [`workers::Shared::find`] is.
    fn slot_of<R: Wait>(&self, rt: &R, asked: Asked) -> Result<SlotId, Refusal>
        ensures errors { IfErr result IsWhyUnrenewed }
    {
        let Some(name) = asked.queue else {
            return Err(Refusal::NoQueue);
        };
        match self.shared.find(rt, &name) {
            Ok(Some(slot)) => Ok(slot),
            Ok(None) => Err(Refusal::NoQueue),
            Err(refusal) => Err(refusal),
        }
    }

    /// The queue of a call that found no room, if it is worth it that this begins in fresh records: else it is refused as
    /// the call was (NoRoom). It is refused also as [`workers::Shared::find`] and [`workers::Shared::usage`] are.
    fn worth_of<R: Wait>(
        &self,
        rt: &R,
        before: Marked<J>,
        client: Client,
        asked: Asked,
    ) -> (Marked<J>, Result<Worth, Refusal>)
        requires { client.0 < J.clients }
        ensures worth { IfOk result.1 (λ worth. IsWorthIt worth.held client asked.call) }
        ensures items { IfOk result.1 (λ worth. HasItemsOf result.0 worth.slot.0 worth.held) }
        ensures counts { IfOk result.1 (λ worth. IsUsageOf J.clients J.first worth.held) }
        ensures errors { IfErr result.1 IsWhyUnrenewed }
        ensures later { GoesOnLater before result.0 }
    {
        let slot = match self.slot_of(rt, asked) {
            Ok(slot) => slot,
            Err(refusal) => return (before, Err(refusal)),
        };
        let (marked, held) = self.shared.usage(rt, slot, before);
        match held {
            Ok(held) if is_worth_it(held, client, &asked.call) => (
                marked,
                Ok(Worth { slot, held }),
            ),
            Ok(_) => (marked, Err(Refusal::NoRoom)),
            Err(refusal) => (marked, Err(refusal)),
        }
    }

    /// That queue begins in fresh records. It is refused also as [`seating::Seating::renew`] is.
    fn renewed_for<R: Wait>(
        &self,
        rt: &R,
        before: Marked<J>,
        client: Client,
        asked: Asked,
    ) -> (Marked<J>, Result<Renewed, Refusal>)
        requires { client.0 < J.clients }
        ensures worth { IfOk result.1 (λ renewed. IsWorthIt renewed.held client asked.call) }
        ensures counts { IfOk result.1 (λ renewed. IsUsageOf J.clients J.first renewed.held) }
        ensures items { IfOk result.1 (λ renewed. IsBetween before result.0
            (λ s. HasItemsOf s renewed.slot.0 renewed.held)) }
        ensures renewed { IfOk result.1 (λ renewed. IsRenewedBetween before result.0 renewed.slot.0) }
        ensures errors { IfErr result.1 IsWhyUnrenewed }
        ensures later { GoesOnLater before result.0 }
    {
        let (marked, worth) = self.worth_of(rt, before, client, asked);
        let Worth { slot, held } = match worth {
            Ok(worth) => worth,
            Err(refusal) => return (marked, Err(refusal)),
        };
        let (marked, renewed) = self.seats.renew(rt, self.shared, slot, marked);
        match renewed {
            Ok(()) => (marked, Ok(Renewed { slot, held })),
            Err(refusal) => (marked, Err(refusal)),
        }
    }

    /// A put or a take that found no room while others were at work: nobody is any more. If it still finds none, its
    /// queue is renewed, and it is made once more.
    fn call_at_rest<R: Wait>(
        &self,
        rt: &R,
        before: Marked<J>,
        client: Client,
        request: &Request,
    ) -> (Marked<J>, Answer)
        requires { client.0 < J.clients }
        ensures { IsCalledBetween J.first before result.0 client (asked_in request.now) result.1 }
    {
        // Another connection may have renewed the queue meanwhile.
        let (marked, answer) = self.call_once(rt, before, client, request);
        if !is_no_room(&answer) {
            return (marked, answer);
        }
        let Some(asked) = asked_in(copied(request)) else {
            return (marked, answer);
        };
        let (marked, renewed) = self.renewed_for(rt, marked, client, asked);
        match renewed {
            Ok(renewed) => renewed.call(rt, self, marked, client, request),
            Err(refusal) => (marked, Answer::Refused(refusal)),
        }
    }

    /// A put or a take while others are at work.
    fn call_at_work<R: Wait>(
        &self,
        rt: &R,
        before: Marked<J>,
        client: Client,
        request: &Request,
    ) -> (Marked<J>, Answer)
        ensures is { IfSome (asked_in request.now) (λ asked. IsCallAnswer J.first before result.0 client asked result.1) }
        ensures later { GoesOnLater before result.0 }
    {
        let _work = self.seats.at_work(rt);
        self.call_once(rt, before, client, request)
    }

    /// A put or a take of a client. It is refused where there is no such client (NoClient), where another connection is
    /// using the client's seat (Busy), and as [`answer_at_seat`] is. Where it finds no room and queues are renewed, it
    /// waits until no connection is at work, its queue is renewed if that is worth it, and it is made once more. Then it
    /// is refused also for want of memory for the renewal (NoMemory), and where a client's call could not be finished
    /// (Busy).
    pub(crate) fn call<R: Wait>(
        &self,
        rt: &R,
        before: Marked<J>,
        number: u64,
        request: Request,
    ) -> (Marked<J>, Answer)
        ensures { IsCalledOf J.clients J.first before result.0 number (asked_in request) result.1 }
    {
        let Some(client) = self.seats.client(number) else {
            return (before, Answer::Refused(Refusal::NoClient));
        };
        let (marked, answer) = self.call_at_work(rt, before, client, &request);
        if !is_no_room(&answer) {
            return (marked, answer);
        }
        let Some(_rest) = self.seats.at_rest(rt) else {
            return (marked, answer);
        };
        self.call_at_rest(rt, marked, client, &request)
    }
}
