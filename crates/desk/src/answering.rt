//! What each request is answered.

ghost use Rattle.std.specs.Prelude.{◌≡◌};
ghost use Rattle.desk.specs.Answering.{answer_as, creation_on_wire, IsAnsweredBetween, IsCreationAnswer};
ghost use Rattle.desk.specs.Answering.{IsCrashAt, IsRecoveryAt, IsTellingIn, IsToldOf, OfClient, Says};
ghost use Rattle.wire.specs.declared.answer.Answer.TheVariants.{Crashed, Queues, Ready, Told as told_answer};
ghost use Rattle.workers.specs.Moments.{GoesOnLater};
ghost use Rattle.workers.specs.Seen.{IsListing};

use crate::calls::nameless;
use crate::counter::Counter;
use directory::Name;
use std::sync::Wait;
use wire::{Answer, Request};
use words::{Kind, Refusal, Told};
use workers::{Created, Marked, Naming, Shared};

/// What a connection is told of a creation.
fn on_wire(created: Created) -> Answer
    ensures { result ≡ creation_on_wire created }
{
    match created {
        Created::Queue(slot) => Answer::Created(slot),
        Created::Refused(refusal) => Answer::Refused(refusal),
        Created::Interrupted => Answer::Interrupted,
    }
}

/// All queues.
fn list<J: Naming, R: Wait>(rt: &R, shared: &Shared<J>, before: Marked<J>) -> (Marked<J>, Answer)
    ensures is { Says Queues result.1 (IsListing result.0.broker) }
    ensures later { GoesOnLater before result.0 }
{
    let (marked, listed) = shared.list(rt, before);
    match listed {
        Ok(places) => (marked, Answer::Queues(places)),
        Err(refusal) => (marked, Answer::Refused(refusal)),
    }
}

/// The answer, where what was asked for was done.
fn done(outcome: Result<(), Refusal>, answer: Answer) -> Answer
    ensures { result ≡ answer_as (λ done. answer) outcome }
{
    match outcome {
        Ok(()) => answer,
        Err(refusal) => Answer::Refused(refusal),
    }
}

impl<J: Naming> Counter<'_, J> {
    /// What a connection is told of a queue to be created.
    fn create<R: Wait>(
        &self,
        rt: &R,
        before: Marked<J>,
        queue: Option<Name>,
        kind: Kind,
    ) -> (Marked<J>, Answer)
        ensures is { IsCreationAnswer before result.0 queue (λ name. record { name = name; kind = kind }) result.1 }
        ensures later { GoesOnLater before result.0 }
    {
        let _work = self.seats.at_work(rt);
        let Some(name) = queue else {
            return (before, Answer::Refused(Refusal::BadName));
        };
        let (marked, created) = self.shared.create(rt, name.as_bytes(), kind, before);
        (marked, on_wire(created))
    }

    /// What the client was last told in a queue. It is refused where there is no such client (NoClient), while the
    /// broker recovers (NotReady), and where there is no such queue (NoQueue).
    fn told<R: Wait>(
        &self,
        rt: &R,
        before: Marked<J>,
        number: u64,
        queue: Option<Name>,
    ) -> (Marked<J>, Result<Told, Refusal>)
        ensures is { IsToldOf J.clients result.0.broker number queue result.1 }
        ensures later { GoesOnLater before result.0 }
    {
        let Some(client) = self.seats.client(number) else {
            return (before, Err(Refusal::NoClient));
        };
        let Some(name) = queue else {
            let (marked, refusal) = nameless(rt, self.shared, before);
            return (marked, Err(refusal));
        };
        self.shared.told(rt, client, &name, before)
    }

    /// What a connection is told of that.
    fn tell<R: Wait>(
        &self,
        rt: &R,
        before: Marked<J>,
        number: u64,
        queue: Option<Name>,
    ) -> (Marked<J>, Answer)
        ensures is { OfClient J.clients number result.1
            (λ client. Says told_answer result.1 (IsTellingIn result.0.broker client queue)) }
        ensures later { GoesOnLater before result.0 }
    {
        let (marked, told) = self.told(rt, before, number, queue);
        match told {
            Ok(told) => (marked, Answer::Told(told)),
            Err(refusal) => (marked, Answer::Refused(refusal)),
        }
    }

    /// The whole system stops.
    fn crash<R: Wait>(&self, rt: &R, before: Marked<J>) -> (Marked<J>, Answer)
        ensures is { Says (λ done. Crashed) result.1 (IsCrashAt before result.0) }
        ensures later { GoesOnLater before result.0 }
    {
        let _work = self.seats.at_work(rt);
        let (marked, stopped) = self.seats.crash(rt, self.shared, before);
        (marked, done(stopped, Answer::Crashed))
    }

    /// The broker recovers until it is ready.
    fn recover<R: Wait>(&self, rt: &R, before: Marked<J>) -> (Marked<J>, Answer)
        ensures is { Says (λ done. Ready) result.1 (IsRecoveryAt before result.0) }
        ensures later { GoesOnLater before result.0 }
    {
        let _work = self.seats.at_work(rt);
        let (marked, recovered) = self.shared.recover(rt, before);
        (marked, done(recovered, Answer::Ready))
    }

    /// What a request is answered, once it was made, and a mark of the session, in the place of an earlier one.
    pub(crate) fn answer_to<R: Wait>(
        &self,
        rt: &R,
        before: Marked<J>,
        request: Request,
    ) -> (Marked<J>, Answer)
        ensures { IsAnsweredBetween J.clients J.first before result.0 request result.1 }
    {
        match request {
            Request::Create { queue, kind } => self.create(rt, before, queue, kind),
            Request::List => list(rt, self.shared, before),
            Request::Put { client, .. } => self.call(rt, before, client, request),
            Request::Take { client, .. } => self.call(rt, before, client, request),
            Request::Told { client, queue } => self.tell(rt, before, client, queue),
            Request::Crash => self.crash(rt, before),
            Request::Recover => self.recover(rt, before),
            Request::Stop => (before, Answer::Stopping),
        }
    }
}
