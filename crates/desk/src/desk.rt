//! The desk of a connection.

ghost use Rattle.std.specs.Prelude.{◌≡◌, [], IfOk, refl};
ghost use Rattle.chronicle.specs.Chronicled.{entries};
ghost use Rattle.desk.specs.Answering.{IsServedAtMark};
ghost use Rattle.desk.specs.Requests.{is_stop_answer};
ghost use Rattle.desk.specs.Serving.{has_stopped};

use crate::counter::Counter;
use chronicle::Chronicle;
use devices::Failed;
use engine::Desk;
use events::copied;
use seating::Seating;
use std::alloc::{AllocError, Global};
use std::marker::Model;
use std::sync::Wait;
use wire::{Answer, Request};
use workers::{Marked, Naming, Shared};

/// Whether the answer is that the server stops.
fn is_stopping(answer: &Answer) -> bool
    ensures { result ≡ is_stop_answer answer.now }
{
    matches!(answer, Answer::Stopping)
}

/// Where the requests of one connection are answered, by a broker that connections share. Nothing that is done is
/// promised to last.
#[derive(Drop)]
pub struct BrokerDesk<'a, J: Naming> {
    counter: Counter<'a, J>,
    /// The requests that were made, with their answers, in order; and those of them that are settled.
    served: Chronicle<(Request, Answer)>,
    stopped: bool,
}

impl<'a, J: Naming> Model for BrokerDesk<'a, J> {
    ghost use Rattle.desk.specs.Serving.{IsServed, Served};

    ghost Value = { Served };

    ghost view = { λ d. record { served = d.served; marked = d.counter.marked; stopped = d.stopped } };

    ghost invariant = { λ d. IsServed J.clients J.first (record {
      served = d.served;
      marked = d.counter.marked;
      stopped = d.stopped;
    }) };
}

impl<'a, J: Naming> BrokerDesk<'a, J> {
    /// A desk that has served nothing. It takes memory for one word, and none for what it serves.
    pub fn new<R: Wait>(
        rt: &R,
        alloc: Global,
        shared: &'a Shared<J>,
        seats: &'a Seating<J>,
    ) -> Result<Self, AllocError>
        ensures { IfOk result (λ desk. entries desk.served ≡ []) }
    {
        let served = Chronicle::begin(alloc)?;
        let marked = shared.mark_now(rt);
        Ok(BrokerDesk {
            counter: Counter::new(shared, seats, marked),
            served,
            stopped: false,
        })
    }

    /// What it has answered: each request in turn, by what the session was then, up to the session as it was marked last.
    pub fn has_told(&self)
        ensures turn { IsServedAtMark J.clients J.first (entries self.now.served) self.now.marked }
    {
        // A look at a field brings in the invariant.
        let _ = &self.counter;
    }

    /// The mark of the session up to which it has answered: whoever takes the session back learns that it goes on from
    /// there. It is there.
    pub fn into_mark(self) -> Option<Marked<J>>
        ensures { result ≡ self.entry.marked }
    {
        self.counter.marked
    }

    /// Whether it has accepted a stop, after which nothing is served.
    pub fn is_stopped(&self) -> bool
        ensures { result ≡ has_stopped (entries self.now.served) }
    {
        self.stopped
    }
}

impl<J: Naming> Desk for BrokerDesk<'_, J> {
    ghost served = { λ desk. entries desk.served };

    ghost settled = { λ desk. desk.served.settled };

    ghost failures = { λ _. 0 };

    fn answer<R: Wait>(&mut self, rt: &R, request: Request) -> Answer {
        let made = (copied(&request), self.counter.answer(rt, request));
        self.stopped = is_stopping(&made.1);
        self.served.note(&made);
        made.1
    }

    fn settle<R: Wait>(&mut self, _rt: &R) -> Result<(), Failed> {
        self.served.settle();
        Ok(())
    }

    ghost begins = { λ desk. (desk.served.unsettled, refl) };
}
