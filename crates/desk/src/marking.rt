//! The desk of a connection whose replies are to last before they are told.

ghost use Rattle.std.specs.Prelude.{◌≡◌, ◌++◌, ◌∷◌, [], IfOk, IfSome, None, Some};
ghost use Rattle.chronicle.specs.Chronicled.{entries};
ghost use Rattle.desk.specs.Answering.{IsServedAtMark, IsServedInTurn};

use crate::counter::Counter;
use chronicle::Chronicle;
use events::copied;
use seating::Seating;
use std::alloc::{AllocError, Global};
use std::marker::Model;
use std::sync::Wait;
use wire::{Answer, Request};
use workers::{Assured, Marked, Naming, Shared};

/// Where the requests of one connection are answered, by a broker that connections share. Whoever makes the session last says so with a token ([`MarkingDesk::assure`]).
#[derive(Drop)]
pub struct MarkingDesk<'a, J: Naming> {
    counter: Counter<'a, J>,
    served: Chronicle<(Request, Answer)>,
    assured: Option<Assured<J>>,
}

impl<'a, J: Naming> Model for MarkingDesk<'a, J> {
    ghost use Rattle.std.specs.Prelude.{◌≡◌};
    ghost use Rattle.desk.specs.Serving.{Desked, IsDesked};

    ghost Value = { Desked };

    ghost view = { λ d. record { served = d.served; marked = d.counter.marked; assured = d.assured } };

    ghost invariant = { λ d. IsDesked J.clients J.first (record {
      served = d.served;
      marked = d.counter.marked;
      assured = d.assured;
    }) };
}

impl<'a, J: Naming> MarkingDesk<'a, J> {
    /// A desk that has served nothing. It takes memory for one word, and none for what it serves.
    pub fn new<R: Wait>(
        rt: &R,
        alloc: Global,
        shared: &'a Shared<J>,
        seats: &'a Seating<J>,
    ) -> Result<Self, AllocError>
        ensures served { IfOk result (λ desk. entries desk.served ≡ []) }
    {
        let served = Chronicle::begin(alloc)?;
        let marked = shared.mark_now(rt);
        Ok(MarkingDesk {
            counter: Counter::new(shared, seats, marked),
            served,
            assured: None,
        })
    }

    /// What it has answered: each request in turn, by what the session was then, up to the session as it was marked last.
    /// So it is of what is settled, up to the session of the last token. Without a token nothing is settled.
    pub fn has_told(&self)
        ensures turn { IsServedAtMark J.clients J.first (entries self.now.served) self.now.marked }
        ensures lasting { IfSome self.now.assured (IsServedInTurn J.clients J.first self.now.served.settled) }
        ensures known { self.now.assured ≡ None → self.now.served.settled ≡ [] }
    {
        // A look at a field brings in the invariant.
        let _ = &self.counter;
    }

    /// The last token, where there is one: whoever has the journal's settler hears of it that the journal assures its
    /// session.
    pub fn into_token(self) -> Option<Assured<J>>
        ensures { result ≡ self.entry.assured }
    {
        self.assured
    }

    /// Makes the request, answers it, and marks the session.
    pub fn answer<R: Wait>(&mut self, rt: &R, request: Request) -> Answer
        ensures served { entries self.new.served ≡ entries self.old.served ++ (request, result) ∷ [] }
        ensures settled { self.new.served.settled ≡ self.old.served.settled }
        ensures assured { self.new.assured ≡ self.old.assured }
    {
        let made = (copied(&request), self.counter.answer(rt, request));
        self.served.note(&made);
        made.1
    }

    /// A mark of the session as it is now, up to which all was answered: whoever makes that session last may say so.
    pub fn mark<R: Wait>(&mut self, rt: &R) -> Marked<J>
        ensures stand { IsServedInTurn J.clients J.first (entries self.new.served) result }
        ensures served { self.new.served ≡ self.old.served }
        ensures assured { self.new.assured ≡ self.old.assured }
    {
        self.counter.mark_now(rt)
    }

    /// All that it has served is settled, since the token's session lasts, up to which all was answered.
    pub fn assure(&mut self, assured: Assured<J>)
        requires { IsServedInTurn J.clients J.first (entries self.old.served) assured }
        ensures served { entries self.new.served ≡ entries self.old.served }
        ensures settled { self.new.served.settled ≡ entries self.old.served }
        ensures assured { self.new.assured ≡ Some assured }
    {
        self.assured = Some(assured);
        self.served.settle();
    }
}
