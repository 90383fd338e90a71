//! The desk.

ghost use Rattle.std.specs.Prelude.{◌≡◌, [], refl, IfOk};
ghost use Rattle.chronicle.specs.Chronicled.{entries};
ghost use Rattle.owning.specs.Serving.{GoesOnRight, Leads};
ghost use Rattle.desk.specs.Serving.{AreAnswered};
ghost use Rattle.session.specs.Promises.{KeepsNumbers};

use crate::answering::answer_to;
use crate::beginning::Beginning;
use chronicle::Chronicle;
use devices::Failed;
use engine::Desk;
use events::copied;
use session::Session;
use std::alloc::{AllocError, Global};
use std::marker::{Model, PhantomData};
use std::sync::Wait;
use wire::{Answer, Request};

/// Where the requests of the only connection are answered: it has the session for itself.
#[derive(Drop)]
pub struct OwningDesk<J: Beginning> {
    session: Session,
    /// The requests that were made, with their answers, in order; and those of them that are settled.
    served: Chronicle<(Request, Answer)>,
    of: PhantomData<J>,
}

impl<J: Beginning> Model for OwningDesk<J> {
    ghost use Rattle.owning.specs.Serving.{IsOwned, Owned};

    ghost Value = { Owned };

    ghost view = { λ d. record { session = d.session; served = d.served } };

    ghost invariant = { λ d. IsOwned J.first (record { session = d.session; served = d.served }) };
}

impl<J: Beginning> OwningDesk<J> {
    /// A desk that has served nothing. It takes memory for one word, and none for what it serves.
    pub fn new(alloc: Global, session: Session) -> Result<Self, AllocError>
        requires name { session ≡ J.first }
        requires promises { KeepsNumbers session }
        ensures session { IfOk result (λ desk. desk.session ≡ session) }
        ensures served { IfOk result (λ desk. entries desk.served ≡ []) }
    {
        let served = Chronicle::begin(alloc)?;
        Ok(OwningDesk {
            session,
            served,
            of: PhantomData,
        })
    }

    /// The session as what was served left it.
    pub fn into_session(self) -> Session
        ensures session { result ≡ self.session }
        ensures leads { Leads J.first (entries self.served) result }
        ensures answered { AreAnswered J.first.broker.counts.clients (entries self.served) }
        ensures goes_on { GoesOnRight J.first result }
    {
        self.session
    }
}

/// Nothing of it is promised to last longer than it does itself, so it settles always.
impl<J: Beginning> Desk for OwningDesk<J> {
    ghost served = { λ desk. entries desk.served };

    ghost settled = { λ desk. desk.served.settled };

    ghost failures = { λ _. 0 };

    fn answer<R: Wait>(&mut self, rt: &R, request: Request) -> Answer {
        let made = (copied(&request), answer_to(&mut self.session, request));
        self.served.note(&made);
        made.1
    }

    fn settle<R: Wait>(&mut self, _rt: &R) -> Result<(), Failed> {
        self.served.settle();
        Ok(())
    }

    ghost begins = { λ desk. (desk.served.unsettled, refl) };
}
