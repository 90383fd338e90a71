//! The desk of a connection over a journal: a reply is written once the journal has what it tells of.

ghost use Rattle.std.specs.Prelude.{◌≡◌, [], IfOk, refl};
ghost use Rattle.chronicle.specs.Chronicled.{entries};

use desk::MarkingDesk;
use devices::Failed;
use engine::Desk;
use journal_file::Storage;
use lasting::{Settling, SharedJournal};
use seating::Seating;
use std::alloc::{AllocError, Global};
use std::sync::Wait;
use wire::{Answer, Request};
use workers::Naming;

/// Where the requests of one connection are answered, by a broker that connections share, and settled in its journal.
#[derive(Drop)]
pub struct LastingDesk<'a, 'j, J: Naming + Settling, S: Storage + Drop> {
    /// What is settled of it stands at the session of its last token, which the journal assures.
    pub desk: MarkingDesk<'a, J>,
    journal: &'a SharedJournal<'j, J, S>,
    /// How often it failed to settle.
    pub unsettled: u64,
}

impl<'a, 'j, J: Naming + Settling, S: Storage + Drop> LastingDesk<'a, 'j, J, S> {
    /// A desk that has served nothing. It takes memory for one word, and none for what it serves.
    pub fn new<R: Wait>(
        rt: &R,
        alloc: Global,
        seats: &'a Seating<J>,
        journal: &'a SharedJournal<'j, J, S>,
    ) -> Result<Self, AllocError>
        ensures served { IfOk result (λ desk. entries desk.desk.served ≡ []) }
        ensures unsettled { IfOk result (λ desk. desk.unsettled ≡ 0) }
    {
        let desk = MarkingDesk::new(rt, alloc, journal.shared(), seats)?;
        Ok(LastingDesk {
            desk,
            journal,
            unsettled: 0,
        })
    }

    /// The desk where its requests were answered.
    pub fn into_desk(self) -> MarkingDesk<'a, J>
        ensures { result ≡ self.entry.desk }
    {
        self.desk
    }
}

impl<J: Naming + Settling, S: Storage + Drop> Desk for LastingDesk<'_, '_, J, S> {
    ghost served = { λ desk. entries desk.desk.served };

    ghost settled = { λ desk. desk.desk.served.settled };

    ghost failures = { λ desk. desk.unsettled };

    fn answer<R: Wait>(&mut self, rt: &R, request: Request) -> Answer {
        self.desk.answer(rt, request)
    }

    fn settle<R: Wait>(&mut self, rt: &R) -> Result<(), Failed> {
        let marked = self.desk.mark(rt);
        match self.journal.settle_up_to(rt, marked) {
            Ok(assured) => {
                self.desk.assure(assured);
                Ok(())
            }
            Err(Failed) => {
                self.unsettled += 1;
                Err(Failed)
            }
        }
    }

    ghost begins = { λ desk. (desk.desk.served.unsettled, refl) };
}
