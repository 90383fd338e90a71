//! A broker that is served with a journal: as it begins, once it has its name, and what it leaves.

ghost use Rattle.std.specs.Prelude.{◌≡◌, IfOk};
ghost use Rattle.workers.specs.Moments.{IsFirstMoment};
ghost use Rattle.workers.specs.Opening.{IsNameOf};
ghost use Rattle.workers.specs.Seats.{AreAllInOrder};
ghost use Rattle.serving.specs.Journaled.{IsLeftSince};

use crate::ending::seated;
use journal_file::Storage;
use lasting::Settler;
use seating::Seating;
use serving::{Journaling, Left, Noted, Unserved};
use std::alloc::Global;
use words::Refusal;
use workers::{Naming, Seat, Shared};

/// A broker that connections share, their seats, and who settles what is done in its journal.
#[derive(Drop)]
pub(crate) struct LastingBroker<J: Naming, S: Storage + Drop> {
    pub(crate) shared: Shared<J>,
    pub(crate) seats: Seating<J>,
    pub(crate) settler: Settler<J, S>,
}

impl<J: Naming, S: Storage + Drop> LastingBroker<J, S> {
    /// It, on a fresh device of the storage. It is refused for want of memory (NoMemory), and where the journal cannot
    /// begin (WriteFailed).
    pub(crate) fn begin(
        alloc: Global,
        noted: Noted,
        renew: bool,
        journaling: Journaling<S>,
    ) -> Result<Self, Refusal>
        requires name { IsNameOf J.roll J.clients J.first noted.noting }
        requires words { noted.words.items ≡ J.first.broker.words.kept }
        requires moment { IsFirstMoment J.first }
        ensures { IfOk result (λ broker. broker.settler.policy ≡ journaling.policy) }
    {
        let Noted { noting, words } = noted;
        let (shared, seats, operator, handed) = match noting.named::<J>(alloc) {
            Ok(named) => named,
            Err(not) => return Err(not.refusal),
        };
        let seats = seated(alloc, seats, operator, renew)?;
        match Settler::begin(alloc, handed, words, journaling.storage, journaling.policy) {
            Ok(settler) => Ok(LastingBroker {
                shared,
                seats,
                settler,
            }),
            Err(refusal) => Err(refusal),
        }
    }

    /// What is left of it once all connections have ended: the image, and the journal with its last batch, which is kept.
    /// It is refused as [`crate::ending::image_left`] is; and NotKept where the journal failed.
    pub(crate) fn end(self, alloc: Global) -> Result<Left<S>, Unserved>
        ensures { IfOk result
            (λ left. IsLeftSince J.first self.settler.kept.last left.image.items left.journal) }
    {
        let LastingBroker {
            shared,
            seats,
            settler,
        } = self;
        match seats.into_parts(alloc) {
            Ok((seats, _operator)) => left_of(alloc, shared, seats, settler),
            Err(refusal) => Err(Unserved::Refused(refusal)),
        }
    }
}

/// What is left once these seats are taken back.
fn left_of<J: Naming, S: Storage + Drop>(
    alloc: Global,
    shared: Shared<J>,
    seats: Vec<Seat<J>>,
    settler: Settler<J, S>,
) -> Result<Left<S>, Unserved>
    requires { AreAllInOrder (λ seat. seat.client) J.clients seats.items }
    ensures { IfOk result (λ left. IsLeftSince J.first settler.kept.last left.image.items left.journal) }
{
    let (session, journal, ended) = settler.close(alloc, shared, seats);
    if ended.is_err() {
        return Err(Unserved::NotKept);
    }
    match session.broker().to_image() {
        Ok(image) => Ok(Left { image, journal }),
        Err(refusal) => Err(Unserved::Refused(refusal)),
    }
}
