//! How a test's session comes to be shared under a name, and what is looked at when it is taken back.

ghost use Rattle.std.specs.Prelude.{IfOk};
ghost use Rattle.workers.specs.Opening.{IsNameOf};
ghost use Rattle.workers.specs.Seats.{AreAllInOrder};

use crate::lists::{Lengths, are_accounted_for, copied};
use session::Session;
use std::alloc::Global;
use std::test::Fail;
use test_support::are_explained;
use words::Refusal;
use workers::{Entry, Naming, Opened, Operator, Seat, Shared};

/// What is left of a shared session: the session that was taken back, and the lists of the clients.
#[derive(Drop)]
pub(crate) struct Played {
    pub(crate) session: Session,
    pub(crate) lists: Vec<Vec<Entry>>,
}

/// The session, about to be shared.
pub(crate) fn opened(alloc: Global, session: Session) -> Result<Opened, Refusal> {
    match Opened::new(alloc, session) {
        Ok(opened) => Ok(opened),
        Err(not) => Err(not.refusal),
    }
}

/// The shared session under its name, all seats, and the operator.
pub(crate) fn begun<J: Naming>(
    alloc: Global,
    opened: Opened,
) -> Result<(Shared<J>, Vec<Seat<J>>, Operator<J>), Fail>
    requires { IsNameOf J.roll J.clients J.first opened }
    ensures { IfOk result (λ r. AreAllInOrder (λ seat. seat.client) J.clients r.1.items) }
{
    match opened.named::<J>(alloc) {
        Ok(named) => Ok(named),
        Err(_) => Err(Fail::new("no seats")),
    }
}

/// Whether the lists fit the histories since these places, and orders explain these.
fn are_right(
    alloc: Global,
    session: &Session,
    lists: &[Vec<Entry>],
    since: &Lengths,
) -> Result<bool, Fail> {
    let fit = are_accounted_for(alloc, session, lists, since)?;
    Ok(fit && are_explained(alloc, session.broker())?)
}

/// The session is taken back. The lists have to fit the histories since these places, and orders have to explain these.
pub(crate) fn ended<J: Naming>(
    alloc: Global,
    shared: Shared<J>,
    seats: Vec<Seat<J>>,
    since: &Lengths,
) -> Result<Played, Fail>
    requires { AreAllInOrder (λ seat. seat.client) J.clients seats.items }
{
    let lists = copied(alloc, seats.as_slice())?;
    let session = shared.close(seats);
    if are_right(alloc, &session, lists.as_slice(), since)? {
        return Ok(Played { session, lists });
    }
    Err(Fail::new("lists or orders"))
}
