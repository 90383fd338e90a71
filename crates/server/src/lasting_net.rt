//! Serving connections with a journal.

ghost use Rattle.std.specs.Prelude.{◌≡◌, max, All, IfOk, vec_len};
ghost use Rattle.session.specs.Sessions.{IsUncalled};
ghost use Rattle.workers.specs.Moments.{GoesOnLater, IsFirstMoment};
ghost use Rattle.workers.specs.Opening.{IsNameOf};
ghost use Rattle.serving.specs.Image.{IsOpenedOver};
ghost use Rattle.server.specs.Worked.{AreKnown, IsLeftServed, settled_told};

use crate::connections::{InJournal, LastingWorker};
use crate::lasting_broker::LastingBroker;
use crate::listening::{Entrance, Service, work};
use crate::stopping::Stopping;
use journal_file::Storage;
use lasting::{Settler, Settling, SharedJournal};
use log::Log;
use named::Broker;
use seating::Seating;
use serving::{Journaling, Left, Noted, Unserved, begin_noting};
use std::alloc::{AllocError, Global};
use std::marker::Brand;
use std::net::Net;
use std::sync::Wait;
use std::thread::Threads;
use std::time::Clock;
use words::Refusal;
use workers::{Assured, Naming};

/// The last token of each worker that has one.
fn tokens_of<J: Naming + Settling, S: Storage + Drop>(
    alloc: Global,
    workers: Vec<LastingWorker<'_, J, S>>,
) -> Result<Vec<Assured<J>>, AllocError>
    ensures { IfOk result (λ tokens. AreKnown settled_told J.clients J.first (vec_len workers.entry) tokens.items) }
{
    let mut tokens = Vec::new(alloc);
    tokens.reserve(workers.len())?;
    for worker in workers {
        if let Some(token) = worker.into_token() {
            tokens.push_reserved(token);
        }
    }
    Ok(tokens)
}

/// Takes connections and serves them, as [`work`] does, and answers the tokens of those who served.
fn serve_seats<
    J: Naming + Settling + Send + Sync,
    S: Storage + Drop + Send,
    R: Threads + Wait + Net + Clock + Log + Sync,
>(
    rt: &R,
    alloc: Global,
    seats: &Seating<J>,
    journal: &SharedJournal<'_, J, S>,
    workers: u32,
    entrance: &Entrance<'_>,
) -> Result<Vec<Assured<J>>, AllocError>
    ensures { IfOk result (λ tokens. AreKnown settled_told J.clients J.first workers tokens.items) }
{
    let stopping = Stopping::new(alloc)?;
    let desks = InJournal {
        journal,
        seats,
        stopping: &stopping,
    };
    let workers = work(rt, alloc, &desks, &stopping, workers, entrance)?;
    tokens_of(alloc, workers)
}

/// Hears tokens: the journal assures the session of each, and its last hand-on goes on from it.
fn all_heard<J: Naming, S: Storage + Drop>(
    mut settler: Settler<J, S>,
    tokens: Vec<Assured<J>>,
) -> Settler<J, S>
    ensures settler { result ≡ settler }
    ensures heard { All (λ sure. GoesOnLater sure settler.kept.last) tokens.items }
{
    for token in tokens {
        settler = settler.hears(token).0;
    }
    settler
}

/// Serves connections to the end, settles and keeps what no reply told of, and answers who settles, and the tokens of
/// those who served.
fn serve_to_end<
    J: Naming + Settling + Send + Sync,
    S: Storage + Drop + Send,
    R: Threads + Wait + Net + Clock + Log + Sync,
>(
    rt: &R,
    alloc: Global,
    seats: &Seating<J>,
    journal: SharedJournal<'_, J, S>,
    workers: u32,
    entrance: &Entrance<'_>,
) -> Result<(Settler<J, S>, Vec<Assured<J>>), AllocError>
    ensures policy { IfOk result (λ r. r.0.policy ≡ J.policy) }
    ensures settled { IfOk result (λ r. AreKnown settled_told J.clients J.first workers r.1.items) }
{
    let tokens = serve_seats(rt, alloc, seats, &journal, workers, entrance)?;
    // Where that fails for good, nothing is left.
    let _ = journal.settle_and_keep(rt);
    Ok((journal.into_settler(), tokens))
}

/// Serves, once the broker has its name.
fn served<
    J: Naming + Settling + Send + Sync,
    S: Storage + Drop + Send,
    R: Threads + Wait + Net + Clock + Log + Sync,
>(
    rt: &R,
    alloc: Global,
    noted: Noted,
    service: Service,
    journaling: Journaling<S>,
    entrance: &Entrance<'_>,
) -> Result<Left<S>, Unserved>
    requires name { IsNameOf J.roll J.clients J.first noted.noting }
    requires words { noted.words.items ≡ J.first.broker.words.kept }
    requires moment { IsFirstMoment J.first }
    requires policy { journaling.policy ≡ J.policy }
    requires opened { IsOpenedOver J.first.broker J.first }
    ensures { IfOk result (λ left.
        IsLeftServed J.first.broker (max service.workers 1) left.image.items left.journal) }
{
    let LastingBroker {
        shared,
        seats,
        settler,
    } = LastingBroker::<J, S>::begin(alloc, noted, service.renew, journaling)?;
    let journal = SharedJournal::new(alloc, &shared, settler);
    let workers = service.workers.max(1);
    match serve_to_end(rt, alloc, &seats, journal, workers, entrance) {
        Ok((settler, tokens)) => LastingBroker {
            shared,
            seats,
            settler: all_heard(settler, tokens),
        }
        .end(alloc),
        Err(_) => Err(Unserved::Refused(Refusal::NoMemory)),
    }
}

/// Serves connections as [`crate::net`] does, with a journal of all that is done, which begins on a fresh device of the
/// storage before any connection is taken. No reply is written before what it tells of is appended, and kept where the
/// policy is to keep always. Where the device fails, the journal goes on on a fresh one, and where that fails too, the
/// connections end without their replies, no more are taken, and it answers NotKept. It is refused as `net` is, and
/// where the journal cannot begin (WriteFailed).
pub fn net_lasting<S: Storage + Drop + Send, R: Threads + Wait + Net + Clock + Log + Sync>(
    rt: &R,
    alloc: Global,
    broker: Broker,
    service: Service,
    journaling: Journaling<S>,
    entrance: &Entrance<'_>,
) -> Result<Left<S>, Unserved>
    requires { IsUncalled broker }
    // The session whose image and journal are left goes on from what as many workers settled, each request in turn.
    ensures { IfOk result (λ left. IsLeftServed broker (max service.workers 1) left.image.items left.journal) }
{
    let noted = begin_noting(alloc, broker)?;
    served::<Brand, S, R>(rt, alloc, noted, service, journaling, entrance)
}
