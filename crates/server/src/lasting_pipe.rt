//! Serving one reader and one writer with a journal.
// A clause that names the reader and the writer before and after may be longer than 120 columns.

ghost use Rattle.std.specs.Prelude.{◌≡◌, ◌<◌, ◌⊎◌, IfOk, IfSome, Ok, OnErr};
ghost use Rattle.session.specs.Sessions.{IsUncalled};
ghost use Rattle.workers.specs.Moments.{GoesOnLater, IsFirstMoment};
ghost use Rattle.workers.specs.Opening.{IsNameOf};
ghost use Rattle.serving.specs.Connections.{unserved, IsServedLastingly, TellsBy, TellsSomehow};
ghost use Rattle.serving.specs.Image.{IsOpenedOver};
ghost use Rattle.serving.specs.Journaled.{IsPiped, IsPipedTo};

use crate::lasting_broker::LastingBroker;
use devices::{MAX_FAILURES, Reader, Writer};
use engine::Failure;
use journal_file::Storage;
use lasting::{Policy, Settler, Settling, SharedJournal};
use named::Broker;
use seating::Seating;
use serving::{
    Journaling, LastingDesk, Left, Noted, StoppingDesk, Unserved, begin_noting, lasting_connection,
};
use std::alloc::Global;
use std::marker::Brand;
use std::sync::Wait;
use std::sync::atomic::{AtomicBool, Ordering};
use std::thread::{Threads, join_mut};
use std::time::Clock;
use words::Refusal;
use workers::{Assured, Naming};

/// How a reader and a writer were served, and the last token of their desk.
struct Piped<J: Naming> {
    token: Option<Assured<J>>,
    ended: Result<(), Failure>,
}

/// Serves the requests of the reader to the writer, at a desk that settles them in the journal. It is refused for want of
/// memory for the desk (NoMemory), and then nothing is read or written.
fn serve_settling<J: Naming + Settling, S: Storage + Drop, T: Wait, R: Reader, W: Writer>(
    rt: &T,
    alloc: Global,
    seats: &Seating<J>,
    journal: &SharedJournal<'_, J, S>,
    reader: &mut R,
    writer: &mut W,
) -> Result<Piped<J>, Refusal>
    requires reader { R.failures reader.old < MAX_FAILURES }
    requires writer { W.failures writer.old < MAX_FAILURES }
    ensures served { IfOk result (λ piped. IsServedLastingly J.clients J.first piped.token (λ served.
        TellsBy R.Reader W.Writer unserved served piped.ended reader.old reader.new writer.old writer.new)) }
    ensures unread { OnErr result ((reader.new ≡ reader.old) × (writer.new ≡ writer.old)) }
{
    let said = AtomicBool::new(false);
    let desk = match LastingDesk::new(rt, alloc, seats, journal) {
        Ok(desk) => desk,
        Err(_) => return Err(Refusal::NoMemory),
    };
    let mut desk = StoppingDesk::new(desk, &said);
    let ended = lasting_connection(rt, alloc, &mut desk, reader, writer);
    let token = desk.into_desk().into_desk().into_token();
    Ok(Piped { token, ended })
}

/// The same, and beside it another thread keeps the journal, where it is to be kept each second.
fn serve_beside<
    J: Naming + Settling + Send + Sync,
    S: Storage + Drop + Send,
    T: Threads + Wait + Clock + Sync,
    R: Reader,
    W: Writer,
>(
    rt: &T,
    alloc: Global,
    seats: &Seating<J>,
    journal: &SharedJournal<'_, J, S>,
    reader: &mut R,
    writer: &mut W,
) -> Result<Piped<J>, Refusal>
    requires reader { R.failures reader.old < MAX_FAILURES }
    requires writer { W.failures writer.old < MAX_FAILURES }
    ensures served { IfOk result (λ piped. IsServedLastingly J.clients J.first piped.token (λ served.
        TellsBy R.Reader W.Writer unserved served piped.ended reader.old reader.new writer.old writer.new)) }
    ensures unread { OnErr result ((reader.new ≡ reader.old) × (writer.new ≡ writer.old)) }
{
    if journal.policy() != Policy::EachSecond {
        return serve_settling(rt, alloc, seats, journal, reader, writer);
    }
    let ended = AtomicBool::new(false);
    let ((), served) = join_mut(
        rt,
        &mut || journal.keep_each_second(rt, &ended),
        &mut || {
            let served = serve_settling(rt, alloc, seats, journal, reader, writer);
            ended.store(true, Ordering::SeqCst);
            served
        },
    );
    served
}

/// Hears the desk's last token, if it has one: the journal assures its session, and its last hand-on goes on from it.
fn heard<J: Naming, S: Storage + Drop>(
    settler: Settler<J, S>,
    token: Option<Assured<J>>,
) -> Settler<J, S>
    ensures settler { result ≡ settler }
    ensures heard { IfSome token (λ sure. GoesOnLater sure settler.kept.last) }
{
    match token {
        Some(token) => settler.hears(token).0,
        None => settler,
    }
}

/// Serves, once the broker has its name. What no reply told of is settled and kept at the end.
fn served<
    J: Naming + Settling + Send + Sync,
    S: Storage + Drop + Send,
    T: Threads + Wait + Clock + Sync,
    R: Reader,
    W: Writer,
>(
    rt: &T,
    alloc: Global,
    noted: Noted,
    journaling: Journaling<S>,
    reader: &mut R,
    writer: &mut W,
) -> Result<Left<S>, Unserved>
    requires name { IsNameOf J.roll J.clients J.first noted.noting }
    requires words { noted.words.items ≡ J.first.broker.words.kept }
    requires moment { IsFirstMoment J.first }
    requires policy { journaling.policy ≡ J.policy }
    requires opened { IsOpenedOver J.first.broker J.first }
    requires reader { R.failures reader.old < MAX_FAILURES }
    requires writer { W.failures writer.old < MAX_FAILURES }
    ensures left { IfOk result (λ left. IsPipedTo J.first.broker left.image.items left.journal (λ served.
        TellsBy R.Reader W.Writer unserved served (Ok tt) reader.old reader.new writer.old writer.new)) }
    ensures unleft { OnErr result (((reader.new ≡ reader.old) × (writer.new ≡ writer.old))
        ⊎ IsPiped J.first.broker (λ served.
        TellsSomehow R.Reader W.Writer unserved served reader.old reader.new writer.old writer.new)) }
{
    let LastingBroker {
        shared,
        seats,
        settler,
    } = LastingBroker::<J, S>::begin(alloc, noted, false, journaling)?;
    let journal = SharedJournal::new(alloc, &shared, settler);
    let served = serve_beside(rt, alloc, &seats, &journal, reader, writer);
    // Where that fails for good, nothing is left.
    let _ = journal.settle_and_keep(rt);
    let settler = journal.into_settler();
    let Piped { token, ended } = served?;
    let broker = LastingBroker {
        shared,
        seats,
        settler: heard(settler, token),
    };
    let left = broker.end(alloc)?;
    ended?;
    Ok(left)
}

/// Serves a reader and a writer as [`serving::pipe`] does, with a journal of all that is done, which begins on a fresh
/// device of the storage before anything is read. No reply is written before what it tells of is appended, and kept
/// where the policy is to keep always. Where the device fails, the journal goes on on a fresh one. Where that fails too,
/// or memory for it is refused, it ends without the replies and answers NotKept. It is refused as `pipe` is, and where
/// the journal cannot begin (WriteFailed). The thread that keeps it each second is another one.
pub fn pipe_lasting<
    S: Storage + Drop + Send,
    T: Threads + Wait + Clock + Sync,
    R: Reader,
    W: Writer,
>(
    rt: &T,
    alloc: Global,
    broker: Broker,
    journaling: Journaling<S>,
    reader: &mut R,
    writer: &mut W,
) -> Result<Left<S>, Unserved>
    requires broker { IsUncalled broker }
    requires reader { R.failures reader.old < MAX_FAILURES }
    requires writer { W.failures writer.old < MAX_FAILURES }
    // One reply for each line was written, and nothing else. What they tell of is so at a session from which the one goes
    // on whose image and journal are left.
    ensures left { IfOk result (λ left. IsPipedTo broker left.image.items left.journal (λ served.
        TellsBy R.Reader W.Writer unserved served (Ok tt) reader.old reader.new writer.old writer.new)) }
    // Nothing was read or written, or it was served as far as a device, the journal or memory let it.
    ensures unleft { OnErr result (((reader.new ≡ reader.old) × (writer.new ≡ writer.old))
        ⊎ IsPiped broker (λ served.
        TellsSomehow R.Reader W.Writer unserved served reader.old reader.new writer.old writer.new)) }
{
    let noted = begin_noting(alloc, broker)?;
    served::<Brand, S, T, R, W>(rt, alloc, noted, journaling, reader, writer)
}
