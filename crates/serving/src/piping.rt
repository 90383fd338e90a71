//! Serving one reader and one writer.
// A clause that names the reader and the writer before and after may be longer than 120 columns.

ghost use Rattle.std.specs.Prelude.{◌≡◌, ◌<◌, ◌↔◌, ◌⊎◌, IfErr, IfOk, IsErrOf, OnOk};
ghost use Rattle.devices.specs.Devices.{IsFlushed};
ghost use Rattle.session.specs.Promises.{KeepsNumbers};
ghost use Rattle.session.specs.Sessions.{IsUncalled};
ghost use Rattle.workers.specs.Opening.{IsInUse};
ghost use Rattle.serving.specs.Image.{IsOpenedOver};
ghost use Rattle.serving.specs.Piping.{IsServed, LeavesImage, MayEndPipe, MayEndServed, PipesAll, PipesRead, PipesSome};

use crate::json_lines::JsonLines;
use devices::{MAX_FAILURES, Reader, Writer};
use engine::{Failure, serve};
use named::Broker;
use owning::{Beginning, OwningDesk};
use session::Session;
use std::alloc::Global;
use std::marker::Brand;
use std::sync::Wait;
use words::Refusal;
use workers::is_in_use;

/// Serves, once the session has its name.
fn served<J: Beginning, T: Wait, R: Reader, W: Writer>(
    rt: &T,
    alloc: Global,
    session: Session,
    reader: &mut R,
    writer: &mut W,
) -> Result<Vec<u8>, Refusal>
    requires name { session ≡ J.first }
    requires promises { KeepsNumbers session }
    requires reader { R.failures reader.old < MAX_FAILURES }
    requires writer { W.failures writer.old < MAX_FAILURES }
    requires opened { IsOpenedOver session.broker session }
    ensures image { IfOk result (λ bytes.
        LeavesImage J.first.broker (PipesAll R.Reader W.Writer reader.old writer.old writer.new) bytes.items) }
    ensures flushed { OnOk result (IsFlushed (W.written writer.new) (W.flushed writer.new)) }
    ensures no_memory { IsErrOf result Refusal.NoMemory →
        ((reader.new ≡ reader.old) × (writer.new ≡ writer.old))
        ⊎ IsServed J.first.broker (PipesAll R.Reader W.Writer reader.old writer.old writer.new) }
    ensures read_failed { IsErrOf result Refusal.ReadFailed
        → IsServed J.first.broker (PipesRead R.Reader W.Writer reader.old reader.new writer.old writer.new) }
    ensures write_failed { IsErrOf result Refusal.WriteFailed
        → IsServed J.first.broker (PipesSome R.Reader W.Writer reader.old writer.old writer.new) }
    ensures read_fault { IsErrOf result Refusal.ReadFailed ↔ (R.failures reader.old < R.failures reader.new) }
    ensures write_fault { IsErrOf result Refusal.WriteFailed ↔ (W.failures writer.old < W.failures writer.new) }
    ensures errors { IfErr result MayEndServed }
{
    let Ok(mut desk) = OwningDesk::<J>::new(alloc, session) else {
        return Err(Refusal::NoMemory);
    };
    let served = serve::<T, JsonLines, R, W, OwningDesk<J>>(rt, alloc, reader, writer, &mut desk);
    let session = desk.into_session();
    match served {
        Ok(()) => session.broker().to_image(),
        Err(Failure::ReadFailed) => Err(Refusal::ReadFailed),
        Err(Failure::WriteFailed) => Err(Refusal::WriteFailed),
        // A desk that has its session for itself settles always.
        Err(Failure::NotKept) => unreachable!(),
    }
}

/// Serves the requests of a reader to a writer, to the end of the input or to an accepted stop, and answers the image
/// of the broker as it is then. A request is a line of JSON. It is refused before anything is read where a call or a
/// creation is under way (Busy), if a device fails (ReadFailed, WriteFailed), and for want of memory (NoMemory): before
/// anything is read, or for the image, once all was served.
pub fn pipe<T: Wait, R: Reader, W: Writer>(
    rt: &T,
    alloc: Global,
    broker: Broker,
    reader: &mut R,
    writer: &mut W,
) -> Result<Vec<u8>, Refusal>
    requires broker { IsUncalled broker }
    requires reader { R.failures reader.old < MAX_FAILURES }
    requires writer { W.failures writer.old < MAX_FAILURES }
    // One reply for each line was written, and nothing else. The image is of what the requests led to that were made.
    ensures image { IfOk result (λ bytes.
        LeavesImage broker (PipesAll R.Reader W.Writer reader.old writer.old writer.new) bytes.items) }
    ensures flushed { OnOk result (IsFlushed (W.written writer.new) (W.flushed writer.new)) }
    ensures busy { IsErrOf result Refusal.Busy ↔ IsInUse broker }
    ensures unread { IsErrOf result Refusal.Busy → (reader.new ≡ reader.old) × (writer.new ≡ writer.old) }
    // Nothing was read or written, or the same was served, without the image.
    ensures no_memory { IsErrOf result Refusal.NoMemory →
        ((reader.new ≡ reader.old) × (writer.new ≡ writer.old))
        ⊎ IsServed broker (PipesAll R.Reader W.Writer reader.old writer.old writer.new) }
    // The same for the whole lines of what was read.
    ensures read_failed { IsErrOf result Refusal.ReadFailed
        → IsServed broker (PipesRead R.Reader W.Writer reader.old reader.new writer.old writer.new) }
    // A beginning of it was written.
    ensures write_failed { IsErrOf result Refusal.WriteFailed
        → IsServed broker (PipesSome R.Reader W.Writer reader.old writer.old writer.new) }
    ensures read_fault { IsErrOf result Refusal.ReadFailed ↔ (R.failures reader.old < R.failures reader.new) }
    ensures write_fault { IsErrOf result Refusal.WriteFailed ↔ (W.failures writer.old < W.failures writer.new) }
    ensures errors { IfErr result MayEndPipe }
{
    let session = Session::open(broker);
    if is_in_use(&session) {
        return Err(Refusal::Busy);
    }
    served::<Brand, T, R, W>(rt, alloc, session, reader, writer)
}
