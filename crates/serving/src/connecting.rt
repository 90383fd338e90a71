//! Serving one connection of a broker that connections share.
// A clause that names the desk, the reader and the writer before and after may be longer than 120 columns.

ghost use Rattle.std.specs.Prelude.{◌≡◌, ◌≢◌, ◌<◌, ◌↔◌, [], Err, IfSome, IsErrOf, None, OnOk};
ghost use Rattle.chronicle.specs.Chronicled.{entries};
ghost use Rattle.devices.specs.Devices.{IsFlushed};
ghost use Rattle.desk.specs.Answering.{IsServedAtMark, IsServedInTurn};
ghost use Rattle.serving.specs.Connections.{TellsAll, TellsRead, TellsSome};

use crate::json_lines::JsonLines;
use crate::lasting_desk::LastingDesk;
use crate::stopping_desk::StoppingDesk;
use desk::BrokerDesk;
use devices::{MAX_FAILURES, Reader, Writer};
use engine::{Failure, serve};
use journal_file::Storage;
use lasting::Settling;
use std::alloc::Global;
use std::sync::Wait;
use workers::Naming;

/// Serves a connection to its end, where nothing is promised to last: its lines are replied to as [`serve`] says. It
/// ends early where a device fails (ReadFailed, WriteFailed).
pub fn connection<J: Naming, T: Wait, R: Reader, W: Writer>(
    rt: &T,
    alloc: Global,
    desk: &mut StoppingDesk<BrokerDesk<J>>,
    reader: &mut R,
    writer: &mut W,
) -> Result<(), Failure>
    requires reader { R.failures reader.old < MAX_FAILURES }
    requires writer { W.failures writer.old < MAX_FAILURES }
    // Each request was answered in turn, by what the session was then, up to the session as it was marked last.
    ensures turn { IsServedAtMark J.clients J.first (entries desk.new.desk.served) desk.new.desk.marked }
    ensures served { OnOk result
        (TellsAll R.Reader W.Writer desk.old.desk.served desk.new.desk.served reader.old writer.old writer.new) }
    ensures flushed { OnOk result (IsFlushed (W.written writer.new) (W.flushed writer.new)) }
    ensures read_failed { IsErrOf result Failure.ReadFailed → TellsRead R.Reader W.Writer
        desk.old.desk.served desk.new.desk.served reader.old reader.new writer.old writer.new }
    ensures write_failed { IsErrOf result Failure.WriteFailed → TellsSome R.Reader W.Writer
        desk.old.desk.served desk.new.desk.served reader.old writer.old writer.new }
    ensures kept { result ≢ Err Failure.NotKept }
    ensures read_fault { IsErrOf result Failure.ReadFailed ↔ (R.failures reader.old < R.failures reader.new) }
    ensures write_fault { IsErrOf result Failure.WriteFailed ↔ (W.failures writer.old < W.failures writer.new) }
{
    let served = serve::<T, JsonLines, R, W, _>(rt, alloc, reader, writer, desk);
    desk.desk.has_told();
    served
}

/// The same over a journal, which has what a reply tells of before that is written. It ends early also where the journal
/// fails (NotKept).
pub fn lasting_connection<J: Naming + Settling, S: Storage + Drop, T: Wait, R: Reader, W: Writer>(
    rt: &T,
    alloc: Global,
    desk: &mut StoppingDesk<LastingDesk<J, S>>,
    reader: &mut R,
    writer: &mut W,
) -> Result<(), Failure>
    requires desk { desk.old.desk.unsettled < MAX_FAILURES }
    requires reader { R.failures reader.old < MAX_FAILURES }
    requires writer { W.failures writer.old < MAX_FAILURES }
    // Each request was answered in turn, by what the session was then, up to the session as it was marked last.
    ensures turn { IsServedAtMark J.clients J.first (entries desk.new.desk.desk.served) desk.new.desk.desk.marked }
    // So was each that is settled, up to a session that the journal assures. Without one, none is settled.
    ensures lasting { IfSome desk.new.desk.desk.assured
        (IsServedInTurn J.clients J.first desk.new.desk.desk.served.settled) }
    ensures known { desk.new.desk.desk.assured ≡ None → desk.new.desk.desk.served.settled ≡ [] }
    ensures served { OnOk result
        (TellsAll R.Reader W.Writer desk.old.desk.desk.served desk.new.desk.desk.served reader.old writer.old writer.new) }
    ensures flushed { OnOk result (IsFlushed (W.written writer.new) (W.flushed writer.new)) }
    ensures read_failed { IsErrOf result Failure.ReadFailed → TellsRead R.Reader W.Writer
        desk.old.desk.desk.served desk.new.desk.desk.served reader.old reader.new writer.old writer.new }
    ensures write_failed { IsErrOf result Failure.WriteFailed → TellsSome R.Reader W.Writer
        desk.old.desk.desk.served desk.new.desk.desk.served reader.old writer.old writer.new }
    ensures not_kept { IsErrOf result Failure.NotKept → TellsSome R.Reader W.Writer
        desk.old.desk.desk.served desk.new.desk.desk.served reader.old writer.old writer.new }
    ensures read_fault { IsErrOf result Failure.ReadFailed ↔ (R.failures reader.old < R.failures reader.new) }
    ensures write_fault { IsErrOf result Failure.WriteFailed ↔ (W.failures writer.old < W.failures writer.new) }
{
    let served = serve::<T, JsonLines, R, W, _>(rt, alloc, reader, writer, desk);
    desk.desk.desk.has_told();
    served
}
