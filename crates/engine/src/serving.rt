//! Serving a reader and a writer.
// A clause that names the desk and the writer before and after, and the input, may be longer than 120 columns.

ghost use Rattle.std.specs.Prelude.{◌<◌, ◌↔◌, OnOk, IsErrOf};
ghost use Rattle.devices.specs.Devices.{IsFlushed};
ghost use Rattle.engine.specs.Desks.{ServesPart, ServesRead, ServesWhole};

use crate::desk::Desk;
use crate::failure::Failure;
use crate::input::Input;
use crate::lines::{Progress, reply_last_line, reply_lines};
use crate::output::Output;
use crate::reading::Reading;
use devices::{MAX_FAILURES, Reader, Writer};
use std::alloc::Global;
use std::sync::Wait;

/// Replies to each line of the input, up to and with the first accepted stop. No read waits while a reply is not
/// written, and before replies are written all that was served is settled. Where a device fails, or the desk cannot
/// settle, it ends, and nothing more is read or written.
pub fn serve<T: Wait, P: Reading, R: Reader, W: Writer, D: Desk>(
    rt: &T,
    alloc: Global,
    reader: &mut R,
    writer: &mut W,
    desk: &mut D,
) -> Result<(), Failure>
    requires reader { R.failures reader.old < MAX_FAILURES }
    requires writer { W.failures writer.old < MAX_FAILURES }
    requires desk { D.failures desk.old < MAX_FAILURES }
    // The text of one reply for each line of the input was written, and nothing else. All that was served is settled.
    ensures served { OnOk result
        (ServesWhole D.Desk W.Writer desk.old desk.new writer.old writer.new P.meaning (R.left reader.old)) }
    ensures flushed { OnOk result (IsFlushed (W.written writer.new) (W.flushed writer.new)) }
    // The same for the whole lines of what was read.
    ensures read_failed { IsErrOf result Failure.ReadFailed
        → ServesRead D.Desk W.Writer desk.old desk.new writer.old writer.new P.meaning
        (R.left reader.old) (R.left reader.new) }
    // A beginning of it was written: of the replies to the first requests, which are settled.
    ensures write_failed { IsErrOf result Failure.WriteFailed
        → ServesPart D.Desk W.Writer desk.old desk.new writer.old writer.new P.meaning (R.left reader.old) }
    ensures not_kept { IsErrOf result Failure.NotKept
        → ServesPart D.Desk W.Writer desk.old desk.new writer.old writer.new P.meaning (R.left reader.old) }
    ensures read_fault { IsErrOf result Failure.ReadFailed ↔ (R.failures reader.old < R.failures reader.new) }
    ensures write_fault { IsErrOf result Failure.WriteFailed ↔ (W.failures writer.old < W.failures writer.new) }
    ensures settle_fault { IsErrOf result Failure.NotKept ↔ (D.failures desk.old < D.failures desk.new) }
{
    let mut input = Input::new();
    let mut output = Output::new();
    for _ in rt.forever() {
        let Ok(n) = input.fill(reader) else {
            return Err(Failure::ReadFailed);
        };
        if n == 0 {
            reply_last_line::<T, P, W, D>(rt, alloc, writer, desk, &mut output, input.held())?;
            return Ok(());
        }
        match reply_lines::<T, P, W, D>(rt, alloc, writer, desk, &mut output, input.held())? {
            Progress::Stopped => return Ok(()),
            Progress::Replied(used) => input.keep_from(used),
        }
    }
    unreachable!()
}
