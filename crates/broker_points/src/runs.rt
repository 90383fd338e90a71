//! A broker's script from a reader, crashed everywhere, and the report on that to a writer.

ghost use Rattle.std.specs.Prelude.{◌<◌, ◌↔◌, OnOk, IfErr, IsErrOf};
ghost use Rattle.devices.specs.Devices.{IsFlushed};
ghost use Rattle.playing.specs.Run.{IsRunRefusal, OnWriteFailed, WritesNothing};
ghost use Rattle.broker_script.specs.Run.{NamesBadLine};
ghost use Rattle.broker_points.specs.Run.{BeginsPoints, PrintsPoints};

use crate::reports::report;
use broker_script::read_script;
use devices::{MAX_FAILURES, Reader, Writer};
use explore::{Evictions, Watch};
use playing::print;
use std::alloc::Global;
use std::thread::Threads;
use words::Refusal;

/// Reads the whole script before anything runs, and writes what a crash of the whole broker at each of its points comes
/// to. `watch` is told how many points are made.
pub fn run_points<H: Threads + Sync, R: Reader, W: Writer, T: Watch>(
    rt: &H,
    alloc: Global,
    reader: &mut R,
    writer: &mut W,
    evictions: Evictions,
    watch: &mut T,
) -> Result<(), Refusal>
    requires reads { R.failures reader.old < MAX_FAILURES }
    requires writes { W.failures writer.old < MAX_FAILURES }
    ensures printed { OnOk result (PrintsPoints R.Reader W.Writer evictions reader.old writer.old writer.new) }
    ensures flushed { OnOk result (IsFlushed (W.written writer.new) (W.flushed writer.new)) }
    ensures refusals { IfErr result IsRunRefusal }
    ensures read_failed { IsErrOf result Refusal.ReadFailed ↔ (R.failures reader.old < R.failures reader.new) }
    ensures write_failed { IsErrOf result Refusal.WriteFailed ↔ (W.failures writer.old < W.failures writer.new) }
    ensures bad_line { IfErr result (NamesBadLine (R.left reader.old)) }
    ensures unwritten { IfErr result (WritesNothing (W.written writer.old) (W.written writer.new)) }
    ensures beginning { OnWriteFailed result
        (BeginsPoints R.Reader W.Writer evictions reader.old writer.old writer.new) }
{
    let script = read_script(alloc, reader)?;
    let printed = report(rt, alloc, &script, evictions, watch)?;
    print(writer, &printed)
}
