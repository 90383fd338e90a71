//! A script from a reader, followed to a writer.

ghost use Rattle.std.specs.Prelude.{◌<◌, ◌↔◌, OnOk, IfErr, IsErrOf};
ghost use Rattle.devices.specs.Devices.{IsFlushed};
ghost use Rattle.script_reports.specs.Runs.{BeginsAlone, BeginsPoints, BeginsRun, PrintsAlone, PrintsPoints, PrintsRun};
ghost use Rattle.playing.specs.Run.{IsRunRefusal, NamesBadLine, OnWriteFailed, WritesNothing};

use crate::reports::{pictured_points, points_text, stopped_text};
use crate::stories::story;
use devices::{MAX_FAILURES, Reader, Writer};
use explore::{Wanted, Watch};
use playing::{print, read_script, transcript};
use std::alloc::Global;
use std::thread::Threads;
use words::Refusal;

/// Reads the whole script before anything runs, follows it, and writes what it prints.
pub fn run<R: Reader, W: Writer>(
    alloc: Global,
    reader: &mut R,
    writer: &mut W,
) -> Result<(), Refusal>
    requires reads { R.failures reader.old < MAX_FAILURES }
    requires writes { W.failures writer.old < MAX_FAILURES }
    ensures printed { OnOk result (PrintsRun R.Reader W.Writer reader.old writer.old writer.new) }
    ensures flushed { OnOk result (IsFlushed (W.written writer.new) (W.flushed writer.new)) }
    ensures refusals { IfErr result IsRunRefusal }
    ensures read_failed { IsErrOf result Refusal.ReadFailed ↔ (R.failures reader.old < R.failures reader.new) }
    ensures write_failed { IsErrOf result Refusal.WriteFailed ↔ (W.failures writer.old < W.failures writer.new) }
    ensures bad_line { IfErr result (NamesBadLine (R.left reader.old)) }
    ensures unwritten { IfErr result (WritesNothing (W.written writer.old) (W.written writer.new)) }
    ensures beginning { OnWriteFailed result (BeginsRun R.Reader W.Writer reader.old writer.old writer.new) }
{
    let script = read_script(alloc, reader)?;
    let printed = transcript(alloc, &script)?;
    print(writer, &printed)
}

/// Reads the whole script before anything runs, follows it, and writes what it prints, as `run` does. It answers a page
/// that shows its acts, one by one: an HTML file, empty where the script has no queue.
pub fn run_story<R: Reader, W: Writer>(
    alloc: Global,
    reader: &mut R,
    writer: &mut W,
) -> Result<Vec<u8>, Refusal>
    requires reads { R.failures reader.old < MAX_FAILURES }
    requires writes { W.failures writer.old < MAX_FAILURES }
    ensures printed { OnOk result (PrintsRun R.Reader W.Writer reader.old writer.old writer.new) }
    ensures flushed { OnOk result (IsFlushed (W.written writer.new) (W.flushed writer.new)) }
    ensures refusals { IfErr result IsRunRefusal }
    ensures read_failed { IsErrOf result Refusal.ReadFailed ↔ (R.failures reader.old < R.failures reader.new) }
    ensures write_failed { IsErrOf result Refusal.WriteFailed ↔ (W.failures writer.old < W.failures writer.new) }
    ensures bad_line { IfErr result (NamesBadLine (R.left reader.old)) }
    ensures unwritten { IfErr result (WritesNothing (W.written writer.old) (W.written writer.new)) }
    ensures beginning { OnWriteFailed result (BeginsRun R.Reader W.Writer reader.old writer.old writer.new) }
{
    let script = read_script(alloc, reader)?;
    let text = transcript(alloc, &script)?;
    // The page first: where it is refused memory, nothing is written.
    let page = story(alloc, &script)?;
    match print(writer, &text) {
        Ok(()) => Ok(page),
        Err(refusal) => Err(refusal),
    }
}

/// Reads the whole script before anything runs, and writes what a crash at each wanted point comes to: their lines as
/// the whole report has them, and one that counts them. `watch` is told how many points are made.
pub fn run_points<H: Threads + Sync, R: Reader, W: Writer, T: Watch>(
    rt: &H,
    alloc: Global,
    reader: &mut R,
    writer: &mut W,
    wanted: Wanted,
    watch: &mut T,
) -> Result<(), Refusal>
    requires reads { R.failures reader.old < MAX_FAILURES }
    requires writes { W.failures writer.old < MAX_FAILURES }
    ensures printed { OnOk result (PrintsPoints R.Reader W.Writer wanted reader.old writer.old writer.new) }
    ensures flushed { OnOk result (IsFlushed (W.written writer.new) (W.flushed writer.new)) }
    ensures refusals { IfErr result IsRunRefusal }
    ensures read_failed { IsErrOf result Refusal.ReadFailed ↔ (R.failures reader.old < R.failures reader.new) }
    ensures write_failed { IsErrOf result Refusal.WriteFailed ↔ (W.failures writer.old < W.failures writer.new) }
    ensures bad_line { IfErr result (NamesBadLine (R.left reader.old)) }
    ensures unwritten { IfErr result (WritesNothing (W.written writer.old) (W.written writer.new)) }
    ensures beginning { OnWriteFailed result
        (BeginsPoints R.Reader W.Writer wanted reader.old writer.old writer.new) }
{
    let script = read_script(alloc, reader)?;
    let printed = points_text(rt, alloc, &script, wanted, watch)?;
    print(writer, &printed)
}

/// Reads the whole script before anything runs, and writes what a crash at each wanted point comes to, as `run_points`
/// does. It answers a page that shows the same: an HTML file, empty where the script has no queue.
pub fn run_page<H: Threads + Sync, R: Reader, W: Writer, T: Watch>(
    rt: &H,
    alloc: Global,
    reader: &mut R,
    writer: &mut W,
    wanted: Wanted,
    watch: &mut T,
) -> Result<Vec<u8>, Refusal>
    requires reads { R.failures reader.old < MAX_FAILURES }
    requires writes { W.failures writer.old < MAX_FAILURES }
    ensures printed { OnOk result (PrintsPoints R.Reader W.Writer wanted reader.old writer.old writer.new) }
    ensures flushed { OnOk result (IsFlushed (W.written writer.new) (W.flushed writer.new)) }
    ensures refusals { IfErr result IsRunRefusal }
    ensures read_failed { IsErrOf result Refusal.ReadFailed ↔ (R.failures reader.old < R.failures reader.new) }
    ensures write_failed { IsErrOf result Refusal.WriteFailed ↔ (W.failures writer.old < W.failures writer.new) }
    ensures bad_line { IfErr result (NamesBadLine (R.left reader.old)) }
    ensures unwritten { IfErr result (WritesNothing (W.written writer.old) (W.written writer.new)) }
    ensures beginning { OnWriteFailed result
        (BeginsPoints R.Reader W.Writer wanted reader.old writer.old writer.new) }
{
    let script = read_script(alloc, reader)?;
    let found = pictured_points(rt, alloc, &script, wanted, watch)?;
    match print(writer, &found.text) {
        Ok(()) => Ok(found.page),
        Err(refusal) => Err(refusal),
    }
}

/// Reads the whole script before anything runs, and writes what becomes of each call that stopped at one of its points,
/// where it goes on alone.
pub fn run_alone<R: Reader, W: Writer>(
    alloc: Global,
    reader: &mut R,
    writer: &mut W,
) -> Result<(), Refusal>
    requires reads { R.failures reader.old < MAX_FAILURES }
    requires writes { W.failures writer.old < MAX_FAILURES }
    ensures printed { OnOk result (PrintsAlone R.Reader W.Writer reader.old writer.old writer.new) }
    ensures flushed { OnOk result (IsFlushed (W.written writer.new) (W.flushed writer.new)) }
    ensures refusals { IfErr result IsRunRefusal }
    ensures read_failed { IsErrOf result Refusal.ReadFailed ↔ (R.failures reader.old < R.failures reader.new) }
    ensures write_failed { IsErrOf result Refusal.WriteFailed ↔ (W.failures writer.old < W.failures writer.new) }
    ensures bad_line { IfErr result (NamesBadLine (R.left reader.old)) }
    ensures unwritten { IfErr result (WritesNothing (W.written writer.old) (W.written writer.new)) }
    ensures beginning { OnWriteFailed result (BeginsAlone R.Reader W.Writer reader.old writer.old writer.new) }
{
    let script = read_script(alloc, reader)?;
    let printed = stopped_text(alloc, &script)?;
    print(writer, &printed)
}
