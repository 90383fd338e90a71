//! A broker's script from a reader, followed to a writer.

ghost use Rattle.std.specs.Prelude.{◌<◌, ◌↔◌, OnOk, IfOk, IfErr, IsErrOf};
ghost use Rattle.devices.specs.Devices.{IsFlushed};
ghost use Rattle.playing.specs.Run.{IsReadRefusal, IsRunRefusal, OnWriteFailed, WritesNothing};
ghost use Rattle.broker_script.specs.Run.{BeginsRun, NamesBadLine, PrintsRun, SaysInput};

use crate::parser::parse_script;
use crate::play::transcript;
use crate::script::Script;
use devices::{MAX_FAILURES, Reader, Writer, read_all};
use playing::{print, unread_refusal};
use std::alloc::Global;
use words::Refusal;

/// Reads a whole script: ReadFailed where the reader failed, else what [`parse_script`] says.
pub fn read_script<R: Reader>(alloc: Global, reader: &mut R) -> Result<Script, Refusal>
    requires { R.failures reader.old < MAX_FAILURES }
    ensures script { IfOk result (SaysInput (R.left reader.old)) }
    ensures refusals { IfErr result IsReadRefusal }
    ensures read_failed { IsErrOf result Refusal.ReadFailed ↔ (R.failures reader.old < R.failures reader.new) }
    ensures bad_line { IfErr result (NamesBadLine (R.left reader.old)) }
{
    match read_all(alloc, reader) {
        Ok(text) => parse_script(alloc, &text),
        Err(unread) => Err(unread_refusal(unread)),
    }
}

/// Reads the whole script before anything runs, follows it on a new broker, and writes what it prints.
pub fn run<R: Reader, W: Writer>(
    alloc: Global,
    reader: &mut R,
    writer: &mut W,
) -> Result<(), Refusal>
    requires reads { R.failures reader.old < MAX_FAILURES }
    requires writes { W.failures writer.old < MAX_FAILURES }
    ensures printed { OnOk result (PrintsRun R.Reader W.Writer reader.old writer.old writer.new) }
    ensures flushed { OnOk result (IsFlushed (W.written writer.new) (W.flushed writer.new)) }
    ensures refusals { IfErr result IsRunRefusal }
    ensures read_failed { IsErrOf result Refusal.ReadFailed ↔ (R.failures reader.old < R.failures reader.new) }
    ensures write_failed { IsErrOf result Refusal.WriteFailed ↔ (W.failures writer.old < W.failures writer.new) }
    ensures bad_line { IfErr result (NamesBadLine (R.left reader.old)) }
    ensures unwritten { IfErr result (WritesNothing (W.written writer.old) (W.written writer.new)) }
    ensures beginning { OnWriteFailed result (BeginsRun R.Reader W.Writer reader.old writer.old writer.new) }
{
    let script = read_script(alloc, reader)?;
    let printed = transcript(alloc, &script)?;
    print(writer, &printed)
}
