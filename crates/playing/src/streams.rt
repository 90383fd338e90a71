//! A script from a reader, and what it prints to a writer.

ghost use Rattle.std.specs.Prelude.{◌≡◌, ◌<◌, ◌↔◌, OnOk, OnErr, IfOk, IfErr, IsErrOf};
ghost use Rattle.std.specs.Io.KnownBytes.{Appends};
ghost use Rattle.devices.specs.Devices.{AppendsBeginning, IsFlushed};
ghost use Rattle.playing.specs.Run.{IsReadRefusal, NamesBadLine, SaysInput};

use devices::{MAX_FAILURES, Reader, Unread, Writer, read_all, send};
use grammar::{Script, parse_script};
use std::alloc::Global;
use words::Refusal;

/// What is said of a script that could not be read.
pub fn unread_refusal(unread: Unread) -> Refusal
    ensures failed { unread ≡ Unread.Failed → result ≡ Refusal.ReadFailed }
    ensures no_memory { unread ≡ Unread.NoMemory → result ≡ Refusal.NoMemory }
{
    match unread {
        Unread::Failed => Refusal::ReadFailed,
        Unread::NoMemory => Refusal::NoMemory,
    }
}

/// Reads a whole script: ReadFailed where the reader failed, else what `parse_script` says.
pub fn read_script<R: Reader>(alloc: Global, reader: &mut R) -> Result<Script, Refusal>
    requires { R.failures reader.old < MAX_FAILURES }
    ensures script { IfOk result (SaysInput (R.left reader.old)) }
    ensures refusals { IfErr result IsReadRefusal }
    ensures read_failed { IsErrOf result Refusal.ReadFailed ↔ (R.failures reader.old < R.failures reader.new) }
    ensures bad_line { IfErr result (NamesBadLine (R.left reader.old)) }
{
    let text = read_all(alloc, reader).map_err(unread_refusal)?;
    parse_script(alloc, &text)
}

/// Writes all that is printed, and flushes it.
pub fn print<W: Writer>(writer: &mut W, printed: &[u8]) -> Result<(), Refusal>
    requires { W.failures writer.old < MAX_FAILURES }
    ensures printed { OnOk result (Appends (W.written writer.old) (W.written writer.new) printed.now) }
    ensures flushed { OnOk result (IsFlushed (W.written writer.new) (W.flushed writer.new)) }
    ensures refusals { IfErr result (λ e. e ≡ Refusal.WriteFailed) }
    ensures write_failed { IsErrOf result Refusal.WriteFailed ↔ (W.failures writer.old < W.failures writer.new) }
    ensures beginning { OnErr result (AppendsBeginning (W.written writer.old) (W.written writer.new) printed.now) }
{
    send(writer, printed).map_err(|_| Refusal::WriteFailed)
}
