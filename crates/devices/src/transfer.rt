//! Bytes taken from a reader, and given to a writer.

ghost use Rattle.std.specs.Prelude.{◌≡◌, ◌<◌, ◌+◌, IfOk, IfSome, OnOk, OnErr};
ghost use Rattle.std.specs.Io.KnownBytes.{Appends};
ghost use Rattle.devices.specs.Devices.{failures_of, AppendsBeginning, GivesNext, IsFlushed};
ghost use Rattle.devices.specs.Unread.{device_failures_of};

use crate::device::{Failed, Reader, Writer};
use crate::limits::MAX_FAILURES;
use std::alloc::Global;

/// The next byte, or that there is none.
pub fn next_byte<R: Reader>(reader: &mut R) -> Result<Option<u8>, Failed>
    requires { R.failures reader.old < MAX_FAILURES }
    ensures byte { IfOk result (GivesNext (R.left reader.old) (R.left reader.new)) }
    ensures failures { R.failures reader.new ≡ R.failures reader.old + failures_of result }
{
    let mut buffer = [0; 1];
    match reader.read(&mut buffer)? {
        0 => Ok(None),
        _ => Ok(Some(buffer[0])),
    }
}

/// Why a reader was not read to its end.
#[derive(Clone, Copy, Debug, PartialEq, Eq)]
pub enum Unread {
    /// It failed.
    Failed,
    /// Memory was refused.
    NoMemory,
}

/// How many bytes are asked for at once.
const AT_ONCE: usize = 4_096;

/// All that a reader has left.
pub fn read_all<R: Reader>(alloc: Global, reader: &mut R) -> Result<Vec<u8>, Unread>
    requires { R.failures reader.old < MAX_FAILURES }
    ensures bytes { IfOk result (λ bytes. IfSome (R.left reader.old) (λ left. bytes.items ≡ left)) }
    ensures failures { R.failures reader.new ≡ R.failures reader.old + device_failures_of result }
{
    let mut bytes = Vec::new(alloc);
    let mut buffer = [0; AT_ONCE];
    for _ in 0..u64::MAX {
        let Ok(n) = reader.read(&mut buffer) else {
            return Err(Unread::Failed);
        };
        if n == 0 {
            return Ok(bytes);
        }
        if bytes.extend_from_slice(&buffer[..n]).is_err() {
            return Err(Unread::NoMemory);
        }
    }
    // No memory holds 2^64 bytes.
    Err(Unread::NoMemory)
}

/// Writes all the bytes.
pub fn write_all<W: Writer>(writer: &mut W, bytes: &[u8]) -> Result<(), Failed>
    requires { W.failures writer.old < MAX_FAILURES }
    ensures all { OnOk result (Appends (W.written writer.old) (W.written writer.new) bytes.now) }
    ensures beginning { OnErr result (AppendsBeginning (W.written writer.old) (W.written writer.new) bytes.now) }
    ensures failures { W.failures writer.new ≡ W.failures writer.old + failures_of result }
{
    let mut rest = bytes;
    while !rest.is_empty() {
        let n = writer.write(rest)?;
        let (_, after) = rest.split_at(n);
        rest = after;
    }
    Ok(())
}

/// Writes all the bytes, and flushes them.
#[tactic(auto, using(crate::proofs::Writes::all_is_beginning))]
pub fn send<W: Writer>(writer: &mut W, bytes: &[u8]) -> Result<(), Failed>
    requires { W.failures writer.old < MAX_FAILURES }
    ensures all { OnOk result (Appends (W.written writer.old) (W.written writer.new) bytes.now) }
    ensures flushed { OnOk result (IsFlushed (W.written writer.new) (W.flushed writer.new)) }
    ensures beginning { OnErr result (AppendsBeginning (W.written writer.old) (W.written writer.new) bytes.now) }
    ensures failures { W.failures writer.new ≡ W.failures writer.old + failures_of result }
{
    write_all(writer, bytes)?;
    writer.flush()
}
