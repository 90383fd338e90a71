//! What is read from, and what is written to.

ghost use Rattle.std.specs.Prelude.{◌≡◌, ◌<◌, ◌≤◌, ◌+◌, ℕ, List, Option, length, IfOk, OnOk};
ghost use Rattle.std.specs.Io.{ReadsAtMost};
ghost use Rattle.std.specs.Io.KnownBytes.{Keeps, ReadConsumes, WriteAppends};
ghost use Rattle.devices.specs.Devices.{failures_of, IsFlushed};

use crate::limits::MAX_FAILURES;

/// A device failed.
#[derive(Clone, Copy, Debug, PartialEq, Eq)]
pub struct Failed;

/// Bytes that come in.
pub trait Reader {
    /// The bytes that are still to come, where they are known.
    ghost left: { Self → Option (List ℕ) };

    /// How often it has failed.
    ghost failures: { Self → ℕ };

    /// Reads some of the bytes to the front of the buffer, and answers how many: none only at the end, or where the
    /// buffer is empty.
    fn read(&mut self, buffer: &mut [u8]) -> Result<usize, Failed>
        requires { failures self.old < MAX_FAILURES }
        ensures bound { ReadsAtMost result buffer.new }
        ensures bytes { ReadConsumes (left self.old) (left self.new) result buffer.new }
        ensures failures { failures self.new ≡ failures self.old + failures_of result };
}

/// Bytes that go out.
pub trait Writer {
    /// The bytes that were written, where they are known.
    ghost written: { Self → Option (List ℕ) };

    /// Those of them that were handed on to where they belong, where these are known.
    ghost flushed: { Self → Option (List ℕ) };

    /// How often it has failed.
    ghost failures: { Self → ℕ };

    /// Writes some of the bytes, from the first one on, and answers how many.
    fn write(&mut self, bytes: &[u8]) -> Result<usize, Failed>
        requires room { failures self.old < MAX_FAILURES }
        requires some { 0 < length bytes.now }
        ensures some { IfOk result (λ n. (0 < n) × (n ≤ length bytes.now)) }
        ensures bytes { WriteAppends (written self.old) (written self.new) result bytes.now }
        ensures failures { failures self.new ≡ failures self.old + failures_of result };

    /// Hands on all that was written.
    fn flush(&mut self) -> Result<(), Failed>
        requires { failures self.old < MAX_FAILURES }
        ensures bytes { Keeps (written self.old) (written self.new) }
        ensures flushed { OnOk result (IsFlushed (written self.new) (flushed self.new)) }
        ensures failures { failures self.new ≡ failures self.old + failures_of result };
}
