//! The input, as it comes and is used.

ghost use Rattle.std.specs.Prelude.{◌≡◌, ◌≤◌, ◌<◌, ◌+◌, [], length, take, drop, IfOk, OnErr};
ghost use Rattle.std.specs.Io.KnownBytes.{Keeps};
ghost use Rattle.devices.specs.Devices.{failures_of};
ghost use Rattle.engine.specs.Input.{held, Gains};
ghost use Rattle.engine.specs.Lines.{IsFirstNewline};

use crate::input::Input;
use crate::limits::{INPUT_BYTES, KEPT_BYTES, NEWLINE};
use devices::{Failed, MAX_FAILURES, Reader};
use memchr::memchr;

impl Input {
    pub fn new() -> Self
        ensures { held result ≡ [] }
    {
        Input {
            bytes: [0; INPUT_BYTES],
            len: 0,
        }
    }

    /// The bytes.
    pub fn held(&self) -> &[u8]
        ensures { result.now ≡ held self.now }
    {
        &self.bytes[..self.len]
    }

    /// Takes what comes behind them, and answers how many bytes these are.
    pub fn fill<R: Reader>(&mut self, reader: &mut R) -> Result<usize, Failed>
        requires failures { R.failures reader.old < MAX_FAILURES }
        requires room { length (held self.old) < INPUT_BYTES }
        ensures gains { IfOk result
            (λ n. Gains n (held self.old) (held self.new) (R.left reader.old) (R.left reader.new)) }
        ensures kept { OnErr result (Keeps (R.left reader.old) (R.left reader.new)) }
        ensures failures { R.failures reader.new ≡ R.failures reader.old + failures_of result }
    {
        let n = reader.read(&mut self.bytes[self.len..])?;
        self.len += n;
        Ok(n)
    }

    /// Lets go so many bytes, and of the rest all that is not needed to tell that a line is too long.
    pub fn keep_from(&mut self, used: usize)
        requires { used ≤ length (held self.old) }
        ensures { held self.new ≡ take KEPT_BYTES (drop used (held self.old)) }
    {
        let kept = (self.len - used).min(KEPT_BYTES);
        self.bytes.copy_within(used..used + kept, 0);
        self.len = kept;
    }
}

/// The place of the first newline.
pub fn newline_in(bytes: &[u8]) -> Option<usize>
    ensures { IsFirstNewline bytes.now result }
{
    memchr(NEWLINE, bytes)
}
