//! The readers and writers that std has, with their failures counted.

ghost use Rattle.std.specs.Prelude.{◌≡◌, ◌<◌, ◌≤◌, length, IfOk, None};
ghost use Rattle.std.specs.Io.{ReadsAtMost};
ghost use Rattle.std.specs.Io.KnownBytes.{ReadConsumes, WriteAppends};

use crate::device::{Failed, Reader, Writer};
use std::io::{ErrorKind, Read, Write};

/// Reads, and once more where a signal came between.
fn read_some<R: Read>(inner: &mut R, buffer: &mut [u8]) -> Result<usize, Failed>
    ensures bound { ReadsAtMost result buffer.new }
    ensures bytes { ReadConsumes (R.remaining inner.old) (R.remaining inner.new) result buffer.new }
{
    for _ in 0..u64::MAX {
        match inner.read(buffer) {
            Ok(n) => return Ok(n),
            Err(error) => {
                if error.kind() != ErrorKind::Interrupted {
                    return Err(Failed);
                }
            }
        }
    }
    Err(Failed)
}

/// Writes some of the bytes, and once more where a signal came between. To take none of them is to fail.
fn write_some<W: Write>(inner: &mut W, bytes: &[u8]) -> Result<usize, Failed>
    ensures some { IfOk result (λ n. (0 < n) × (n ≤ length bytes.now)) }
    ensures bytes { WriteAppends (W.contents inner.old) (W.contents inner.new) result bytes.now }
{
    for _ in 0..u64::MAX {
        match inner.write(bytes) {
            Ok(0) => return Err(Failed),
            Ok(n) => return Ok(n),
            Err(error) => {
                if error.kind() != ErrorKind::Interrupted {
                    return Err(Failed);
                }
            }
        }
    }
    Err(Failed)
}

/// A reader that std has.
#[derive(Drop)]
pub struct CountedReader<R: Read + Drop> {
    inner: R,
    failures: u64,
}

impl<R: Read + Drop> CountedReader<R> {
    pub fn new(inner: R) -> Self
        ensures { result ≡ record { inner = inner; failures = 0 } }
    {
        CountedReader { inner, failures: 0 }
    }
}

impl<R: Read + Drop> Reader for CountedReader<R> {
    ghost left = { λ reader. R.remaining reader.inner };

    ghost failures = { λ reader. reader.failures };

    fn read(&mut self, buffer: &mut [u8]) -> Result<usize, Failed> {
        let result = read_some(&mut self.inner, buffer);
        if result.is_err() {
            self.failures += 1;
        }
        result
    }
}

/// A writer that std has. It says nothing of what was flushed.
#[derive(Drop)]
pub struct CountedWriter<W: Write + Drop> {
    inner: W,
    failures: u64,
}

impl<W: Write + Drop> CountedWriter<W> {
    pub fn new(inner: W) -> Self
        ensures { result ≡ record { inner = inner; failures = 0 } }
    {
        CountedWriter { inner, failures: 0 }
    }
}

impl<W: Write + Drop> Writer for CountedWriter<W> {
    ghost written = { λ writer. W.contents writer.inner };

    ghost flushed = { λ _. None };

    ghost failures = { λ writer. writer.failures };

    fn write(&mut self, bytes: &[u8]) -> Result<usize, Failed> {
        let result = write_some(&mut self.inner, bytes);
        if result.is_err() {
            self.failures += 1;
        }
        result
    }

    fn flush(&mut self) -> Result<(), Failed> {
        if self.inner.flush().is_err() {
            self.failures += 1;
            return Err(Failed);
        }
        Ok(())
    }
}
