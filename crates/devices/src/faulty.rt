//! Bytes in memory, as a reader and as a writer that fail where they are told to.

ghost use Rattle.std.specs.Prelude.{◌≡◌, ◌≤◌, [], Some, take, vec_len};

use crate::device::{Failed, Reader, Writer};
use std::alloc::Global;

/// Gives so many of its bytes, and then fails, also where that is their end.
#[derive(Drop)]
pub struct FaultyReader<'a> {
    rest: &'a [u8],
    until_failure: usize,
    failures: u64,
}

impl<'a> FaultyReader<'a> {
    pub fn new(bytes: &'a [u8], until_failure: usize) -> Self
        ensures rest { result.rest.now ≡ bytes.now }
        ensures until_failure { result.until_failure ≡ until_failure }
        ensures failures { result.failures ≡ 0 }
    {
        FaultyReader {
            rest: bytes,
            until_failure,
            failures: 0,
        }
    }
}

impl Reader for FaultyReader<'_> {
    ghost left = { λ reader. Some reader.rest.now };

    ghost failures = { λ reader. reader.failures };

    fn read(&mut self, buffer: &mut [u8]) -> Result<usize, Failed> {
        if self.until_failure == 0 {
            self.failures += 1;
            return Err(Failed);
        }
        let n = self.rest.len().min(buffer.len()).min(self.until_failure);
        let (front, rest) = self.rest.split_at(n);
        buffer[..n].copy_from_slice(front);
        self.rest = rest;
        self.until_failure -= n;
        Ok(n)
    }
}

/// Takes so many bytes, and then fails, at a flush too. It also fails where memory is refused.
#[derive(Drop)]
pub struct FaultyWriter {
    bytes: Vec<u8>,
    flushed: usize,
    until_failure: usize,
    failures: u64,
    ghost within: { flushed ≤ vec_len bytes },
}

impl FaultyWriter {
    pub fn new(alloc: Global, until_failure: usize) -> Self
        ensures bytes { result.bytes.items ≡ [] }
        ensures until_failure { result.until_failure ≡ until_failure }
        ensures failures { result.failures ≡ 0 }
    {
        FaultyWriter {
            bytes: Vec::new(alloc),
            flushed: 0,
            until_failure,
            failures: 0,
        }
    }

    /// What was written.
    pub fn written(&self) -> &[u8]
        ensures { result.now ≡ self.now.bytes.items }
    {
        &self.bytes
    }

    /// What was written and flushed.
    pub fn flushed(&self) -> &[u8]
        ensures { result.now ≡ take self.now.flushed self.now.bytes.items }
    {
        &self.bytes[..self.flushed]
    }
}

impl Writer for FaultyWriter {
    ghost written = { λ writer. Some writer.bytes.items };

    ghost flushed = { λ writer. Some (take writer.flushed writer.bytes.items) };

    ghost failures = { λ writer. writer.failures };

    fn write(&mut self, bytes: &[u8]) -> Result<usize, Failed> {
        let n = bytes.len().min(self.until_failure);
        let (front, _) = bytes.split_at(n);
        if n == 0 || self.bytes.extend_from_slice(front).is_err() {
            self.failures += 1;
            return Err(Failed);
        }
        self.until_failure -= n;
        Ok(n)
    }

    fn flush(&mut self) -> Result<(), Failed> {
        if self.until_failure == 0 {
            self.failures += 1;
            return Err(Failed);
        }
        self.flushed = self.bytes.len();
        Ok(())
    }
}
