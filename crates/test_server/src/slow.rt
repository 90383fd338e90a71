//! Devices that give and take a few bytes at a time, and fail where they are told to.

ghost use Rattle.std.specs.Prelude.{◌≡◌, None};

use devices::{Failed, Reader, Writer};
use std::alloc::Global;

/// Gives so many of its bytes at a time at most, and fails after so many in all, also where that is their end.
#[derive(Drop)]
pub(crate) struct SlowReader<'a> {
    rest: &'a [u8],
    each: usize,
    until_failure: usize,
    failures: u64,
}

impl<'a> SlowReader<'a> {
    pub(crate) fn new(bytes: &'a [u8], each: usize, until_failure: usize) -> Self
        ensures { result.failures ≡ 0 }
    {
        SlowReader {
            rest: bytes,
            each,
            until_failure,
            failures: 0,
        }
    }
}

impl Reader for SlowReader<'_> {
    ghost left = { λ _. None };

    ghost failures = { λ reader. reader.failures };

    fn read(&mut self, buffer: &mut [u8]) -> Result<usize, Failed> {
        if self.until_failure == 0 {
            self.failures += 1;
            return Err(Failed);
        }
        let most = self.each.min(self.until_failure);
        let n = self.rest.len().min(buffer.len()).min(most);
        let (front, rest) = self.rest.split_at(n);
        buffer[..n].copy_from_slice(front);
        self.rest = rest;
        self.until_failure -= n;
        Ok(n)
    }
}

/// Takes so many bytes at a time at most, and fails after so many in all, at a flush too.
#[derive(Drop)]
pub(crate) struct SlowWriter {
    bytes: Vec<u8>,
    each: usize,
    until_failure: usize,
    failures: u64,
}

impl SlowWriter {
    pub(crate) fn new(alloc: Global, each: usize, until_failure: usize) -> Self
        ensures { result.failures ≡ 0 }
    {
        SlowWriter {
            bytes: Vec::new(alloc),
            each,
            until_failure,
            failures: 0,
        }
    }

    pub(crate) fn into_written(self) -> Vec<u8> {
        self.bytes
    }
}

impl Writer for SlowWriter {
    ghost written = { λ _. None };

    ghost flushed = { λ _. None };

    ghost failures = { λ writer. writer.failures };

    fn write(&mut self, bytes: &[u8]) -> Result<usize, Failed> {
        let n = bytes.len().min(self.each).min(self.until_failure);
        let (front, _) = bytes.split_at(n);
        if n == 0 || self.bytes.extend_from_slice(front).is_err() {
            self.failures += 1;
            return Err(Failed);
        }
        self.until_failure -= n;
        Ok(n)
    }

    fn flush(&mut self) -> Result<(), Failed> {
        if self.until_failure == 0 {
            self.failures += 1;
            return Err(Failed);
        }
        Ok(())
    }
}
