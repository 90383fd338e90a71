//! What comes in over a socket.

ghost use Rattle.std.specs.Prelude.{◌≡◌, ◌≤◌, length, IfOk, None};
ghost use Rattle.std.specs.Io.{ReadsAtMost};

use devices::{Failed, Reader};
use engine::MAX_LINE;
use memchr::memrchr;
use mio::net::TcpStream;
use std::io::{ErrorKind, Read};

/// The bytes that are kept of a line whose end did not come yet: one too many tells that the line is too long.
const KEPT_BYTES: usize = MAX_LINE + 1;

/// How often a connection is read from before others have their turn.
const READS: u32 = 16;

/// The end of a line.
const NEWLINE: u8 = b'\n';

/// What becomes of a connection's input.
#[derive(Clone, Copy, Debug, PartialEq, Eq)]
pub enum Flow {
    /// More of it may be there.
    Goes,
    /// Nothing more is there for now.
    Waits,
    /// More of it may be there, and others have their turn first.
    Paused,
    /// No more comes.
    Ended,
}

/// The reader of a connection for one turn. It hands on whole lines, and the last one, which may have no newline, at the
/// end. Where nothing more is there for now it fails, as its caller sees it, and [`Incoming::flow`] says that it waits.
#[derive(Drop)]
pub struct Incoming<'a> {
    socket: &'a TcpStream,
    /// The beginning of a line whose end did not come yet.
    part: Vec<u8>,
    /// Whether the system has told that the input has an end.
    closing: bool,
    /// Whether the last read found less than there was room for, and so all that was there: the system tells of more.
    drained: bool,
    flow: Flow,
    reads: u32,
    has_lines: bool,
    failures: u64,
}

impl<'a> Incoming<'a> {
    /// The reader, with the beginning of a line that had come before. Where the system has told that the input has an end,
    /// it reads up to there, and else no more than there is.
    pub fn new(socket: &'a TcpStream, part: Vec<u8>, closing: bool) -> Self
        ensures { result.failures ≡ 0 }
    {
        Incoming {
            socket,
            part,
            closing,
            drained: false,
            flow: Flow::Goes,
            reads: 0,
            has_lines: false,
            failures: 0,
        }
    }

    /// What becomes of the input, as far as it was read.
    pub fn flow(&self) -> Flow {
        self.flow
    }

    /// Whether lines were handed on.
    pub fn has_lines(&self) -> bool {
        self.has_lines
    }

    /// Whether the turn is over, and more may come in another one.
    pub fn is_between(&self) -> bool {
        self.flow == Flow::Waits || self.flow == Flow::Paused
    }

    /// The beginning of a line whose end did not come yet.
    pub fn into_part(self) -> Vec<u8> {
        self.part
    }

    /// Keeps what stands behind the last newline, and answers how many bytes stand before.
    fn keep_behind(&mut self, bytes: &[u8]) -> Result<usize, Failed>
        ensures within { IfOk result (λ n. n ≤ length bytes.now) }
        ensures failures { self.new.failures ≡ self.old.failures }
    {
        let end = match memrchr(NEWLINE, bytes) {
            Some(at) => at + 1,
            None => 0,
        };
        let (_, rest) = bytes.split_at(end);
        self.part.clear();
        match self
            .part
            .extend_from_slice(&rest[..rest.len().min(KEPT_BYTES)])
        {
            Ok(()) => Ok(end),
            Err(_) => Err(Failed),
        }
    }

    /// Reads once behind what was kept, and answers how many bytes may be handed on.
    fn read_once(&mut self, buffer: &mut [u8]) -> Result<usize, Failed>
        ensures bound { ReadsAtMost result buffer.new }
        ensures failures { self.new.failures ≡ self.old.failures }
    {
        let held = self.part.len();
        if held >= buffer.len() {
            return Err(Failed);
        }
        let room = buffer.len() - held;
        buffer[..held].copy_from_slice(&self.part);
        match self.socket.read(&mut buffer[held..]) {
            Ok(0) => {
                self.flow = Flow::Ended;
                self.part.clear();
                Ok(held)
            }
            Ok(n) => {
                // Of an end that had come by then nothing more is told, so it is read.
                self.drained = n < room && !self.closing;
                self.keep_behind(&buffer[..held + n])
            }
            Err(error) => match error.kind() {
                ErrorKind::WouldBlock => {
                    self.flow = Flow::Waits;
                    Err(Failed)
                }
                ErrorKind::Interrupted => Ok(0),
                _ => Err(Failed),
            },
        }
    }

    /// Reads until there is a whole line, or nothing more for now.
    fn read_lines(&mut self, buffer: &mut [u8]) -> Result<usize, Failed>
        ensures bound { ReadsAtMost result buffer.new }
        ensures failures { self.new.failures ≡ self.old.failures }
    {
        for _ in self.reads..READS {
            if self.drained {
                self.flow = Flow::Waits;
                return Err(Failed);
            }
            self.reads = self.reads.saturating_add(1);
            let read = self.read_once(buffer);
            if read != Ok(0) || self.flow != Flow::Goes {
                return read;
            }
        }
        self.flow = Flow::Paused;
        Err(Failed)
    }
}

/// Of its bytes nothing is known.
impl Reader for Incoming<'_> {
    ghost left = { λ _. None };

    ghost failures = { λ reader. reader.failures };

    fn read(&mut self, buffer: &mut [u8]) -> Result<usize, Failed> {
        let result = self.read_lines(buffer);
        match result {
            Ok(read) => self.has_lines = self.has_lines || read > 0,
            Err(Failed) => self.failures += 1,
        }
        result
    }
}
