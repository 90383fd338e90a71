//! What goes out over a socket.

ghost use Rattle.std.specs.Prelude.{◌≡◌, ◌<◌, ◌≤◌, length, IfOk, None};

use devices::{Failed, Writer};
use mio::net::TcpStream;
use std::io::{ErrorKind, Write};

/// The end of a line.
const NEWLINE: u8 = b'\n';

/// The writer of a connection for one turn. What its socket does not take for now it keeps.
#[derive(Drop)]
pub struct Outgoing<'a> {
    socket: &'a TcpStream,
    unsent: Vec<u8>,
    failures: u64,
    /// How many lines it has taken.
    lines: u64,
}

impl<'a> Outgoing<'a> {
    /// The writer, with what could not be sent before.
    pub fn new(socket: &'a TcpStream, unsent: Vec<u8>) -> Self
        ensures { result.failures ≡ 0 }
    {
        Outgoing {
            socket,
            unsent,
            failures: 0,
            lines: 0,
        }
    }

    /// How many lines it has taken: as many replies as were made.
    pub fn lines(&self) -> u64 {
        self.lines
    }

    /// What could not be sent yet.
    pub fn into_unsent(self) -> Vec<u8> {
        self.unsent
    }

    /// Sends what was kept, and answers whether none is left.
    pub fn send_kept(&mut self) -> Result<bool, Failed>
        ensures { self.new.failures ≡ self.old.failures }
    {
        if self.unsent.is_empty() {
            return Ok(true);
        }
        match send(self.socket, &self.unsent) {
            Ok(sent) => {
                self.unsent.drain(..sent);
                Ok(self.unsent.is_empty())
            }
            Err(Failed) => Err(Failed),
        }
    }

    /// Sends some of the bytes, or keeps all of them.
    fn take(&mut self, bytes: &[u8]) -> Result<usize, Failed>
        requires { 0 < length bytes.now }
        ensures some { IfOk result (λ n. (0 < n) × (n ≤ length bytes.now)) }
        ensures failures { self.new.failures ≡ self.old.failures }
    {
        if self.unsent.is_empty() {
            let sent = send(self.socket, bytes)?;
            if sent > 0 {
                return Ok(sent);
            }
        }
        match self.unsent.extend_from_slice(bytes) {
            Ok(()) => Ok(bytes.len()),
            Err(_) => Err(Failed),
        }
    }
}

/// Sends some of the bytes, and answers how many: none where the socket takes none for now.
fn send(mut socket: &TcpStream, bytes: &[u8]) -> Result<usize, Failed>
    ensures { IfOk result (λ n. n ≤ length bytes.now) }
{
    match socket.write(bytes) {
        Ok(0) => Err(Failed),
        Ok(n) => Ok(n),
        Err(error) => match error.kind() {
            ErrorKind::WouldBlock | ErrorKind::Interrupted => Ok(0),
            _ => Err(Failed),
        },
    }
}

/// How many lines end in these bytes.
fn lines_in(bytes: &[u8]) -> u64 {
    bytes.iter().filter(|byte| **byte == NEWLINE).count() as u64
}

/// Of its bytes nothing is known.
impl Writer for Outgoing<'_> {
    ghost written = { λ _. None };

    ghost flushed = { λ _. None };

    ghost failures = { λ writer. writer.failures };

    fn write(&mut self, bytes: &[u8]) -> Result<usize, Failed> {
        let result = self.take(bytes);
        match result {
            Ok(taken) => self.lines = self.lines.saturating_add(lines_in(&bytes[..taken])),
            Err(_) => self.failures += 1,
        }
        result
    }

    fn flush(&mut self) -> Result<(), Failed> {
        Ok(())
    }
}
