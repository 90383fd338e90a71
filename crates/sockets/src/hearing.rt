//! The first line of a connection. What came behind it stays in the socket.

ghost use Rattle.std.specs.Prelude.{◌≡◌, ◌≤◌, length};
ghost use Rattle.sockets.specs.Kept.{GoesOn};

use devices::Failed;
use engine::MAX_LINE;
use memchr::memchr;
use mio::net::TcpStream;
use std::io::{ErrorKind, Read};

/// The bytes that are looked at: one too many tells that the line is too long.
const SEEN_BYTES: usize = MAX_LINE + 1;

/// How often it is read at most. Each time brings a byte or more, or the end, but where the system was interrupted.
const READS: u32 = 1_024;

/// The end of a line.
const NEWLINE: u8 = b'\n';

/// What came of a first line.
#[derive(Clone, Copy, Debug, PartialEq, Eq)]
pub enum Heard {
    /// All of it, or the beginning of one that is too long.
    Line,
    /// Not all of it, and nothing more is there for now.
    Part,
    /// Nothing of it, and nothing will.
    Ended,
}

/// Where the bytes end that are the line's, its newline among them.
fn end_of_line(bytes: &[u8]) -> usize
    ensures { result ≤ length bytes.now }
{
    match memchr(NEWLINE, bytes) {
        Some(at) => at + 1,
        None => bytes.len(),
    }
}

/// Adds bytes of the line, and answers whether all of it is there.
fn add(part: &mut Vec<u8>, bytes: &[u8]) -> Result<bool, Failed>
    ensures { GoesOn part.old.items part.new.items }
{
    let (line, is_whole) = match bytes {
        [line @ .., NEWLINE] => (line, true),
        _ => (bytes, false),
    };
    match part.extend_from_slice(line) {
        Ok(()) => Ok(is_whole || part.len() > MAX_LINE),
        Err(_) => Err(Failed),
    }
}

/// Reads once. What came of the line is none where more has to be looked for.
fn read_once(mut socket: &TcpStream, part: &mut Vec<u8>) -> Result<Option<Heard>, Failed>
    ensures { GoesOn part.old.items part.new.items }
{
    let mut buffer = [0; SEEN_BYTES];
    let there = match socket.peek(&mut buffer) {
        Ok(0) if part.is_empty() => return Ok(Some(Heard::Ended)),
        Ok(0) => return Ok(Some(Heard::Line)),
        Ok(there) => there,
        Err(error) => {
            return match error.kind() {
                ErrorKind::WouldBlock => Ok(Some(Heard::Part)),
                ErrorKind::Interrupted => Ok(None),
                _ => Err(Failed),
            };
        }
    };
    let end = end_of_line(&buffer[..there]);
    let Ok(read) = socket.read(&mut buffer[..end]) else {
        return Err(Failed);
    };
    if add(part, &buffer[..read])? {
        return Ok(Some(Heard::Line));
    }
    Ok(None)
}

/// Reads on in the first line of a connection, of which this part came before. Its newline is none of it. Nothing behind
/// it is read.
pub fn first_line(socket: &TcpStream, part: &mut Vec<u8>) -> Result<Heard, Failed>
    ensures { GoesOn part.old.items part.new.items }
{
    for _ in 0..READS {
        if let Some(heard) = read_once(socket, part)? {
            return Ok(heard);
        }
    }
    Err(Failed)
}
