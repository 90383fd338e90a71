//! One request and its answer.

ghost use Rattle.std.specs.Prelude.{◌≡◌};

use crate::answers::Answer;
use crate::asked::{Asked, asked_by};
use http1::{BodySize, Event, Header, Limits, Server};
use httparse::spans::EMPTY_HEADER_SPAN;
use std::alloc::Global;
use std::io::{Read, Write};

/// How many bytes are taken in at once.
const BUFFER_BYTES: usize = 4_096;

/// How often a connection is read from before its request has to be whole.
const READS: u32 = 8;

/// How many lines the head of a request may have.
const HEAD_LINES: usize = 64;

/// A request that is not answered: its connection failed, or was silent, or there was no memory.
#[derive(Clone, Copy, Debug, PartialEq, Eq)]
pub(crate) struct Unanswered;

/// What came over a connection.
#[derive(Clone, Copy, Debug, PartialEq, Eq)]
pub(crate) enum Heard {
    /// A request.
    Asked(Asked),
    /// What is no request, with the status that says so.
    Unread(u16),
}

/// What the bytes that came are, once they tell.
fn heard_in(server: &mut Server, bytes: &[u8]) -> Option<Heard> {
    let mut spans = [EMPTY_HEADER_SPAN; HEAD_LINES];
    match server.read(bytes, &mut spans) {
        Ok(read) => match read.event {
            Event::Head(head) => Some(Heard::Asked(asked_by(
                head.method.of(bytes),
                head.path.of(bytes),
            ))),
            _ => None,
        },
        Err(error) => Some(Heard::Unread(error.status())),
    }
}

/// Takes in some bytes behind those that came.
fn take_in<S: Read>(stream: &mut S, bytes: &mut Vec<u8>) -> Result<(), Unanswered> {
    let mut buffer = [0; BUFFER_BYTES];
    let Ok(count) = stream.read(&mut buffer) else {
        return Err(Unanswered);
    };
    if count == 0 {
        return Err(Unanswered);
    }
    match bytes.extend_from_slice(&buffer[..count]) {
        Ok(()) => Ok(()),
        Err(_) => Err(Unanswered),
    }
}

/// What comes over a connection. One that tells nothing in so many reads is given up.
pub(crate) fn hear<S: Read>(
    alloc: Global,
    server: &mut Server,
    stream: &mut S,
) -> Result<Heard, Unanswered> {
    let mut bytes = Vec::new(alloc);
    for _ in 0..READS {
        take_in(stream, &mut bytes)?;
        if let Some(heard) = heard_in(server, &bytes) {
            return Ok(heard);
        }
    }
    Err(Unanswered)
}

/// What reads a request that comes first.
pub(crate) fn first_server() -> Server {
    Server::new(Limits::default())
}

/// The text of an answer, behind which the connection is closed.
fn text_of(alloc: Global, server: &mut Server, answer: &Answer) -> Result<Vec<u8>, Unanswered> {
    let headers = [
        Header {
            name: b"Content-Type",
            value: answer.content.as_bytes(),
        },
        Header {
            name: b"Cache-Control",
            value: b"no-store",
        },
        Header {
            name: b"Allow",
            value: b"GET",
        },
        Header {
            name: b"Connection",
            value: b"close",
        },
    ];
    let body = answer.body.as_bytes();
    let mut text = Vec::new(alloc);
    let size = BodySize::Known(body.len() as u64);
    let reason = answer.status.reason.as_bytes();
    let head = server.write_response(&mut text, answer.status.code, reason, &headers, size);
    if head.is_err() {
        return Err(Unanswered);
    }
    // To HEAD no body is sent, and it is refused here. Where another one is refused, so is the end behind it.
    let _ = server.write_data(&mut text, body);
    match server.write_end(&mut text, &[]) {
        Ok(()) => Ok(text),
        Err(_) => Err(Unanswered),
    }
}

/// Sends an answer.
pub(crate) fn send<S: Write>(
    alloc: Global,
    server: &mut Server,
    stream: &mut S,
    answer: &Answer,
) -> Result<(), Unanswered> {
    let text = text_of(alloc, server, answer)?;
    match stream.write_all(&text) {
        Ok(()) => Ok(()),
        Err(_) => Err(Unanswered),
    }
}
