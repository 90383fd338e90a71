//! Asking for numbers.

use http1::{BodySize, Client, Event, Header, Limits};
use httparse::spans::EMPTY_HEADER_SPAN;
use std::alloc::Global;
use std::io::{Read, Write};

/// How many bytes of an answer are taken in at once, and how often.
const BUFFER_BYTES: usize = 4_096;

const READS: u32 = 64;

/// How many lines the head of an answer may have.
const HEAD_LINES: usize = 64;

/// How many parts an answer may have: its head, pieces of its body, and its end.
const PARTS: u32 = 64;

/// The status of an answer that has the numbers.
const OK_STATUS: u16 = 200;

/// The text that asks this host for its numbers.
fn request_text(alloc: Global, client: &mut Client, host: &str) -> Option<Vec<u8>> {
    let headers = [
        Header {
            name: b"Host",
            value: host.as_bytes(),
        },
        Header {
            name: b"Connection",
            value: b"close",
        },
    ];
    let mut text = Vec::new(alloc);
    let head = client.write_request(&mut text, b"GET", b"/stats", &headers, BodySize::Empty);
    if head.is_err() || client.write_end(&mut text, &[]).is_err() {
        return None;
    }
    Some(text)
}

/// All that comes, up to the end of the connection.
fn all_of<S: Read>(alloc: Global, stream: &mut S) -> Option<Vec<u8>> {
    let mut bytes = Vec::new(alloc);
    let mut buffer = [0; BUFFER_BYTES];
    for _ in 0..READS {
        let Ok(count) = stream.read(&mut buffer) else {
            return None;
        };
        if count == 0 {
            return Some(bytes);
        }
        if bytes.extend_from_slice(&buffer[..count]).is_err() {
            return None;
        }
    }
    None
}

/// The body of an answer, which is whole.
fn body_in(alloc: Global, client: &mut Client, text: &[u8]) -> Option<Vec<u8>> {
    let mut spans = [EMPTY_HEADER_SPAN; HEAD_LINES];
    let mut rest = text;
    let mut body = Vec::new(alloc);
    for _ in 0..PARTS {
        let Ok(read) = client.read(rest, &mut spans) else {
            return None;
        };
        match read.event {
            Event::Head(head) if head.code == OK_STATUS => {}
            Event::Data(piece) => {
                if body.extend_from_slice(piece.of(rest)).is_err() {
                    return None;
                }
            }
            Event::End(_) => return Some(body),
            _ => return None,
        }
        rest = &rest[read.consumed..];
    }
    None
}

/// The numbers of a server as JSON, over a connection to where it tells them; none, where it does not tell.
pub fn ask_stats<S: Read + Write>(alloc: Global, stream: &mut S, host: &str) -> Option<Vec<u8>> {
    let mut client = Client::new(Limits::default());
    let request = request_text(alloc, &mut client, host)?;
    if stream.write_all(&request).is_err() {
        return None;
    }
    let answer = all_of(alloc, stream)?;
    body_in(alloc, &mut client, &answer)
}
