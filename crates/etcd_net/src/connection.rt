//! A connection to a member, on which one request is under way at a time.

use etcd_log::Lost;
use http1::{BodySize, Client, Event, Header, Limits};
use httparse::spans::EMPTY_HEADER_SPAN;
use std::alloc::Global;
use std::io::{Read, Write};
use std::net::{SocketAddr, TcpStream};
use std::time::Duration;

/// How long a member may take for anything.
const MOST_SECONDS: u64 = 2;

/// How many bytes are taken in at once.
const BUFFER_BYTES: usize = 16_384;

/// How many lines the head of an answer may have, and the trailer behind its body.
const HEAD_LINES: usize = 32;

/// The status of an answer that tells what became of its request.
const OK_STATUS: u16 = 200;

/// A connection to a member. Once anything on it failed it is let go, so that no answer comes to another request.
#[derive(Drop)]
pub(crate) struct Connection {
    alloc: Global,
    stream: TcpStream,
    client: Client,
    /// The member's address, as requests name it.
    host: String,
    /// What came, and was not read yet.
    unread: Vec<u8>,
}

/// What an answer has come to.
#[derive(Clone, Copy)]
enum Heard {
    /// There is more of it in what came.
    Some,
    /// More has to come.
    TooLittle,
    /// It is whole.
    Whole,
}

impl Connection {
    /// A connection to the member at this address.
    pub(crate) fn open(rt: &HostRuntime, address: SocketAddr) -> Result<Self, Lost> {
        let most = Duration::from_secs(MOST_SECONDS);
        let Ok(stream) = TcpStream::connect_timeout(rt, &address, most) else {
            return Err(Lost);
        };
        let is_set = stream.set_nodelay(true).is_ok()
            && stream.set_read_timeout(Some(most)).is_ok()
            && stream.set_write_timeout(Some(most)).is_ok();
        let Ok(host) = address.to_string(rt.alloc()) else {
            return Err(Lost);
        };
        if !is_set {
            return Err(Lost);
        }
        Ok(Connection {
            alloc: rt.alloc(),
            stream,
            client: Client::new(Limits::default()),
            host,
            unread: Vec::new(rt.alloc()),
        })
    }

    /// The text of a request with this body.
    fn request_text(&mut self, path: &str, body: &[u8]) -> Result<Vec<u8>, Lost> {
        let headers = [
            Header {
                name: b"Host",
                value: self.host.as_bytes(),
            },
            Header {
                name: b"Content-Type",
                value: b"application/json",
            },
        ];
        let mut text = Vec::new(self.alloc);
        let size = BodySize::Known(body.len() as u64);
        let head = self
            .client
            .write_request(&mut text, b"POST", path.as_bytes(), &headers, size);
        if head.is_err() {
            return Err(Lost);
        }
        if self.client.write_data(&mut text, body).is_err() {
            return Err(Lost);
        }
        match self.client.write_end(&mut text, &[]) {
            Ok(()) => Ok(text),
            Err(_) => Err(Lost),
        }
    }

    /// Takes in some bytes that came.
    fn take_in(&mut self) -> Result<(), Lost> {
        let mut buffer = [0; BUFFER_BYTES];
        let Ok(count) = self.stream.read(&mut buffer) else {
            return Err(Lost);
        };
        // An answer ends by its own text, so the end of a connection cuts it.
        if count == 0 {
            return Err(Lost);
        }
        match self.unread.extend_from_slice(&buffer[..count]) {
            Ok(()) => Ok(()),
            Err(_) => Err(Lost),
        }
    }

    /// Reads on in what came, and puts what it is of the body behind the body.
    fn read_on(&mut self, body: &mut Vec<u8>) -> Result<Heard, Lost> {
        let mut spans = [EMPTY_HEADER_SPAN; HEAD_LINES];
        let Ok(read) = self.client.read(&self.unread, &mut spans) else {
            return Err(Lost);
        };
        let heard = match read.event {
            Event::NeedMore => Heard::TooLittle,
            Event::Head(head) if head.code != OK_STATUS => return Err(Lost),
            Event::Head(_) | Event::Informational(_) => Heard::Some,
            Event::Data(piece) => match body.extend_from_slice(piece.of(&self.unread)) {
                Ok(()) => Heard::Some,
                Err(_) => return Err(Lost),
            },
            Event::End(_) => Heard::Whole,
            Event::Paused | Event::Upgraded | Event::Closed => return Err(Lost),
        };
        self.unread.drain(..read.consumed);
        Ok(heard)
    }

    /// The body of the answer that comes next.
    fn answer(&mut self) -> Result<Vec<u8>, Lost> {
        let mut body = Vec::new(self.alloc);
        for _ in 0..u64::MAX {
            match self.read_on(&mut body)? {
                Heard::Some => {}
                Heard::TooLittle => self.take_in()?,
                Heard::Whole => return Ok(body),
            }
        }
        Err(Lost)
    }

    /// The body of the answer to a request with this body.
    pub(crate) fn ask(&mut self, path: &str, body: &[u8]) -> Result<Vec<u8>, Lost> {
        // What came unasked would be taken for the answer.
        if !self.unread.is_empty() {
            return Err(Lost);
        }
        let text = self.request_text(path, body)?;
        if self.stream.write_all(&text).is_err() {
            return Err(Lost);
        }
        self.answer()
    }
}
