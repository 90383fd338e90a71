//! A connection, between its turns.

use mio::net::TcpStream;
use std::alloc::Global;

/// A connection that is open.
#[derive(Drop)]
pub struct Connection {
    pub socket: TcpStream,
    /// The beginning of a line whose end did not come yet.
    pub part: Vec<u8>,
    /// What could not be sent yet.
    pub unsent: Vec<u8>,
    /// Whether more of its input may be there, and others have their turn first.
    pub paused: bool,
    /// Whether the system has told that its input has an end.
    pub closing: bool,
    /// Whether a line came over it in its last turn.
    pub heard: bool,
    /// Whether it ends once all is sent.
    pub ends: bool,
}

impl Connection {
    /// A connection over which nothing came yet. Its socket does not wait.
    pub fn new(alloc: Global, socket: TcpStream) -> Self {
        Connection {
            socket,
            part: Vec::new(alloc),
            unsent: Vec::new(alloc),
            paused: false,
            closing: false,
            heard: false,
            ends: false,
        }
    }
}
