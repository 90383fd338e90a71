//! What a client asks.

use directory::Name;
use words::{Kind, Value};

/// What a client asks, a line each. A queue that is none is a text that is no name.
#[derive(Clone, Copy, Debug, PartialEq, Eq)]
pub enum Request {
    /// A queue of this name and kind is created.
    Create {
        queue: Option<Name>,
        kind: Kind,
    },
    /// All queues.
    List,
    /// An enqueue, with a number in a log queue.
    Put {
        client: u64,
        queue: Option<Name>,
        value: Value,
        number: Option<u64>,
    },
    /// A dequeue, likewise.
    Take {
        client: u64,
        queue: Option<Name>,
        number: Option<u64>,
    },
    /// What the client was last told.
    Told {
        client: u64,
        queue: Option<Name>,
    },
    /// Everything stops.
    Crash,
    /// The broker recovers.
    Recover,
    /// The server ends.
    Stop,
}
