//! What the lines of a broker's script say.

use directory::Name;
use grammar::Command;
use words::{Call, Client, Kind};

/// The first line of a script: the broker that it is about.
#[derive(Clone, Copy)]
pub struct BrokerLine {
    pub clients: u32,
    pub records: u32,
}

/// What a client asks the session for.
#[derive(Clone, Copy)]
pub enum Ask {
    /// The call of this number, which runs to its end, or its kept reply.
    Request {
        client: Client,
        number: u64,
        call: Call,
    },
    /// A call without a number, which runs to its end.
    Plain {
        client: Client,
        call: Call,
    },
    /// The call of this number, which only begins, or its kept reply.
    Begin {
        client: Client,
        number: u64,
        call: Call,
    },
}

/// Any later line of a script.
#[derive(Clone, Copy)]
pub enum Statement {
    /// A queue is created.
    Create { name: Name, kind: Kind },
    /// A creation begins, and makes at most so many steps.
    BeginCreation { name: Name, kind: Kind, most: u32 },
    /// The creation that is under way makes a step.
    CreateStep,
    /// It makes at most so many steps.
    CreateSteps { most: u32 },
    /// Show which slot the queue of this name has.
    Find { name: Name },
    /// Show the queues.
    List,
    /// The histories of all queues end, and others begin.
    Rotate,
    /// The queue of this name is put into fresh records, and everything stops.
    Renew { name: Name },
    /// The image of the memory is shown, and remembered.
    Image,
    /// A word of the remembered image is changed.
    SetWord { word: u64, value: u64 },
    /// A broker begins on the remembered image.
    Boot,
    /// A line of a queue's script that is about the whole memory: an eviction, a crash or recovery.
    Whole { command: Command },
    /// Any other line of a queue's script, on the queue of this name.
    On { name: Name, command: Command },
    /// Show what a client of this queue was told last.
    Told { name: Name, client: Client },
    /// A client of this queue asks the session.
    Asks { name: Name, ask: Ask },
}
