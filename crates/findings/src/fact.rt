//! What happened to a queue, as it is kept of a recording: clients are any numbers, and values go by theirs.

ghost use Rattle.std.specs.Prelude.{◌≡◌};
ghost use Rattle.findings.specs.Facts.{call_of, reply_of};

use crate::rank::ranked;
use words::{Call, Reply};

/// What a client asks for.
#[derive(Clone, Copy)]
pub enum RankedCall {
    /// Append the value of this number.
    Put(u32),
    /// Remove the first value.
    Take,
}

/// What a call is answered.
#[derive(Clone, Copy)]
pub enum RankedReply {
    Done,
    /// The value of this number.
    Got(u32),
    Empty,
}

/// What happened.
#[derive(Clone, Copy)]
pub enum Fact {
    /// A client called.
    Call { client: u32, call: RankedCall },
    /// The client's call was answered.
    Return { client: u32, reply: RankedReply },
    /// Everything stopped.
    Crash,
    /// Recovery was done.
    Ready,
}

impl RankedCall {
    /// The same with the message that stands for the value.
    pub fn call(self) -> Call
        ensures { result ≡ call_of self }
    {
        match self {
            RankedCall::Put(rank) => Call::Enq(ranked(rank)),
            RankedCall::Take => Call::Deq,
        }
    }
}

impl RankedReply {
    /// The same with the message that stands for the value.
    pub fn reply(self) -> Reply
        ensures { result ≡ reply_of self }
    {
        match self {
            RankedReply::Done => Reply::Done,
            RankedReply::Got(rank) => Reply::Got(ranked(rank)),
            RankedReply::Empty => Reply::Empty,
        }
    }
}
