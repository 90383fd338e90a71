//! What was recorded, one thing after another.

ghost use Rattle.std.specs.Prelude.{◌≡◌};
ghost use Rattle.findings.specs.Facts.{call_of as ranked_call, reply_of as ranked_reply};
ghost use Rattle.findings.specs.Ranks.{ranked};
ghost use Rattle.recording.specs.Recording.{message, reply_of, asked_by};

use findings::{RankedCall, RankedReply, ranked};
use indexmap::IndexSet;
use words::{Call, Reply, Value};

/// What a call was answered.
#[derive(Clone, Copy)]
pub enum Said {
    Done,
    /// The value of this number.
    Got(usize),
    Empty,
}

/// What happened. Calls and values go by their numbers.
#[derive(Clone, Copy)]
pub enum Act {
    Begin(usize),
    Answer(usize, Said),
    /// The call certainly did nothing.
    Refuse(usize),
    /// The client gave up on the call, which stays open.
    GiveUp(usize),
    Crash,
    /// The interrupted call took effect, with this answer.
    LearnTaken(usize, Said),
    /// It did not.
    LearnNotTaken(usize),
}

/// What happened, the line that says so, and one more than the number of its time, if it has one.
#[derive(Clone, Copy)]
pub struct Step {
    pub act: Act,
    pub line: u32,
    pub time: u32,
}

/// A call: its client, the number by which the history knows that, and the value that it puts.
#[derive(Clone, Copy)]
pub struct CallOf {
    pub client: usize,
    pub number: u32,
    /// The number of the value, or nothing if it takes.
    pub puts: Option<usize>,
    /// The queue held the value at first.
    pub is_base: bool,
}

/// A recording. Clients, values and times are kept as JSON texts.
#[derive(Drop)]
pub struct Recording {
    pub calls: Vec<CallOf>,
    pub steps: Vec<Step>,
    pub clients: IndexSet<String>,
    pub values: IndexSet<String>,
    pub times: Vec<String>,
    /// For each value its number among those that are put, as they are put; those that are not come behind.
    pub ranks: Vec<u32>,
}

impl Recording {
    /// The number of a value among those that are put.
    fn rank(&self, value: usize) -> u32
        ensures { ranked result ≡ message self.now value }
    {
        self.ranks.get(value).copied().unwrap_or(u32::MAX)
    }

    /// The message that stands for a value: its number among those that are put.
    pub fn message(&self, value: usize) -> Value
        ensures { result ≡ message self.now value }
    {
        ranked(self.rank(value))
    }

    /// The reply that was said.
    pub fn reply_of(&self, said: Said) -> Reply
        ensures { result ≡ reply_of self.now said }
    {
        match said {
            Said::Done => Reply::Done,
            Said::Got(value) => Reply::Got(self.message(value)),
            Said::Empty => Reply::Empty,
        }
    }

    /// What a call asks for.
    pub fn asked_by(&self, call: CallOf) -> Call
        ensures { result ≡ asked_by self.now call }
    {
        match call.puts {
            Some(value) => Call::Enq(self.message(value)),
            None => Call::Deq,
        }
    }

    /// The same, with the number of the value in place of the message.
    pub fn ranked_reply(&self, said: Said) -> RankedReply
        ensures { ranked_reply result ≡ reply_of self.now said }
    {
        match said {
            Said::Done => RankedReply::Done,
            Said::Got(value) => RankedReply::Got(self.rank(value)),
            Said::Empty => RankedReply::Empty,
        }
    }

    /// So it is of what a call asks for.
    pub fn ranked_call(&self, call: CallOf) -> RankedCall
        ensures { ranked_call result ≡ asked_by self.now call }
    {
        match call.puts {
            Some(value) => RankedCall::Put(self.rank(value)),
            None => RankedCall::Take,
        }
    }
}
