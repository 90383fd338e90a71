//! What a client is told after a crash.

use crate::{Reply, Value};
use std::fmt;

/// What became of a numbered call.
#[derive(Clone, Copy, Debug, PartialEq, Eq)]
pub enum Outcome {
    /// It took no effect and never will.
    NotTaken,
    /// It took effect, with this reply.
    Taken(Reply),
}

/// What a client of a log queue is told: the number of its last announced call, and what became of it.
#[derive(Clone, Copy, Debug, PartialEq, Eq)]
pub struct Verdict {
    pub number: u64,
    pub outcome: Outcome,
}

/// What a client of a durable queue is told of its dequeues.
#[derive(Clone, Copy, Debug, PartialEq, Eq)]
pub enum Row {
    /// There was none.
    NoCall,
    /// The last one took no effect.
    Open,
    /// It found the queue empty.
    Empty,
    /// It got this value.
    Got(Value),
}

/// What a client is told, by the kind of its queue.
#[derive(Clone, Copy, Debug, PartialEq, Eq)]
pub enum Told {
    /// Nothing: no call was announced, or there is no such client.
    None,
    Verdict(Verdict),
    Row(Row),
}

/// As a transcript spells it: `1 nottaken`, `2 got 68656c6c6f`.
impl fmt::Display for Verdict {
    ghost use Rattle.std.specs.Prelude.{Some};
    ghost use Rattle.words.specs.Text.{verdict_text};

    ghost output = { λ verdict. Some (verdict_text verdict) };

    fn fmt<W: fmt::Write>(&self, f: &mut fmt::Formatter<W>) -> fmt::Result {
        let number = self.number;
        match self.outcome {
            Outcome::NotTaken => write!(f, "{number} nottaken"),
            Outcome::Taken(reply) => write!(f, "{number} {reply}"),
        }
    }
}

/// As a transcript spells it: `nocall`, `open`, `empty`, `got 68656c6c6f`.
impl fmt::Display for Row {
    ghost use Rattle.std.specs.Prelude.{Some};
    ghost use Rattle.words.specs.Text.{row_text};

    ghost output = { λ row. Some (row_text row) };

    fn fmt<W: fmt::Write>(&self, f: &mut fmt::Formatter<W>) -> fmt::Result {
        match self {
            Row::NoCall => write!(f, "nocall"),
            Row::Open => write!(f, "open"),
            Row::Empty => write!(f, "empty"),
            Row::Got(value) => write!(f, "got {value}"),
        }
    }
}

/// As a transcript spells it: `none`, or the verdict or the row.
impl fmt::Display for Told {
    ghost use Rattle.std.specs.Prelude.{Some};
    ghost use Rattle.words.specs.Text.{told_text};

    ghost output = { λ told. Some (told_text told) };

    fn fmt<W: fmt::Write>(&self, f: &mut fmt::Formatter<W>) -> fmt::Result {
        match self {
            Told::None => write!(f, "none"),
            Told::Verdict(verdict) => write!(f, "{verdict}"),
            Told::Row(row) => write!(f, "{row}"),
        }
    }
}
