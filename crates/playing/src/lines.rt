//! The lines of a transcript.

ghost use Rattle.std.specs.Prelude.{◌≡◌, ◌≢◌, ◌++◌, ◌∷◌, [], OnOk, IfOk, IfErr};
ghost use Rattle.playing.specs.Prints.{text_of};

use crate::entries::Ordered;
use crate::lists::push;
use grammar::Command;
use std::alloc::Global;
use std::fmt::{self, Write};
use std::marker::Model;
use words::{Client, Refusal, Reply, Told, Value};

/// The values that a queue holds, in order.
#[derive(Drop)]
pub struct Values {
    values: Vec<Value>,
}

impl Model for Values {
    ghost use Rattle.std.specs.Prelude.{List};
    ghost use Rattle.words.specs.PlainQueue.{Value as Message};

    ghost Value = { List Message };

    ghost view = { λ v. v.values.items };
}

impl Values {
    pub fn from_vec(values: Vec<Value>) -> Self
        ensures { result ≡ values.items }
    {
        Values { values }
    }
}

/// A line of a transcript.
#[derive(Drop)]
pub enum Line {
    /// How many words the memory has.
    Size(usize),
    /// A command started a call.
    Call(Command),
    /// A call returned, after so many steps.
    Return {
        client: Client,
        reply: Reply,
        steps: u64,
    },
    /// What a command asks for was refused.
    Refused(Refusal),
    /// A word is kept, and whether that changed its kept value.
    Evicted {
        word: u64,
        changed: bool,
    },
    /// The whole system stopped.
    Crash,
    /// Recovery is not at its end yet.
    Recovering,
    /// The queue is ready, after so many steps of recovery since the crash.
    Ready {
        steps: u64,
    },
    /// What a client is told.
    Told {
        client: Client,
        told: Told,
    },
    /// What the queue holds.
    Content(Values),
    /// How many calls took effect.
    Order(usize),
    /// One of those calls.
    Entry(Ordered),
}

/// Each value after a space, or a dash where there are none.
impl fmt::Display for Values {
    ghost use Rattle.std.specs.Prelude.{Some};
    ghost use Rattle.playing.specs.Prints.{values_text};

    ghost output = { λ values. Some (values_text values) };

    fn fmt<W: fmt::Write>(&self, f: &mut fmt::Formatter<W>) -> fmt::Result {
        if self.values.is_empty() {
            return write!(f, " -");
        }
        for value in &self.values {
            write!(f, " {value}")?;
        }
        Ok(())
    }
}

/// `size 24`, `call enq 0 05`, `return 0 done steps 22`, `refused 11 NoRoom`, `evict 5 kept` or `evict 5 same`,
/// `crash`, `recovering`, `ready steps 19`, `told 0 got 05`, `content 05 .` or `content -`, `order 2`, `0 enq 05 done`.
impl fmt::Display for Line {
    ghost use Rattle.std.specs.Prelude.{Some};
    ghost use Rattle.playing.specs.Prints.{line_text};

    ghost output = { λ line. Some (line_text line) };

    fn fmt<W: fmt::Write>(&self, f: &mut fmt::Formatter<W>) -> fmt::Result {
        match self {
            Line::Size(words) => write!(f, "size {words}"),
            Line::Call(command) => write!(f, "call {command}"),
            Line::Return {
                client,
                reply,
                steps,
            } => write!(f, "return {} {reply} steps {steps}", client.0),
            Line::Refused(refusal) => write!(f, "refused {refusal}"),
            Line::Evicted { word, changed } => {
                let outcome = if *changed { "kept" } else { "same" };
                write!(f, "evict {word} {outcome}")
            }
            Line::Crash => write!(f, "crash"),
            Line::Recovering => write!(f, "recovering"),
            Line::Ready { steps } => write!(f, "ready steps {steps}"),
            Line::Told { client, told } => write!(f, "told {} {told}", client.0),
            Line::Content(values) => write!(f, "content{values}"),
            Line::Order(calls) => write!(f, "order {calls}"),
            Line::Entry(ordered) => write!(f, "{ordered}"),
        }
    }
}

/// Adds a line.
pub fn add(lines: &mut Vec<Line>, line: Line) -> Result<(), Refusal>
    ensures lines { OnOk result (lines.new.items ≡ lines.old.items ++ line ∷ []) }
    ensures errors { IfErr result (λ e. e ≡ Refusal.NoMemory) }
{
    push(lines, line)
}

/// Adds why something was refused; want of memory is no line, but ends the transcript.
pub fn add_refused(lines: &mut Vec<Line>, refusal: Refusal) -> Result<(), Refusal>
    ensures lines { OnOk result (lines.new.items ≡ lines.old.items ++ Line.Refused refusal ∷ []) }
    ensures another { OnOk result (refusal ≢ Refusal.NoMemory) }
    ensures errors { IfErr result (λ e. e ≡ Refusal.NoMemory) }
{
    if let Refusal::NoMemory = refusal {
        return Err(refusal);
    }
    add(lines, Line::Refused(refusal))
}

/// The text of lines, a newline after each: the whole of it, or NoMemory.
pub fn text(alloc: Global, lines: &[Line]) -> Result<Vec<u8>, Refusal>
    ensures text { IfOk result (λ text. text.items ≡ text_of lines.now) }
    ensures errors { IfErr result (λ e. e ≡ Refusal.NoMemory) }
{
    let mut text = String::new(alloc);
    for line in lines {
        writeln!(text, "{line}").map_err(|_| Refusal::NoMemory)?;
    }
    Ok(text.into_bytes())
}
