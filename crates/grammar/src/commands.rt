//! What the lines of a script say.

ghost use Rattle.std.specs.Prelude.{◌≡◌, ◌∷◌, ◌++◌, Ok, decimal};
ghost use Rattle.std.specs.Fmt.{WritesOnOk};
ghost use Rattle.grammar.specs.Grammar.{IsServedQueue, shape_by};

use arena::Layout;
use std::fmt;
use words::{Client, Kind, Refusal, Value};

/// The first line of a script: the queue that it is about.
#[derive(Clone, Copy)]
pub struct QueueLine {
    pub kind: Kind,
    pub clients: u32,
    pub records: u32,
}

impl QueueLine {
    /// The layout that it asks for.
    pub fn layout(&self) -> Result<Layout, Refusal>
        requires { IsServedQueue self.now }
        ensures { result ≡ Ok (shape_by self.now) }
    {
        Layout::make(self.kind, self.clients, self.records)
    }
}

/// Any later line of a script.
#[derive(Clone, Copy)]
pub enum Command {
    /// The client of a durable queue starts an enqueue.
    Enq {
        client: Client,
        value: Value,
    },
    /// The client of a log queue starts an enqueue, with its number.
    NumberedEnq {
        client: Client,
        number: u64,
        value: Value,
    },
    /// The client of a durable queue starts a dequeue.
    Deq {
        client: Client,
    },
    /// The client of a log queue starts a dequeue, with its number.
    NumberedDeq {
        client: Client,
        number: u64,
    },
    /// The client's call goes on by at most so many steps.
    Step {
        client: Client,
        most: u32,
    },
    /// The client's call goes on alone to its answer.
    End {
        client: Client,
    },
    /// The cached value of a word is kept.
    Evict {
        word: u64,
    },
    /// The whole system stops: what is not kept is lost.
    Crash,
    /// Recovery goes on to its end.
    Recover,
    /// Recovery goes on by at most so many steps.
    RecoverBy {
        most: u32,
    },
    /// Show what the queue holds.
    Content,
    /// Show in which order the calls took effect.
    Order,
    /// Make the act before once more, if it was refused for want of memory.
    Again,
}

/// Writes a word and the number after it.
fn write_numbered<W: fmt::Write>(f: &mut fmt::Formatter<W>, word: &str, number: u64) -> fmt::Result
    ensures { WritesOnOk W.write_str_gives f.old result (word.now ++ 32 ∷ decimal number) f.new }
{
    write!(f, "{word} {number}")
}

/// Writes a word and the two numbers after it.
fn write_twice_numbered<W: fmt::Write>(
    f: &mut fmt::Formatter<W>,
    word: &str,
    first: u64,
    second: u64,
) -> fmt::Result
    ensures { WritesOnOk W.write_str_gives f.old result (word.now ++ 32 ∷ decimal first ++ 32 ∷ decimal second) f.new }
{
    write!(f, "{word} {first} {second}")
}

/// As a script spells it: `enq 0 05`.
impl fmt::Display for Command {
    ghost use Rattle.std.specs.Prelude.{Some};
    ghost use Rattle.grammar.specs.Grammar.{command_text};

    ghost output = { λ command. Some (command_text command) };

    fn fmt<W: fmt::Write>(&self, f: &mut fmt::Formatter<W>) -> fmt::Result {
        match *self {
            Command::Enq { client, value } => write!(f, "enq {} {value}", client.0),
            Command::NumberedEnq {
                client,
                number,
                value,
            } => write!(f, "enq {} {number} {value}", client.0),
            Command::Deq { client } => write_numbered(f, "deq", client.0 as u64),
            Command::NumberedDeq { client, number } => {
                write_twice_numbered(f, "deq", client.0 as u64, number)
            }
            Command::Step { client, most } => {
                write_twice_numbered(f, "step", client.0 as u64, most as u64)
            }
            Command::End { client } => write_numbered(f, "end", client.0 as u64),
            Command::Evict { word } => write_numbered(f, "evict", word),
            Command::Crash => f.write_str("crash"),
            Command::Recover => f.write_str("recover"),
            Command::RecoverBy { most } => write_numbered(f, "recover", most as u64),
            Command::Content => f.write_str("content"),
            Command::Order => f.write_str("order"),
            Command::Again => f.write_str("again"),
        }
    }
}
