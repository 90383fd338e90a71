//! The calls that the entries of an order name.

ghost use Rattle.std.specs.Prelude.{◌≡◌, ◌++◌, decimal};
ghost use Rattle.std.specs.Fmt.{WritesOnOk};
ghost use Rattle.playing.specs.Prints.{number_text};
ghost use Rattle.playing.specs.Transcript.{call_in_order_at};

use events::{Entry, Event, Events};
use std::fmt;
use words::{Call, Client, Reply};

/// A call and its reply.
#[derive(Clone, Copy)]
pub struct Ordered {
    pub client: Client,
    /// Its number, from 1 on a log queue, 0 on a durable one.
    pub number: u64,
    pub call: Call,
    pub reply: Reply,
}

/// Writes the client, and the number of its call on a log queue.
fn write_caller<W: fmt::Write>(
    f: &mut fmt::Formatter<W>,
    client: Client,
    number: u64,
) -> fmt::Result
    ensures { WritesOnOk W.write_str_gives f.old result (decimal client.0 ++ number_text number) f.new }
{
    if number == 0 {
        write!(f, "{}", client.0)
    } else {
        write!(f, "{} #{number}", client.0)
    }
}

/// As a transcript spells it: `0 enq 05 done`, `0 #1 enq 09 done`, `1 deq got 05`.
impl fmt::Display for Ordered {
    ghost use Rattle.std.specs.Prelude.{Some};
    ghost use Rattle.playing.specs.Prints.{ordered_text};

    ghost output = { λ ordered. Some (ordered_text ordered) };

    fn fmt<W: fmt::Write>(&self, f: &mut fmt::Formatter<W>) -> fmt::Result {
        write_caller(f, self.client, self.number)?;
        match self.call {
            Call::Enq(value) => write!(f, " enq {value} {}", self.reply),
            Call::Deq => write!(f, " deq {}", self.reply),
        }
    }
}

/// The call that an entry names, with its reply; None where no call stands at its place.
pub fn named_call(events: &Events, entry: Entry) -> Option<Ordered>
    ensures { result ≡ call_in_order_at events.now.items entry }
{
    match events.get(entry.place) {
        Some(
            Event::Call {
                client,
                number,
                call,
            },
        ) => Some(Ordered {
            client,
            number,
            call,
            reply: entry.reply,
        }),
        _ => None,
    }
}
