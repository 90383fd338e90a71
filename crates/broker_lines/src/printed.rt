//! The lines of a broker's transcript.

ghost use Rattle.std.specs.Prelude.{◌≡◌};
ghost use Rattle.std.specs.Fmt.{WritesOnOk};
ghost use Rattle.grammar.specs.Grammar.{kind_word};
ghost use Rattle.broker_lines.specs.Prints.{printed_text, rule_word};

use arena::SlotId;
use directory::{Name, Queue};
use playing::Line;
use std::fmt;
use words::{Call, Client, Item, Kind, Refusal, Reply, Rule};

/// A line of a transcript.
#[derive(Drop)]
pub enum Printed {
    /// What a queue's script has too, about the whole memory.
    Whole(Line),
    /// What a queue's script has too, of the queue of this name.
    Of {
        name: Name,
        line: Line,
    },
    /// A queue was created, in so many steps.
    Created {
        name: Name,
        slot: SlotId,
        steps: u64,
    },
    /// A creation is not at its end yet.
    Creating,
    /// Which slot a queue has.
    Found {
        name: Name,
        slot: SlotId,
    },
    /// How many queues there are.
    Queues(usize),
    /// One of them.
    Place {
        slot: SlotId,
        queue: Queue,
    },
    /// The histories of all queues ended, and others began.
    Rotated,
    /// A queue was put into fresh records.
    Renewed,
    /// An image was remembered: how many bytes it has, and the first four of its SHA-256.
    Image {
        size: usize,
        digest: Item,
    },
    /// A word of it was changed, which had this value.
    WasSet {
        word: u64,
        was: u64,
    },
    /// A broker began on it.
    Booted,
    /// None did, since the words break this rule first.
    Unsound(Rule),
    /// What a client was answered that asked the session: to its call of this number, if it has one.
    Replied {
        name: Name,
        client: Client,
        number: Option<u64>,
        reply: Reply,
    },
    /// The call of this number began.
    Begun {
        name: Name,
        client: Client,
        number: u64,
        call: Call,
    },
}

/// A kind as a script spells it.
fn kind_word(kind: Kind) -> &'static str
    ensures { result.now ≡ kind_word kind }
{
    match kind {
        Kind::Durable => "durable",
        Kind::Log => "log",
    }
}

/// The name of a rule of sound words.
fn rule_word(rule: Rule) -> &'static str
    ensures { result.now ≡ rule_word rule }
{
    match rule {
        Rule::Size => "Size",
        Rule::Records => "Records",
        Rule::Chain => "Chain",
        Rule::Claims => "Claims",
        Rule::Ends => "Ends",
        Rule::Rows => "Rows",
        Rule::Entries => "Entries",
        Rule::Image => "Image",
        Rule::Directory => "Directory",
    }
}

/// Writes which queue was created, where, and in how many steps.
fn write_created<W: fmt::Write>(
    f: &mut fmt::Formatter<W>,
    name: &Name,
    slot: SlotId,
    steps: u64,
) -> fmt::Result
    ensures { WritesOnOk W.write_str_gives f.old result (printed_text (Printed.Created name.now slot steps)) f.new }
{
    write!(f, "created {name} slot {} steps {steps}", slot.0)
}

/// Writes which slot a queue has.
fn write_found<W: fmt::Write>(f: &mut fmt::Formatter<W>, name: &Name, slot: SlotId) -> fmt::Result
    ensures { WritesOnOk W.write_str_gives f.old result (printed_text (Printed.Found name.now slot)) f.new }
{
    write!(f, "found {name} slot {}", slot.0)
}

/// Writes the queue of a slot.
fn write_place<W: fmt::Write>(f: &mut fmt::Formatter<W>, slot: SlotId, queue: &Queue) -> fmt::Result
    ensures { WritesOnOk W.write_str_gives f.old result (printed_text (Printed.Place slot queue.now)) f.new }
{
    let kind = kind_word(queue.kind);
    write!(f, "slot {} {} {kind}", slot.0, queue.name)
}

/// Writes which rule the words break.
fn write_unsound<W: fmt::Write>(f: &mut fmt::Formatter<W>, rule: Rule) -> fmt::Result
    ensures { WritesOnOk W.write_str_gives f.old result (printed_text (Printed.Unsound rule)) f.new }
{
    let refusal = Refusal::Damaged(rule);
    let name = rule_word(rule);
    write!(f, "refused {refusal} {name}")
}

/// Writes what a client was answered.
fn write_reply<W: fmt::Write>(
    f: &mut fmt::Formatter<W>,
    name: &Name,
    client: Client,
    number: Option<u64>,
    reply: Reply,
) -> fmt::Result
    // Long, since it names each part of the line, and what that is written to.
    ensures { WritesOnOk W.write_str_gives f.old result
        (printed_text (Printed.Replied name.now client number reply)) f.new }
{
    match number {
        Some(number) => write!(f, "{name}: reply {} {number} {reply}", client.0),
        None => write!(f, "{name}: reply {} {reply}", client.0),
    }
}

/// Writes which call began.
fn write_call<W: fmt::Write>(
    f: &mut fmt::Formatter<W>,
    name: &Name,
    client: Client,
    number: u64,
    call: Call,
) -> fmt::Result
    ensures { WritesOnOk W.write_str_gives f.old result
        (printed_text (Printed.Begun name.now client number call)) f.new }
{
    match call {
        Call::Enq(value) => write!(f, "{name}: call begin {} {number} enq {value}", client.0),
        Call::Deq => write!(f, "{name}: call begin {} {number} deq", client.0),
    }
}

/// `a: return 0 done steps 28`, `created a slot 0 steps 12`, `creating`, `found a slot 0`, `queues 2`,
/// `slot 0 a durable`, `rotated`, `renewed`, `image bytes 2396 digest 09f3c1aa`, `set 5 was 1`, `booted`,
/// `refused 29 Damaged Records`, `a: reply 0 1 done`, `a: reply 0 done`, `a: call begin 0 1 enq 05`, or a line of a
/// queue's transcript.
impl fmt::Display for Printed {
    ghost use Rattle.std.specs.Prelude.{Some};

    ghost output = { λ line. Some (printed_text line) };

    fn fmt<W: fmt::Write>(&self, f: &mut fmt::Formatter<W>) -> fmt::Result {
        match self {
            Printed::Whole(line) => write!(f, "{line}"),
            Printed::Of { name, line } => write!(f, "{name}: {line}"),
            Printed::Created { name, slot, steps } => write_created(f, name, *slot, *steps),
            Printed::Creating => f.write_str("creating"),
            Printed::Found { name, slot } => write_found(f, name, *slot),
            Printed::Queues(count) => write!(f, "queues {count}"),
            Printed::Place { slot, queue } => write_place(f, *slot, queue),
            Printed::Rotated => f.write_str("rotated"),
            Printed::Renewed => f.write_str("renewed"),
            Printed::Image { size, digest } => write!(f, "image bytes {size} digest {digest}"),
            Printed::WasSet { word, was } => write!(f, "set {word} was {was}"),
            Printed::Booted => f.write_str("booted"),
            Printed::Unsound(rule) => write_unsound(f, *rule),
            Printed::Replied {
                name,
                client,
                number,
                reply,
            } => write_reply(f, name, *client, *number, *reply),
            Printed::Begun {
                name,
                client,
                number,
                call,
            } => write_call(f, name, *client, *number, *call),
        }
    }
}
