//! The lines that are served, a row for each. They are tried in turn: a line has the words of one row at most.

ghost use Rattle.std.specs.Prelude.{◌≡◌, MatchOption};
ghost use Rattle.words.specs.declared.call.Client.{Client};
ghost use Rattle.grammar.specs.Lines.{BeginsWith};
ghost use Rattle.grammar.specs.Grammar.{SaysQueue, SaysCommand, kind_word, is_on, is_shown};
ghost use Rattle.grammar.specs.Reading.{SaysNone, SaysNone₂, SaysNone₃};
ghost use Rattle.grammar.specs.Rows.{IsNoCall, IsNoMemoryLine, IsNoCrashLine, NothingFollowsKind};
ghost use Rattle.grammar.specs.declared.commands.Command.{Command};
ghost use Rattle.grammar.specs.declared.commands.QueueLine.{QueueLine};

use crate::commands::{Command, QueueLine};
use crate::limits::{CLIENT, CLIENTS, NUMBER, RECORDS, STEPS};
use crate::line::{
    after_name, is_name, number_and_value, numbers_and_value, one_number, two_numbers,
};
use words::{Client, Kind};

/// The kind of a queue, and what follows it.
pub fn kind(text: &[u8]) -> Option<(Kind, &[u8])>
    ensures { MatchOption result (NothingFollowsKind text.now)
        (λ r. BeginsWith text.now (kind_word r.0) r.1.now) }
{
    if let Some(rest) = after_name(text, b"durable") {
        return Some((Kind::Durable, rest));
    }
    Some((Kind::Log, after_name(text, b"log")?))
}

/// `queue durable T K`, `queue log T K`
pub fn queue_line(line: &[u8]) -> Option<QueueLine>
    ensures { MatchOption result ((queue : QueueLine) → SaysQueue line.now queue → ⊥) (SaysQueue line.now) }
{
    let (kind, counts) = kind(after_name(line, b"queue")?)?;
    let (clients, records) = two_numbers(counts, CLIENTS, RECORDS)?;
    Some(QueueLine {
        kind,
        clients: clients as u32,
        records: records as u32,
    })
}

/// `enq C V`
fn enq(line: &[u8]) -> Option<Command>
    ensures { MatchOption result (SaysNone₂ (SaysCommand line.now) Command.Enq) (SaysCommand line.now) }
{
    let numbers = after_name(line, b"enq")?;
    let (client, value) = number_and_value(numbers, CLIENT)?;
    Some(Command::Enq {
        client: Client(client as u8),
        value,
    })
}

/// `enq C N V`
fn numbered_enq(line: &[u8]) -> Option<Command>
    ensures { MatchOption result (SaysNone₃ (SaysCommand line.now) Command.NumberedEnq) (SaysCommand line.now) }
{
    let numbers = after_name(line, b"enq")?;
    let (client, number, value) = numbers_and_value(numbers, CLIENT, NUMBER)?;
    Some(Command::NumberedEnq {
        client: Client(client as u8),
        number,
        value,
    })
}

/// `deq C`
fn deq(line: &[u8]) -> Option<Command>
    ensures { MatchOption result (SaysNone (SaysCommand line.now) Command.Deq) (SaysCommand line.now) }
{
    let numbers = after_name(line, b"deq")?;
    let client = one_number(numbers, CLIENT)?;
    Some(Command::Deq {
        client: Client(client as u8),
    })
}

/// `deq C N`
fn numbered_deq(line: &[u8]) -> Option<Command>
    ensures { MatchOption result (SaysNone₂ (SaysCommand line.now) Command.NumberedDeq) (SaysCommand line.now) }
{
    let numbers = after_name(line, b"deq")?;
    let (client, number) = two_numbers(numbers, CLIENT, NUMBER)?;
    Some(Command::NumberedDeq {
        client: Client(client as u8),
        number,
    })
}

/// `step C M`
fn step(line: &[u8]) -> Option<Command>
    ensures { MatchOption result (SaysNone₂ (SaysCommand line.now) Command.Step) (SaysCommand line.now) }
{
    let numbers = after_name(line, b"step")?;
    let (client, most) = two_numbers(numbers, CLIENT, STEPS)?;
    Some(Command::Step {
        client: Client(client as u8),
        most: most as u32,
    })
}

/// `end C`
fn end(line: &[u8]) -> Option<Command>
    ensures { MatchOption result (SaysNone (SaysCommand line.now) Command.End) (SaysCommand line.now) }
{
    let numbers = after_name(line, b"end")?;
    let client = one_number(numbers, CLIENT)?;
    Some(Command::End {
        client: Client(client as u8),
    })
}

/// `evict W`
fn evict(line: &[u8]) -> Option<Command>
    ensures { MatchOption result (SaysNone (SaysCommand line.now) Command.Evict) (SaysCommand line.now) }
{
    let numbers = after_name(line, b"evict")?;
    let word = one_number(numbers, NUMBER)?;
    Some(Command::Evict { word })
}

/// `crash`
fn crash(line: &[u8]) -> Option<Command>
    ensures { MatchOption result (SaysCommand line.now Command.Crash → ⊥) (SaysCommand line.now) }
{
    if is_name(line, b"crash") {
        Some(Command::Crash)
    } else {
        None
    }
}

/// `recover`
fn recover(line: &[u8]) -> Option<Command>
    ensures { MatchOption result (SaysCommand line.now Command.Recover → ⊥) (SaysCommand line.now) }
{
    if is_name(line, b"recover") {
        Some(Command::Recover)
    } else {
        None
    }
}

/// `recover M`
fn recover_by(line: &[u8]) -> Option<Command>
    ensures { MatchOption result (SaysNone (SaysCommand line.now) Command.RecoverBy) (SaysCommand line.now) }
{
    let numbers = after_name(line, b"recover")?;
    let most = one_number(numbers, STEPS)?;
    Some(Command::RecoverBy { most: most as u32 })
}

/// `content`
fn content(line: &[u8]) -> Option<Command>
    ensures { MatchOption result (SaysCommand line.now Command.Content → ⊥) (SaysCommand line.now) }
{
    if is_name(line, b"content") {
        Some(Command::Content)
    } else {
        None
    }
}

/// `order`
fn order(line: &[u8]) -> Option<Command>
    ensures { MatchOption result (SaysCommand line.now Command.Order → ⊥) (SaysCommand line.now) }
{
    if is_name(line, b"order") {
        Some(Command::Order)
    } else {
        None
    }
}

/// `again`
fn again(line: &[u8]) -> Option<Command>
    ensures { MatchOption result (SaysCommand line.now Command.Again → ⊥) (SaysCommand line.now) }
{
    if is_name(line, b"again") {
        Some(Command::Again)
    } else {
        None
    }
}

/// The lines that start or go on with a call.
fn call_line(line: &[u8]) -> Option<Command>
    ensures { MatchOption result (IsNoCall line.now) (SaysCommand line.now) }
{
    if let Some(command) = enq(line) {
        return Some(command);
    }
    if let Some(command) = numbered_enq(line) {
        return Some(command);
    }
    if let Some(command) = deq(line) {
        return Some(command);
    }
    if let Some(command) = numbered_deq(line) {
        return Some(command);
    }
    if let Some(command) = step(line) {
        return Some(command);
    }
    end(line)
}

/// The lines about the memory, those that show something, and the one that makes an act again.
fn memory_line(line: &[u8]) -> Option<Command>
    ensures { MatchOption result (IsNoMemoryLine line.now) (SaysCommand line.now) }
{
    if let Some(command) = evict(line) {
        return Some(command);
    }
    if let Some(command) = content(line) {
        return Some(command);
    }
    if let Some(command) = order(line) {
        return Some(command);
    }
    again(line)
}

/// The lines about crashes.
fn crash_line(line: &[u8]) -> Option<Command>
    ensures { MatchOption result (IsNoCrashLine line.now) (SaysCommand line.now) }
{
    if let Some(command) = crash(line) {
        return Some(command);
    }
    if let Some(command) = recover(line) {
        return Some(command);
    }
    recover_by(line)
}

/// Any line but the queue's.
#[tactic(auto, using(crate::proofs::OtherLines::no_row))]
pub fn command(line: &[u8]) -> Option<Command>
    ensures { MatchOption result ((command : Command) → SaysCommand line.now command → ⊥) (SaysCommand line.now) }
{
    if let Some(command) = call_line(line) {
        return Some(command);
    }
    if let Some(command) = memory_line(line) {
        return Some(command);
    }
    crash_line(line)
}

/// Whether a queue of this kind has such a command.
pub fn is_on(kind: Kind, command: &Command) -> bool
    ensures { result ≡ is_on kind command.now }
{
    match (kind, command) {
        (Kind::Durable, Command::NumberedEnq { .. } | Command::NumberedDeq { .. }) => false,
        (Kind::Log, Command::Enq { .. } | Command::Deq { .. }) => false,
        _ => true,
    }
}

/// Whether a command only shows something.
pub fn is_shown(command: &Command) -> bool
    ensures { result ≡ is_shown command.now }
{
    matches!(command, Command::Content | Command::Order)
}
