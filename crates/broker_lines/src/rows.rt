//! The lines that are served, a row for each.

ghost use Rattle.std.specs.Prelude.{◌≡◌, ◌∷◌, [], List, MatchOption, decimal};
ghost use Rattle.words.specs.declared.call.Call.{Call};
ghost use Rattle.words.specs.declared.call.Client.{Client};
ghost use Rattle.directory.specs.Name.{IsName};
ghost use Rattle.grammar.specs.Grammar.{kind_word};
ghost use Rattle.grammar.specs.Limits.{IsWithin};
ghost use Rattle.grammar.specs.Lines.{words_of, IsOneWord};
ghost use Rattle.grammar.specs.Reading.{Reads, Reads₂, Reads₃, SaysNone, SaysNone₂, SaysNone₃};
ghost use Rattle.grammar.specs.declared.commands.Command.{Command};
ghost use Rattle.broker_lines.specs.Grammar.{call_words, is_whole, label, numbered_call_words, IsServedCall, SaysAsk, SaysBroker, SaysStatement};
ghost use Rattle.broker_lines.specs.Rows.{IsNoCreation, IsOfNoBroker, IsOfNoImage, IsOfNoQueue, ReadsFirstWord, ReadsKindAndSteps};
ghost use Rattle.broker_lines.specs.declared.statements.Ask.{Ask};
ghost use Rattle.broker_lines.specs.declared.statements.BrokerLine.{BrokerLine};
ghost use Rattle.broker_lines.specs.declared.statements.Statement.{Statement};

use crate::statements::{Ask, BrokerLine, Statement};
use directory::Name;
use grammar::{
    CLIENT, CLIENTS, Command, Limits, NUMBER, RECORDS, STEPS, after_name, command, first_word,
    is_name, kind, one_number, one_value, two_numbers,
};
use words::{Call, Client, Kind};

/// `broker T K`
pub(crate) fn broker_line(line: &[u8]) -> Option<BrokerLine>
    ensures { MatchOption result ((broker : BrokerLine) → SaysBroker line.now broker → ⊥) (SaysBroker line.now) }
{
    let counts = after_name(line, b"broker")?;
    let (clients, records) = two_numbers(counts, CLIENTS, RECORDS)?;
    Some(BrokerLine {
        clients: clients as u32,
        records: records as u32,
    })
}

/// The name that is all of a text.
fn one_name(text: &[u8]) -> Option<Name>
    ensures { Reads (λ name. name ∷ []) IsName (words_of text.now) result }
{
    match first_word(text) {
        (word, None) => Name::make(word).ok(),
        (_, Some(_)) => None,
    }
}

/// The name that a text begins with, and what follows it.
fn name_first(text: &[u8]) -> Option<(Name, &[u8])>
    ensures { ReadsFirstWord (λ name. name) IsName text.now result }
{
    let (word, rest) = first_word(text);
    let rest = rest?;
    match Name::make(word) {
        Ok(name) => Some((name, rest)),
        Err(_) => None,
    }
}

/// The name before the colon of a word.
fn labelled(word: &[u8]) -> Option<Name>
    ensures { Reads label IsName word.now result }
{
    let (last, bytes) = word.split_last()?;
    if *last != b':' {
        return None;
    }
    Name::make(bytes).ok()
}

/// The name that labels a line, and what follows it.
fn label_first(line: &[u8]) -> Option<(Name, &[u8])>
    ensures { ReadsFirstWord label IsName line.now result }
{
    let (word, rest) = first_word(line);
    let rest = rest?;
    let name = labelled(word)?;
    Some((name, rest))
}

/// The kind that is all of a text.
fn one_kind(text: &[u8]) -> Option<Kind>
    ensures { MatchOption result (SaysNone (IsOneWord text.now) kind_word)
        (λ kind. IsOneWord text.now (kind_word kind)) }
{
    if is_name(text, b"durable") {
        return Some(Kind::Durable);
    }
    if is_name(text, b"log") {
        Some(Kind::Log)
    } else {
        None
    }
}

/// The kind and the number of steps that are all of a text.
fn kind_and_steps(text: &[u8]) -> Option<(Kind, u64)>
    ensures { ReadsKindAndSteps (words_of text.now) result }
{
    let Some((kind, rest)) = kind(text) else {
        return None;
    };
    let steps = one_number(rest, STEPS)?;
    Some((kind, steps))
}

/// `create NAME KIND`
fn create(line: &[u8]) -> Option<Statement>
    ensures { MatchOption result (SaysNone₂ (SaysStatement line.now) Statement.Create) (SaysStatement line.now) }
{
    let Some((name, rest)) = name_first(after_name(line, b"create")?) else {
        return None;
    };
    let kind = one_kind(rest)?;
    Some(Statement::Create { name, kind })
}

/// `create NAME KIND M`
fn begin_creation(line: &[u8]) -> Option<Statement>
    ensures { MatchOption result (SaysNone₃ (SaysStatement line.now) Statement.BeginCreation) (SaysStatement line.now) }
{
    let Some((name, rest)) = name_first(after_name(line, b"create")?) else {
        return None;
    };
    let (kind, most) = kind_and_steps(rest)?;
    Some(Statement::BeginCreation {
        name,
        kind,
        most: most as u32,
    })
}

/// `create-step`
fn create_step(line: &[u8]) -> Option<Statement>
    ensures { MatchOption result (SaysStatement line.now Statement.CreateStep → ⊥) (SaysStatement line.now) }
{
    if is_name(line, b"create-step") {
        Some(Statement::CreateStep)
    } else {
        None
    }
}

/// `create-step M`
fn create_steps(line: &[u8]) -> Option<Statement>
    ensures { MatchOption result (SaysNone (SaysStatement line.now) Statement.CreateSteps) (SaysStatement line.now) }
{
    let Some(steps) = after_name(line, b"create-step") else {
        return None;
    };
    let most = one_number(steps, STEPS)?;
    Some(Statement::CreateSteps { most: most as u32 })
}

/// `find NAME`
fn find(line: &[u8]) -> Option<Statement>
    ensures { MatchOption result (SaysNone (SaysStatement line.now) Statement.Find) (SaysStatement line.now) }
{
    let name = one_name(after_name(line, b"find")?)?;
    Some(Statement::Find { name })
}

/// `renew NAME`
fn renew(line: &[u8]) -> Option<Statement>
    ensures { MatchOption result (SaysNone (SaysStatement line.now) Statement.Renew) (SaysStatement line.now) }
{
    let name = one_name(after_name(line, b"renew")?)?;
    Some(Statement::Renew { name })
}

/// `list`
fn list(line: &[u8]) -> Option<Statement>
    ensures { MatchOption result (SaysStatement line.now Statement.List → ⊥) (SaysStatement line.now) }
{
    if is_name(line, b"list") {
        Some(Statement::List)
    } else {
        None
    }
}

/// `rotate`
fn rotate(line: &[u8]) -> Option<Statement>
    ensures { MatchOption result (SaysStatement line.now Statement.Rotate → ⊥) (SaysStatement line.now) }
{
    if is_name(line, b"rotate") {
        Some(Statement::Rotate)
    } else {
        None
    }
}

/// `image`
fn image(line: &[u8]) -> Option<Statement>
    ensures { MatchOption result (SaysStatement line.now Statement.Image → ⊥) (SaysStatement line.now) }
{
    if is_name(line, b"image") {
        Some(Statement::Image)
    } else {
        None
    }
}

/// `set W N`
fn set_word(line: &[u8]) -> Option<Statement>
    ensures { MatchOption result (SaysNone₂ (SaysStatement line.now) Statement.SetWord) (SaysStatement line.now) }
{
    let Some(numbers) = after_name(line, b"set") else {
        return None;
    };
    let (word, value) = two_numbers(numbers, NUMBER, NUMBER)?;
    Some(Statement::SetWord { word, value })
}

/// `boot`
fn boot(line: &[u8]) -> Option<Statement>
    ensures { MatchOption result (SaysStatement line.now Statement.Boot → ⊥) (SaysStatement line.now) }
{
    if is_name(line, b"boot") {
        Some(Statement::Boot)
    } else {
        None
    }
}

/// Whether a line of a queue's script is about the whole memory, or about the act before.
pub fn is_whole(command: &Command) -> bool
    ensures { result ≡ is_whole command.now }
{
    match command {
        Command::Evict { .. }
        | Command::Crash
        | Command::Recover
        | Command::RecoverBy { .. }
        | Command::Again => true,
        _ => false,
    }
}

/// `evict W`, `crash`, `recover`, `recover M`, `again`
fn whole(line: &[u8]) -> Option<Statement>
    ensures { MatchOption result (SaysNone (SaysStatement line.now) Statement.Whole) (SaysStatement line.now) }
{
    let command = command(line)?;
    if is_whole(&command) {
        Some(Statement::Whole { command })
    } else {
        None
    }
}

/// `NAME: ` and a line of a queue's script.
fn on(line: &[u8]) -> Option<Statement>
    ensures { MatchOption result (SaysNone₂ (SaysStatement line.now) Statement.On) (SaysStatement line.now) }
{
    let Some((name, rest)) = label_first(line) else {
        return None;
    };
    let command = command(rest)?;
    if is_whole(&command) {
        None
    } else {
        Some(Statement::On { name, command })
    }
}

/// `NAME: told C`
fn told(line: &[u8]) -> Option<Statement>
    ensures { MatchOption result (SaysNone₂ (SaysStatement line.now) Statement.Told) (SaysStatement line.now) }
{
    let Some((name, rest)) = label_first(line) else {
        return None;
    };
    let client = one_number(after_name(rest, b"told")?, CLIENT)?;
    Some(Statement::Told {
        name,
        client: Client(client as u8),
    })
}

/// The number that a text begins with, and what follows it.
fn number_first(text: &[u8], limits: Limits) -> Option<(u64, &[u8])>
    ensures { ReadsFirstWord decimal (IsWithin limits) text.now result }
{
    let (word, rest) = first_word(text);
    let rest = rest?;
    match one_number(word, limits) {
        Some(n) => Some((n, rest)),
        None => None,
    }
}

/// `enq V`, `deq`
fn call(text: &[u8]) -> Option<Call>
    ensures { Reads call_words IsServedCall (words_of text.now) result }
{
    if is_name(text, b"deq") {
        return Some(Call::Deq);
    }
    let value = one_value(after_name(text, b"enq")?)?;
    Some(Call::Enq(value))
}

/// A number, and the call, which are all of a text.
fn number_and_call(text: &[u8], limits: Limits) -> Option<(u64, Call)>
    ensures { Reads₂ (λ n call. decimal n ∷ call_words call) (IsWithin limits) IsServedCall
        (words_of text.now) result }
{
    let Some((n, rest)) = number_first(text, limits) else {
        return None;
    };
    let call = call(rest)?;
    Some((n, call))
}

/// A number of a client, that of its call, and the call, which are all of a text.
fn numbered_call(text: &[u8]) -> Option<(u64, u64, Call)>
    ensures { Reads₃ numbered_call_words (IsWithin CLIENT) (IsWithin NUMBER) IsServedCall (words_of text.now) result }
{
    let Some((client, rest)) = number_first(text, CLIENT) else {
        return None;
    };
    let (number, call) = number_and_call(rest, NUMBER)?;
    Some((client, number, call))
}

/// `request C N CALL`
fn request(text: &[u8]) -> Option<Ask>
    ensures { MatchOption result (SaysNone₃ (SaysAsk text.now) Ask.Request) (SaysAsk text.now) }
{
    let Some((client, number, call)) = numbered_call(after_name(text, b"request")?) else {
        return None;
    };
    Some(Ask::Request {
        client: Client(client as u8),
        number,
        call,
    })
}

/// `plain C CALL`
fn plain(text: &[u8]) -> Option<Ask>
    ensures { MatchOption result (SaysNone₂ (SaysAsk text.now) Ask.Plain) (SaysAsk text.now) }
{
    let (client, call) = number_and_call(after_name(text, b"plain")?, CLIENT)?;
    Some(Ask::Plain {
        client: Client(client as u8),
        call,
    })
}

/// `begin C N CALL`
fn begin(text: &[u8]) -> Option<Ask>
    ensures { MatchOption result (SaysNone₃ (SaysAsk text.now) Ask.Begin) (SaysAsk text.now) }
{
    let Some((client, number, call)) = numbered_call(after_name(text, b"begin")?) else {
        return None;
    };
    Some(Ask::Begin {
        client: Client(client as u8),
        number,
        call,
    })
}

/// What a client asks the session for, as it follows the queue's name.
fn ask(text: &[u8]) -> Option<Ask>
    ensures { MatchOption result ((ask : Ask) → SaysAsk text.now ask → ⊥) (SaysAsk text.now) }
{
    if let Some(ask) = request(text) {
        return Some(ask);
    }
    if let Some(ask) = plain(text) {
        return Some(ask);
    }
    begin(text)
}

/// `NAME: ` and what a client asks the session for.
fn asks(line: &[u8]) -> Option<Statement>
    ensures { MatchOption result (SaysNone₂ (SaysStatement line.now) Statement.Asks) (SaysStatement line.now) }
{
    let Some((name, rest)) = label_first(line) else {
        return None;
    };
    let ask = ask(rest)?;
    Some(Statement::Asks { name, ask })
}

/// The lines that begin a creation, or go on with it.
fn creation_line(line: &[u8]) -> Option<Statement>
    ensures { MatchOption result (IsNoCreation line.now) (SaysStatement line.now) }
{
    if let Some(statement) = create(line) {
        return Some(statement);
    }
    if let Some(statement) = begin_creation(line) {
        return Some(statement);
    }
    if let Some(statement) = create_step(line) {
        return Some(statement);
    }
    create_steps(line)
}

/// The lines that are about one queue.
fn queue_line(line: &[u8]) -> Option<Statement>
    ensures { MatchOption result (IsOfNoQueue line.now) (SaysStatement line.now) }
{
    if let Some(statement) = find(line) {
        return Some(statement);
    }
    if let Some(statement) = renew(line) {
        return Some(statement);
    }
    if let Some(statement) = on(line) {
        return Some(statement);
    }
    if let Some(statement) = asks(line) {
        return Some(statement);
    }
    told(line)
}

/// The lines that are about all of them.
fn whole_line(line: &[u8]) -> Option<Statement>
    ensures { MatchOption result (IsOfNoBroker line.now) (SaysStatement line.now) }
{
    if let Some(statement) = list(line) {
        return Some(statement);
    }
    if let Some(statement) = rotate(line) {
        return Some(statement);
    }
    whole(line)
}

/// The lines that are about an image.
fn image_line(line: &[u8]) -> Option<Statement>
    ensures { MatchOption result (IsOfNoImage line.now) (SaysStatement line.now) }
{
    if let Some(statement) = image(line) {
        return Some(statement);
    }
    if let Some(statement) = set_word(line) {
        return Some(statement);
    }
    boot(line)
}

/// What a line says after the first one.
#[tactic(auto, using(crate::proofs::OtherLines::no_row))]
pub(crate) fn statement(line: &[u8]) -> Option<Statement>
    ensures { MatchOption result ((statement : Statement) → SaysStatement line.now statement → ⊥)
        (SaysStatement line.now) }
{
    if let Some(statement) = creation_line(line) {
        return Some(statement);
    }
    if let Some(statement) = queue_line(line) {
        return Some(statement);
    }
    if let Some(statement) = image_line(line) {
        return Some(statement);
    }
    whole_line(line)
}
