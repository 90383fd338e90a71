//! The next line of a broker's script, added to what the lines before it say.

ghost use Rattle.std.specs.Prelude.{MatchOption, ◌≡◌, ◌||◌, Ok, IfErr, Option, None, Some, true, false};
ghost use Rattle.std.specs.List.{list_any};
ghost use Rattle.broker_lines.specs.Script.{SaysAfter, SaysNoneAfter, Continues, EndsBadly, creates, creates_for, may_follow};
ghost use Rattle.broker_lines.specs.declared.statements.Statement.{Statement};

use crate::rows::{broker_line, statement};
use crate::statements::{BrokerLine, Statement};
use directory::Name;
use grammar::{Command, is_on, is_skipped};
use words::Refusal;

/// Whether a line creates a queue of this name.
fn creates(name: &Name, statement: &Statement) -> bool
    ensures { result ≡ creates name.now statement.now }
{
    match statement {
        Statement::Create { name: other, .. } => other.as_bytes() == name.as_bytes(),
        Statement::BeginCreation { name: other, .. } => other.as_bytes() == name.as_bytes(),
        _ => false,
    }
}

/// Whether a line creates a queue of this name, of a kind that has this command.
fn creates_for(name: &Name, command: &Command, statement: &Statement) -> bool
    ensures { result ≡ creates_for name.now command.now statement.now }
{
    match statement {
        Statement::Create { name: other, kind } => {
            other.as_bytes() == name.as_bytes() && is_on(*kind, command)
        }
        Statement::BeginCreation {
            name: other,
            kind,
            ..
        } => other.as_bytes() == name.as_bytes() && is_on(*kind, command),
        _ => false,
    }
}

/// Whether a line creates a queue of this name.
fn has_creation(before: &[Statement], name: &Name) -> bool
    ensures { result ≡ list_any (creates name.now) before.now }
{
    before.iter().any(|statement| creates(name, statement))
}

/// Whether a line creates a queue of this name, of a kind that has this command.
fn has_creation_for(before: &[Statement], name: &Name, command: &Command) -> bool
    ensures { result ≡ list_any (creates_for name.now command.now) before.now }
{
    before
        .iter()
        .any(|statement| creates_for(name, command, statement))
}

/// Whether a line may come after these.
fn may_follow(before: &[Statement], next: &Statement) -> bool
    ensures { result ≡ may_follow before.now next.now }
{
    match next {
        Statement::On { name, command } => {
            !has_creation(before, name) || has_creation_for(before, name, command)
        }
        _ => true,
    }
}

/// What a line says that comes after these.
fn statement_after(before: &[Statement], line: &[u8]) -> Option<Statement>
    ensures { MatchOption result (SaysNoneAfter before.now line.now) (SaysAfter before.now line.now) }
{
    let statement = statement(line)?;
    if may_follow(before, &statement) {
        Some(statement)
    } else {
        None
    }
}

/// Takes in the next line, and answers whether it is a good one.
pub fn add_line(
    broker: &mut Option<BrokerLine>,
    statements: &mut Vec<Statement>,
    line: &[u8],
) -> Result<bool, Refusal>
    ensures good { result ≡ Ok true
        → Continues broker.old statements.old.items line.now broker.new statements.new.items }
    ensures bad { result ≡ Ok false → EndsBadly broker.old statements.old.items line.now }
    ensures same { result ≡ Ok false → (broker.new ≡ broker.old) × (statements.new.items ≡ statements.old.items) }
    ensures errors { IfErr result (λ e. e ≡ Refusal.NoMemory) }
{
    if is_skipped(line) {
        return Ok(true);
    }
    let Some(_) = *broker else {
        *broker = broker_line(line);
        return Ok(broker.is_some());
    };
    match statement_after(statements, line) {
        None => Ok(false),
        Some(next) => match statements.push(next) {
            Ok(()) => Ok(true),
            Err(_) => Err(Refusal::NoMemory),
        },
    }
}
