//! What a broker prints that follows a script.

ghost use Rattle.std.specs.Prelude.{◌≡◌, ◌++◌, ◌∷◌, [], Ok, IfOk, IfErr, Some, false, true, slice_get};
ghost use Rattle.broker_lines.specs.Grammar.{counts_by, IsServedBroker};
ghost use Rattle.broker_lines.specs.Lines.{no_memory};
ghost use Rattle.broker_lines.specs.declared.statements.Statement.{Statement};
ghost use Rattle.broker_script.specs.PutOff.{IsPutOff};
ghost use Rattle.broker_script.specs.Transcript.{AddsGiven, FollowsAll, IsPlayedOn, IsTranscript};
ghost use Rattle.grammar.specs.declared.commands.Command.{Command};

use crate::player::Player;
use crate::script::Script;
use arena::BrokerLayout;
use broker_lines::{BrokerLine, Printed, Statement, append, one, text};
use grammar::Command;
use playing::{Line, Unfollowed, line_to_make, push};
use std::alloc::Global;
use words::Refusal;

/// Whether the line at a place makes the one before again.
fn is_again(statements: &[Statement], at: usize) -> bool
    ensures { result ≡ true → slice_get statements.now at ≡ Some (Statement.Whole Command.Again) }
{
    match statements.get(at) {
        Some(Statement::Whole { command }) => matches!(command, Command::Again),
        _ => false,
    }
}

/// Follows a line, and adds what it gives, or says that it is put off, if it may be made again. It answers whether it
/// is.
fn follow(
    alloc: Global,
    player: &mut Player,
    lines: &mut Vec<Printed>,
    statement: &Statement,
    again: bool,
) -> Result<bool, Refusal>
    ensures followed { result ≡ Ok false
        → AddsGiven statement.now player.old lines.old.items lines.new.items player.new }
    ensures put_off { result ≡ Ok true → IsPutOff player.old player.new }
    ensures line { result ≡ Ok true → lines.new.items ≡ lines.old.items ++ no_memory ∷ [] }
    ensures again { result ≡ Ok true → again ≡ true }
    ensures errors { IfErr result (λ e. e ≡ Refusal.NoMemory) }
{
    match player.follow(alloc, statement) {
        Ok(given) => {
            append(lines, given)?;
            Ok(false)
        }
        Err(Unfollowed::Halfway) => Err(Refusal::NoMemory),
        Err(Unfollowed::PutOff) => {
            if !again {
                return Err(Refusal::NoMemory);
            }
            push(lines, Printed::Whole(Line::Refused(Refusal::NoMemory)))?;
            Ok(true)
        }
    }
}

/// Follows all lines on a new broker.
fn follow_all(
    alloc: Global,
    mut player: Player,
    statements: &[Statement],
) -> Result<Vec<Printed>, Refusal>
    ensures lines { IfOk result (λ lines. FollowsAll player statements.now lines.items) }
    ensures errors { IfErr result (λ e. e ≡ Refusal.NoMemory) }
{
    let mut lines = Vec::new(alloc);
    // Which line is made: the one that was put off, in place of the `again` after it.
    let mut made = 0;
    let mut put_off = false;
    for at in 0..statements.len() {
        made = line_to_make(put_off, made, at);
        let again = is_again(statements, at + 1);
        put_off = follow(alloc, &mut player, &mut lines, &statements[made], again)?;
    }
    Ok(lines)
}

/// The lines of a script on a broker.
fn play(
    alloc: Global,
    broker: BrokerLine,
    statements: &[Statement],
) -> Result<Vec<Printed>, Refusal>
    requires { IsServedBroker broker }
    ensures lines { IfOk result (λ lines. IsPlayedOn (counts_by broker) statements.now lines.items) }
    ensures errors { IfErr result (λ e. e ≡ Refusal.NoMemory) }
{
    let layout = BrokerLayout::make(broker.clients, broker.records).unwrap();
    let player = Player::new(alloc, broker.clients, broker.records)?;
    let mut lines = one(alloc, Printed::Whole(Line::Size(layout.size())))?;
    append(&mut lines, follow_all(alloc, player, statements)?)?;
    Ok(lines)
}

/// What a broker prints that follows a script: the whole text, or NoMemory.
pub fn transcript(alloc: Global, script: &Script) -> Result<Vec<u8>, Refusal>
    ensures text { IfOk result (λ text. IsTranscript script.now.broker script.now.statements text.items) }
    ensures errors { IfErr result (λ e. e ≡ Refusal.NoMemory) }
{
    let Some(broker) = script.broker else {
        return Ok(Vec::new(alloc));
    };
    text(alloc, &play(alloc, broker, &script.statements)?)
}
