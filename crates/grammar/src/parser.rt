//! A script read from its text.

ghost use Rattle.std.specs.Prelude.{MatchOption, ◌≡◌, Ok, IfOk, IfErr, Option, None, Some, true, false};
ghost use Rattle.grammar.specs.Lines.{lines_of};
ghost use Rattle.grammar.specs.Grammar.{SaysNoneOn, SaysOn};
ghost use Rattle.grammar.specs.Script.{SaysScript, IsWhyUnread, Continues, EndsBadly};

use crate::commands::{Command, QueueLine};
use crate::limits::MAX_LINES;
use crate::lines::{is_skipped, without_last_newline};
use crate::rows::{command, is_on, queue_line};
use crate::script::Script;
use std::alloc::Global;
use words::{Kind, Refusal};

/// The command of a line, where a queue of this kind has it.
fn command_on(kind: Kind, line: &[u8]) -> Option<Command>
    ensures { MatchOption result (SaysNoneOn kind line.now) (SaysOn kind line.now) }
{
    let command = command(line)?;
    if is_on(kind, &command) {
        Some(command)
    } else {
        None
    }
}

/// Takes in the next line, and answers whether it is a good one.
fn add_line(
    queue: &mut Option<QueueLine>,
    commands: &mut Vec<Command>,
    line: &[u8],
) -> Result<bool, Refusal>
    ensures good { result ≡ Ok true → Continues queue.old commands.old.items line.now queue.new commands.new.items }
    ensures bad { result ≡ Ok false → EndsBadly queue.old commands.old.items line.now }
    ensures same { result ≡ Ok false → (queue.new ≡ queue.old) × (commands.new.items ≡ commands.old.items) }
    ensures errors { IfErr result (λ e. e ≡ Refusal.NoMemory) }
{
    if is_skipped(line) {
        return Ok(true);
    }
    let Some(first) = *queue else {
        *queue = queue_line(line);
        return Ok(queue.is_some());
    };
    match command_on(first.kind, line) {
        None => Ok(false),
        Some(next) => match commands.push(next) {
            Ok(()) => Ok(true),
            Err(_) => Err(Refusal::NoMemory),
        },
    }
}

/// The script that a text says. It is refused where memory is (NoMemory), and else where a line is not in
/// the grammar, or is past the [`MAX_LINES`]th: BadLine, with the number of the first such line.
pub fn parse_script(alloc: Global, text: &[u8]) -> Result<Script, Refusal>
    ensures script { IfOk result (SaysScript (lines_of text.now)) }
    ensures errors { IfErr result (IsWhyUnread (lines_of text.now)) }
{
    let mut queue = None;
    let mut commands = Vec::new(alloc);
    let mut number = 0;
    for line in without_last_newline(text).split(|byte| *byte == b'\n') {
        // Lines that say nothing are counted too: the number is the one that an editor shows.
        number += 1;
        if number > MAX_LINES {
            return Err(Refusal::BadLine(number));
        }
        if !add_line(&mut queue, &mut commands, line)? {
            return Err(Refusal::BadLine(number));
        }
    }
    Ok(Script { queue, commands })
}
