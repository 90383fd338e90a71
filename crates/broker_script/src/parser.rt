//! A broker's script read from its text.

ghost use Rattle.std.specs.Prelude.{IfOk, IfErr};
ghost use Rattle.grammar.specs.Lines.{lines_of};
ghost use Rattle.broker_lines.specs.Script.{SaysScript, IsWhyUnread};

use crate::script::Script;
use broker_lines::add_line;
use grammar::{MAX_LINES, without_last_newline};
use std::alloc::Global;
use words::Refusal;

/// The script that a text says. It is refused where memory is (NoMemory), and else where a line is not in
/// the grammar, or is past the [`MAX_LINES`]th: BadLine, with the number of the first such line.
pub fn parse_script(alloc: Global, text: &[u8]) -> Result<Script, Refusal>
    ensures script { IfOk result (SaysScript (lines_of text.now)) }
    ensures errors { IfErr result (IsWhyUnread (lines_of text.now)) }
{
    let mut broker = None;
    let mut statements = Vec::new(alloc);
    let mut number = 0;
    for line in without_last_newline(text).split(|byte| *byte == b'\n') {
        number += 1;
        if number > MAX_LINES {
            return Err(Refusal::BadLine(number));
        }
        if !add_line(&mut broker, &mut statements, line)? {
            return Err(Refusal::BadLine(number));
        }
    }
    Ok(Script { broker, statements })
}
