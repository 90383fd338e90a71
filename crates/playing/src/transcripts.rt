//! What a world prints that follows a script.
//!
//! Its lines are values until the end, so that what a command gives is said of values, and how a line is written once.

ghost use Rattle.std.specs.Prelude.{◌≡◌, ◌++◌, ◌∷◌, [], Ok, IfOk, IfErr, Some, false, true, slice_get};
ghost use Rattle.grammar.specs.declared.commands.Command.{Command};
ghost use Rattle.playing.specs.Play.{after_command, new_play};
ghost use Rattle.playing.specs.Transcript.{command_lines, refused_memory, IsTranscript, MayGiveOn};

use crate::lines::{Line, add, text};
use crate::player::Player;
use crate::put_off::{Unfollowed, line_to_make};
use arena::Layout;
use grammar::{Command, Script};
use std::alloc::Global;
use words::Refusal;

/// Whether the command at a place makes the one before again.
fn is_again(commands: &[Command], at: usize) -> bool
    ensures { result ≡ true → slice_get commands.now at ≡ Some Command.Again }
{
    match commands.get(at) {
        Some(command) => matches!(command, Command::Again),
        None => false,
    }
}

/// Follows a command, and adds what it gives, or says that it is put off, if it may be made again. It answers whether
/// it is.
fn follow(
    player: &mut Player,
    lines: &mut Vec<Line>,
    command: &Command,
    again: bool,
) -> Result<bool, Refusal>
    ensures play { result ≡ Ok false → player.new ≡ after_command player.old command.now }
    ensures lines { result ≡ Ok false → lines.new.items ≡ lines.old.items ++ command_lines player.old command.now }
    ensures same { result ≡ Ok true → player.new ≡ player.old }
    ensures put_off { result ≡ Ok true → lines.new.items ≡ lines.old.items ++ refused_memory ∷ [] }
    ensures again { result ≡ Ok true → again ≡ true }
    ensures errors { IfErr result (λ e. e ≡ Refusal.NoMemory) }
{
    match player.follow(lines, command) {
        Ok(()) => Ok(false),
        Err(Unfollowed::Halfway) => Err(Refusal::NoMemory),
        Err(Unfollowed::PutOff) => {
            if !again {
                return Err(Refusal::NoMemory);
            }
            add(lines, Line::Refused(Refusal::NoMemory))?;
            Ok(true)
        }
    }
}

/// Follows all commands, and gives their lines after that of the new world's size.
fn follow_all(
    alloc: Global,
    player: &mut Player,
    layout: Layout,
    commands: &[Command],
) -> Result<Vec<Line>, Refusal>
    requires { player.old ≡ new_play layout }
    ensures lines { IfOk result (λ lines. MayGiveOn layout commands.now lines.items) }
    ensures errors { IfErr result (λ e. e ≡ Refusal.NoMemory) }
{
    let mut lines = Vec::new(alloc);
    add(&mut lines, Line::Size(layout.size()))?;
    // Which command is made: the one that was put off, in place of the `again` after it.
    let mut made = 0;
    let mut put_off = false;
    for at in 0..commands.len() {
        made = line_to_make(put_off, made, at);
        let again = is_again(commands, at + 1);
        put_off = follow(player, &mut lines, &commands[made], again)?;
    }
    Ok(lines)
}

/// Follows all commands on a new world.
fn play(alloc: Global, layout: Layout, commands: &[Command]) -> Result<Vec<Line>, Refusal>
    ensures lines { IfOk result (λ lines. MayGiveOn layout commands.now lines.items) }
    ensures errors { IfErr result (λ e. e ≡ Refusal.NoMemory) }
{
    let mut player = Player::new(alloc, layout)?;
    follow_all(alloc, &mut player, layout, commands)
}

/// What a world prints that follows a script: the whole text, or NoMemory.
pub fn transcript(alloc: Global, script: &Script) -> Result<Vec<u8>, Refusal>
    ensures text { IfOk result (λ text. IsTranscript script.now.queue script.now.commands text.items) }
    ensures errors { IfErr result (λ e. e ≡ Refusal.NoMemory) }
{
    let Some(queue) = script.queue() else {
        return Ok(Vec::new(alloc));
    };
    text(alloc, &play(alloc, queue.layout()?, script.commands())?)
}
