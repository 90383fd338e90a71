//! Lines put together.

ghost use Rattle.std.specs.Prelude.{◌≡◌, ◌≢◌, ◌++◌, ◌∷◌, [], OnOk, OnErr, IfOk, IfErr, IsErrOf, false};
ghost use Rattle.broker_lines.specs.Lines.{of_queue, refusal_line};
ghost use Rattle.broker_lines.specs.Prints.{text_of};

use crate::printed::Printed;
use directory::Name;
use playing::{Line, Unfollowed};
use std::alloc::Global;
use std::fmt::Write;
use std::marker::Model;
use words::Refusal;

/// Room for a line, which is taken before an act is made: an act that was made is never refused its line.
#[derive(Drop)]
pub struct Room {
    lines: Vec<Printed>,
}

impl Model for Room {
    ghost use Rattle.std.specs.Prelude.{◌≡◌, ◌<◌, List, [], vec_len, vec_capacity};
    ghost use Rattle.broker_lines.specs.declared.printed.Printed.{Printed};

    ghost Value = { List Printed };

    ghost view = { λ r. r.lines.items };

    ghost invariant = { λ r. (r.lines.items ≡ []) × (vec_len r.lines < vec_capacity r.lines) };
}

impl Room {
    /// Room for one line.
    pub fn take(alloc: Global) -> Result<Self, Unfollowed>
        ensures { IfErr result (λ e. e ≡ Unfollowed.PutOff) }
    {
        match Vec::with_capacity(alloc, 1) {
            Ok(lines) => Ok(Room { lines }),
            Err(_) => Err(Unfollowed::PutOff),
        }
    }

    /// The line alone.
    pub fn fill(self, line: Printed) -> Vec<Printed>
        ensures { result.items ≡ line ∷ [] }
    {
        let mut lines = self.lines;
        lines.push_reserved(line);
        lines
    }

    /// No line.
    pub fn leave(self) -> Vec<Printed>
        ensures { result.items ≡ [] }
    {
        self.lines
    }
}

/// A line alone.
pub fn one(alloc: Global, line: Printed) -> Result<Vec<Printed>, Refusal>
    ensures line { IfOk result (λ lines. lines.items ≡ line ∷ []) }
    ensures errors { IfErr result (λ e. e ≡ Refusal.NoMemory) }
{
    let mut lines = Vec::new(alloc);
    match lines.push(line) {
        Ok(()) => Ok(lines),
        Err(_) => Err(Refusal::NoMemory),
    }
}

/// A queue's line alone.
pub fn one_line(alloc: Global, line: Line) -> Result<Vec<Line>, Refusal>
    ensures line { IfOk result (λ lines. lines.items ≡ line ∷ []) }
    ensures errors { IfErr result (λ e. e ≡ Refusal.NoMemory) }
{
    let mut lines = Vec::new(alloc);
    match lines.push(line) {
        Ok(()) => Ok(lines),
        Err(_) => Err(Refusal::NoMemory),
    }
}

/// A line that says why an act was refused. Want of memory is no line, but puts the line off that was to be followed,
/// of which nothing was made, or leaves it half followed.
pub fn refused(room: Room, begun: bool, refusal: Refusal) -> Result<Vec<Printed>, Unfollowed>
    ensures line { IfOk result (λ lines.
        (refusal ≢ Refusal.NoMemory) × (lines.items ≡ refusal_line refusal ∷ [])) }
    ensures memory { OnErr result (refusal ≡ Refusal.NoMemory) }
    ensures begun { IsErrOf result Unfollowed.PutOff → begun ≡ false }
{
    match refusal {
        Refusal::NoMemory => Err(unfollowed(begun)),
        _ => Ok(room.fill(Printed::Whole(Line::Refused(refusal)))),
    }
}

/// A line is put off as long as nothing was made of it.
pub fn unfollowed(begun: bool) -> Unfollowed
    ensures { result ≡ Unfollowed.PutOff → begun ≡ false }
{
    if begun {
        Unfollowed::Halfway
    } else {
        Unfollowed::PutOff
    }
}

/// Adds lines, in their order.
pub fn append(lines: &mut Vec<Printed>, mut more: Vec<Printed>) -> Result<(), Refusal>
    ensures lines { OnOk result (lines.new.items ≡ lines.old.items ++ more.items) }
    ensures errors { IfErr result (λ e. e ≡ Refusal.NoMemory) }
{
    lines.append(&mut more).map_err(|_| Refusal::NoMemory)
}

/// A queue's lines with its name before each.
pub fn labelled(alloc: Global, name: Name, lines: Vec<Line>) -> Result<Vec<Printed>, Refusal>
    ensures lines { IfOk result (λ printed. printed.items ≡ of_queue name lines.items) }
    ensures errors { IfErr result (λ e. e ≡ Refusal.NoMemory) }
{
    let mut printed = Vec::new(alloc);
    for line in lines {
        if printed.push(Printed::Of { name, line }).is_err() {
            return Err(Refusal::NoMemory);
        }
    }
    Ok(printed)
}

/// The text of the lines, a newline after each.
pub fn text(alloc: Global, lines: &[Printed]) -> Result<Vec<u8>, Refusal>
    ensures text { IfOk result (λ text. text.items ≡ text_of lines.now) }
    ensures errors { IfErr result (λ e. e ≡ Refusal.NoMemory) }
{
    let mut text = String::new(alloc);
    for line in lines {
        writeln!(text, "{line}").map_err(|_| Refusal::NoMemory)?;
    }
    Ok(text.into_bytes())
}
