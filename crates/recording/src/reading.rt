//! Reads the lines of one queue.

ghost use Rattle.std.specs.Prelude.{◌≡◌, IfOk, OnOk};
ghost use Rattle.recording.specs.Lines.{SaysSo, TakesLine, AddsText, has_times, is_final};

use crate::act::Recording;
use crate::fault::{Fault, Why};
use crate::line::Line;
use crate::members::line;
use crate::reader::{At, Reader};
use crate::timed::Clock;
use serde_json::Value;
use std::alloc::Global;
use std::str;

/// What a line says.
fn said(alloc: Global, bytes: &[u8], number: u32) -> Result<Line, Fault>
    ensures { IfOk result (λ line. SaysSo bytes.now line) }
{
    let Ok(text) = str::from_utf8(bytes) else {
        return Err(Fault::Line(number, Why::NoObject));
    };
    let value = match Value::from_str(alloc, text) {
        Ok(value) => value,
        Err(error) if error.is_memory() => return Err(Fault::Memory),
        Err(_) => return Err(Fault::Line(number, Why::NoObject)),
    };
    if value.as_object().is_none() {
        return Err(Fault::Line(number, Why::NoObject));
    }
    match line(alloc, &value)? {
        Some(said) => Ok(said),
        None => Err(Fault::Line(number, Why::NoLine)),
    }
}

/// Whether a line has times.
fn has_times(line: &Line) -> bool
    ensures { result ≡ has_times line.now }
{
    matches!(line, Line::Whole(_) | Line::CrashAt(_))
}

/// Whether a line says what was left.
fn is_final(line: &Line) -> bool
    ensures { result ≡ is_final line.now }
{
    matches!(line, Line::Final(_))
}

/// Whether a line says what there was at first.
fn is_base(line: &Line) -> bool {
    matches!(line, Line::Base(_))
}

/// What has been read of one queue: lines without times, lines with times, and the last line, if that says what was left.
#[derive(Drop)]
pub(crate) struct Lines {
    reader: Reader,
    clock: Clock,
    is_plain: bool,
    left: Option<Line>,
    left_at: u32,
    is_named: bool,
}

impl Lines {
    /// None, of a queue that has a name, or of the only one.
    pub(crate) fn new(alloc: Global, is_named: bool) -> Self {
        Lines {
            reader: Reader::new(alloc),
            clock: Clock::new(alloc),
            is_plain: false,
            left: None,
            left_at: 0,
            is_named,
        }
    }

    /// Whether the last line of the queue was there.
    pub(crate) fn is_over(&self) -> bool {
        self.left.is_some()
    }

    /// Why a line may not stand here, if it may not.
    fn misplaced(&self, said: &Line, number: u32) -> Option<Why> {
        if self.left.is_some() {
            return Some(Why::AfterFinal);
        }
        let mixes = if has_times(said) {
            self.is_plain
        } else if is_base(said) {
            self.clock.has_calls()
        } else {
            !is_final(said) && !self.clock.is_empty()
        };
        if mixes {
            return Some(Why::TimesAndNone);
        }
        if is_base(said) && !self.is_named && number > 1 {
            return Some(Why::BaseNotFirst);
        }
        None
    }

    /// Takes what the line of a number says.
    fn take(&mut self, said: Line, number: u32) -> Result<(), Fault>
        ensures { OnOk result (TakesLine self.old said number self.new) }
    {
        if let Some(why) = self.misplaced(&said, number) {
            return Err(Fault::Line(number, why));
        }
        if has_times(&said) {
            return self.clock.take(&mut self.reader, said, number);
        }
        if is_final(&said) {
            self.left = Some(said);
            self.left_at = number;
            return Ok(());
        }
        self.is_plain = self.is_plain || !is_base(&said);
        self.reader.take(
            said,
            At {
                line: number,
                time: 0,
            },
        )
    }

    /// A line of this text. An empty one says nothing.
    pub(crate) fn add(&mut self, alloc: Global, text: &[u8], number: u32) -> Result<(), Fault>
        ensures { OnOk result (AddsText self.old text.now number self.new) }
    {
        if text.is_empty() {
            return Ok(());
        }
        let said = said(alloc, text, number)?;
        self.take(said, number)
    }

    pub(crate) fn recording(self) -> Result<Recording, Fault> {
        let Lines {
            mut reader,
            clock,
            is_plain: _,
            left,
            left_at,
            is_named: _,
        } = self;
        clock.play(&mut reader)?;
        if let Some(left) = left {
            reader.take(
                left,
                At {
                    line: left_at,
                    time: 0,
                },
            )?;
        }
        reader.recording()
    }
}
