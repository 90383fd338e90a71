//! Reads a recording of one queue, or of several that have names: each line goes to its queue, and a crash to all.

use crate::act::Recording;
use crate::fault::{Fault, Why};
use crate::reading::Lines;
use indexmap::IndexSet;
use serde_json::Value;
use std::alloc::{AllocError, Global};
use std::str;

/// The recording of a queue, and its name as a JSON text, if it has one.
#[derive(Drop)]
pub struct Recorded {
    pub queue: Option<String>,
    pub recording: Recording,
}

/// Whose a line is.
#[derive(Drop)]
enum Whose {
    Named(String),
    /// It names no queue.
    Unnamed,
    /// It is a crash, with a time or without.
    All { has_time: bool },
}

/// Whether a text may name a queue: the key stands in it, or an escape, by which it may be written too.
fn may_name(text: &[u8]) -> bool {
    text.contains(&b'\\') || text.windows(7).any(|part| part == b"\"queue\"".as_slice())
}

/// Whose a line of this text is, by its JSON object.
fn owner(alloc: Global, text: &[u8], number: u32) -> Result<Whose, Fault> {
    let Ok(text) = str::from_utf8(text) else {
        return Err(Fault::Line(number, Why::NoObject));
    };
    let value = match Value::from_str(alloc, text) {
        Ok(value) => value,
        Err(error) if error.is_memory() => return Err(Fault::Memory),
        Err(_) => return Err(Fault::Line(number, Why::NoObject)),
    };
    let is_crash = value.get("op").and_then(Value::as_str) == Some("crash");
    match value.get("queue") {
        Some(_) if is_crash => Err(Fault::Line(number, Why::CrashOfOne)),
        Some(name) if name.is_string() || name.is_u64() || name.is_i64() => {
            Ok(Whose::Named(name.to_string(alloc)?))
        }
        Some(_) => Err(Fault::Line(number, Why::NoLine)),
        None if is_crash => Ok(Whose::All {
            has_time: value.get("at").is_some(),
        }),
        None => Ok(Whose::Unnamed),
    }
}

/// A crash: its line, and whether it has a time.
#[derive(Clone, Copy)]
struct CrashLine<'a> {
    text: &'a [u8],
    number: u32,
    has_time: bool,
}

/// The queues of a recording, as their lines come.
#[derive(Drop)]
struct Queues<'a> {
    alloc: Global,
    /// The names of queues, as JSON texts; none if the only one has none.
    names: IndexSet<String>,
    queues: Vec<Lines>,
    crashes: Vec<CrashLine<'a>>,
}

impl<'a> Queues<'a> {
    /// A queue more. A crash before its first line says something of it if it has a time, as then lines come in any
    /// order, or if the queue is the only one.
    fn begin(&mut self, is_named: bool) -> Result<(), Fault> {
        let mut lines = Lines::new(self.alloc, is_named);
        for crash in &self.crashes {
            if crash.has_time || !is_named {
                lines.add(self.alloc, crash.text, crash.number)?;
            }
        }
        self.queues.push(lines)?;
        Ok(())
    }

    /// Hands a line to the queue of this number.
    fn hand(&mut self, queue: usize, text: &[u8], number: u32) -> Result<(), Fault> {
        match self.queues.get_mut(queue) {
            Some(lines) => lines.add(self.alloc, text, number),
            None => Ok(()),
        }
    }

    /// A line of the queue with this name.
    fn add_named(&mut self, name: String, text: &[u8], number: u32) -> Result<(), Fault> {
        if self.names.is_empty() && !self.queues.is_empty() {
            return Err(Fault::Line(number, Why::QueueAndNone));
        }
        let (queue, is_new) = self.names.insert_full(name)?;
        if is_new {
            self.begin(true)?;
        }
        self.hand(queue, text, number)
    }

    /// A line of the only queue.
    fn add_unnamed(&mut self, text: &[u8], number: u32) -> Result<(), Fault> {
        if !self.names.is_empty() {
            return Err(Fault::Line(number, Why::QueueAndNone));
        }
        if self.queues.is_empty() {
            self.begin(false)?;
        }
        self.hand(0, text, number)
    }

    /// A crash, which is of all queues that are not over.
    fn add_crash(&mut self, crash: CrashLine<'a>) -> Result<(), Fault> {
        self.crashes.push(crash)?;
        for lines in self.queues.iter_mut() {
            if !lines.is_over() {
                lines.add(self.alloc, crash.text, crash.number)?;
            }
        }
        Ok(())
    }

    /// A line of this text. It is looked at for the name of its queue, unless there is one without a name and this line
    /// can have none either.
    fn add(&mut self, text: &'a [u8], number: u32) -> Result<(), Fault> {
        let has_one = self.names.is_empty() && !self.queues.is_empty();
        if text.is_empty() || (has_one && !may_name(text)) {
            return self.hand(0, text, number);
        }
        match owner(self.alloc, text, number)? {
            Whose::Named(name) => self.add_named(name, text, number),
            Whose::All { has_time } if !has_one => self.add_crash(CrashLine {
                text,
                number,
                has_time,
            }),
            _ => self.add_unnamed(text, number),
        }
    }

    /// The recordings, each with its name.
    fn recorded(mut self) -> Result<Vec<Recorded>, Fault> {
        if self.queues.is_empty() {
            self.begin(false)?;
        }
        let Queues {
            alloc,
            names,
            queues,
            crashes: _,
        } = self;
        let mut recorded = Vec::with_capacity(alloc, queues.len())?;
        for (number, lines) in queues.into_iter().enumerate() {
            let queue = match names.get_index(number) {
                Some(name) => Some(name.clone()?),
                None => None,
            };
            recorded.push(Recorded {
                queue,
                recording: lines.recording()?,
            })?;
        }
        Ok(recorded)
    }
}

/// The recordings that some lines are: one for each queue, in the order in which these come. An empty line says nothing.
pub fn read(alloc: Global, bytes: &[u8]) -> Result<Vec<Recorded>, Fault> {
    let mut queues = Queues {
        alloc,
        names: IndexSet::new(alloc),
        queues: Vec::new(alloc),
        crashes: Vec::new(alloc),
    };
    let mut number = 0u32;
    for text in bytes.split(|byte| *byte == b'\n') {
        number = number.saturating_add(1);
        queues.add(text, number)?;
    }
    queues.recorded()
}
