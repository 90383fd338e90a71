//! Lines that are whole calls with times, put in order.

use crate::fault::{Fault, Why};
use crate::line::{Answered, Line, Moment, Whole};
use crate::reader::{At, Reader};
use std::alloc::{AllocError, Global};
use std::cmp::Ordering;

/// What a time is of.
#[derive(Clone, Copy, PartialEq, Eq, PartialOrd, Ord)]
enum Kind {
    Begin,
    End,
    Crash,
}

/// A time of a line: calls come before answers, and answers before crashes.
#[derive(Clone, Copy)]
struct Tick {
    at: f64,
    kind: Kind,
    call: usize,
    time: u32,
}

/// A whole call, or a crash.
#[derive(Drop)]
struct Timed {
    line: u32,
    client: usize,
    puts: Option<String>,
    answered: Option<Answered>,
    call: usize,
    /// How many crashes came before it began.
    crashes: usize,
}

fn order(one: &Tick, other: &Tick) -> Ordering {
    if one.at < other.at {
        return Ordering::Less;
    }
    if other.at < one.at {
        return Ordering::Greater;
    }
    one.kind.cmp(&other.kind)
}

/// The calls and crashes, and their times.
#[derive(Drop)]
pub(crate) struct Clock {
    timed: Vec<Timed>,
    ticks: Vec<Tick>,
}

impl Clock {
    pub(crate) fn new(alloc: Global) -> Self {
        Clock {
            timed: Vec::new(alloc),
            ticks: Vec::new(alloc),
        }
    }

    pub(crate) fn is_empty(&self) -> bool {
        self.timed.is_empty()
    }

    /// Whether it has a call: crashes are of all queues, and may come before the first line of this one.
    pub(crate) fn has_calls(&self) -> bool {
        self.ticks.iter().any(|tick| tick.kind != Kind::Crash)
    }

    fn tick(&mut self, reader: &mut Reader, moment: Moment, kind: Kind) -> Result<(), Fault> {
        let time = reader.keep_time(moment.text)?;
        self.ticks.push(Tick {
            at: moment.at,
            kind,
            call: self.timed.len(),
            time,
        })?;
        Ok(())
    }

    fn push(&mut self, timed: Timed) -> Result<(), AllocError> {
        self.timed.push(timed)?;
        Ok(())
    }

    /// Takes a whole call.
    fn take_call(&mut self, reader: &mut Reader, whole: Whole, line: u32) -> Result<(), Fault> {
        let Whole {
            client,
            puts,
            from,
            to,
            answered,
        } = whole;
        let begin = from.at;
        self.tick(reader, from, Kind::Begin)?;
        if let Some(to) = to {
            if to.at < begin {
                return Err(Fault::Line(line, Why::NoLine));
            }
            self.tick(reader, to, Kind::End)?;
        }
        let client = reader.client(client)?;
        self.push(Timed {
            line,
            client,
            puts,
            answered: Some(answered),
            call: 0,
            crashes: 0,
        })?;
        Ok(())
    }

    /// Takes a line with times.
    pub(crate) fn take(&mut self, reader: &mut Reader, said: Line, line: u32) -> Result<(), Fault> {
        match said {
            Line::Whole(whole) => self.take_call(reader, whole, line),
            Line::CrashAt(moment) => {
                self.tick(reader, moment, Kind::Crash)?;
                self.push(Timed {
                    line,
                    client: 0,
                    puts: None,
                    answered: None,
                    call: 0,
                    crashes: 0,
                })?;
                Ok(())
            }
            _other => Err(Fault::Line(line, Why::TimesAndNone)),
        }
    }

    /// Gives everything to the reader, in order.
    pub(crate) fn play(mut self, reader: &mut Reader) -> Result<(), Fault> {
        self.ticks.sort_by(order)?;
        let mut crashes = 0usize;
        for tick in &self.ticks {
            let Some(timed) = self.timed.get_mut(tick.call) else {
                continue;
            };
            let at = At {
                line: timed.line,
                time: tick.time,
            };
            match tick.kind {
                Kind::Begin => {
                    timed.call = reader.begin(timed.client, timed.puts.take(), false, at)?;
                    timed.crashes = crashes;
                }
                Kind::End if timed.crashes != crashes => {
                    return Err(reader.no_call(timed.client, at)?);
                }
                Kind::End => {
                    let answered = timed.answered.take().unwrap_or(Answered::Unknown);
                    reader.answer(timed.client, timed.call, answered, at)?;
                }
                Kind::Crash => {
                    reader.crash(at)?;
                    crashes = crashes.wrapping_add(1);
                }
            }
        }
        Ok(())
    }
}
