//! Values that are put more than once: each put as one of a value of its own, a copy; and a recording without some of them.
//! Of a put that was refused, or of which it was learnt that it took no effect, no copy comes out.

use crate::act::{Act, CallOf, Recording, Said, Step};
use crate::ranks::{ranks_of, value_put};
use indexmap::IndexSet;
use std::alloc::{AllocError, Global};

/// In place of a value where there is none.
const NONE: usize = usize::MAX;

/// How often a value is put, how many of these puts may have taken effect, and how many takes got it.
#[derive(Clone, Copy)]
pub struct ValueCounts {
    pub puts: usize,
    pub live: usize,
    pub takes: usize,
}

/// The value that a step says was got, and by which call.
fn got_by(step: &Step) -> Option<(usize, usize)> {
    match step.act {
        Act::Answer(call, Said::Got(value)) | Act::LearnTaken(call, Said::Got(value)) => {
            Some((call, value))
        }
        _ => None,
    }
}

/// Which calls certainly did nothing.
fn idle(alloc: Global, recording: &Recording) -> Result<Vec<bool>, AllocError> {
    let mut idle = vec![in alloc; false; recording.calls.len()]?;
    for step in &recording.steps {
        if let Act::Refuse(call) | Act::LearnNotTaken(call) = step.act {
            if let Some(place) = idle.get_mut(call) {
                *place = true;
            }
        }
    }
    Ok(idle)
}

fn is_marked(marks: &[bool], call: usize) -> bool {
    marks.get(call).copied().unwrap_or(false)
}

fn set(numbers: &mut [usize], place: usize, number: usize) {
    if let Some(old) = numbers.get_mut(place) {
        *old = number;
    }
}

/// ValueCounts what a step says of a value.
fn count(counts: &mut [ValueCounts], recording: &Recording, idle: &[bool], step: &Step) {
    if let Some((_call, value)) = got_by(step) {
        if let Some(counts) = counts.get_mut(value) {
            counts.takes = counts.takes.saturating_add(1);
        }
    }
    let (Some(value), Act::Begin(call)) = (value_put(&recording.calls, step), step.act) else {
        return;
    };
    if let Some(counts) = counts.get_mut(value) {
        counts.puts = counts.puts.saturating_add(1);
        if !is_marked(idle, call) {
            counts.live = counts.live.saturating_add(1);
        }
    }
}

/// The counts of each value.
pub fn value_counts(alloc: Global, recording: &Recording) -> Result<Vec<ValueCounts>, AllocError> {
    let none = ValueCounts {
        puts: 0,
        live: 0,
        takes: 0,
    };
    let idle = idle(alloc, recording)?;
    let mut counts = vec![in alloc; none; recording.values.len()]?;
    for step in &recording.steps {
        count(&mut counts, recording, &idle, step);
    }
    Ok(counts)
}

/// The texts of a recording once more.
fn texts_of(alloc: Global, texts: &IndexSet<String>) -> Result<IndexSet<String>, AllocError> {
    let mut copied = IndexSet::new(alloc);
    for number in 0..texts.len() {
        if let Some(text) = texts.get_index(number) {
            copied.insert(text.clone()?)?;
        }
    }
    Ok(copied)
}

/// The times of a recording once more.
fn times_of(alloc: Global, times: &[String]) -> Result<Vec<String>, AllocError> {
    let mut copied = Vec::with_capacity(alloc, times.len())?;
    for text in times {
        copied.push(text.clone()?)?;
    }
    Ok(copied)
}

/// The same recording with other calls and steps, of so many values.
fn changed(
    alloc: Global,
    recording: &Recording,
    calls: Vec<CallOf>,
    steps: Vec<Step>,
    values: usize,
) -> Result<Recording, AllocError> {
    let ranks = ranks_of(alloc, &calls, &steps, values)?;
    Ok(Recording {
        calls,
        steps,
        clients: texts_of(alloc, &recording.clients)?,
        values: texts_of(alloc, &recording.values)?,
        times: times_of(alloc, &recording.times)?,
        ranks,
    })
}

/// The copies of values: the value that each is one of, and the next copy of the same value.
#[derive(Drop)]
struct Copies {
    values: Vec<usize>,
    next: Vec<usize>,
    /// Of each value the copy that comes out next, and the one that was put last.
    first: Vec<usize>,
    last: Vec<usize>,
}

impl Copies {
    fn begin(alloc: Global, count: usize) -> Result<Self, AllocError> {
        let mut values = Vec::with_capacity(alloc, count)?;
        for value in 0..count {
            values.push(value)?;
        }
        Ok(Copies {
            values,
            next: vec![in alloc; NONE; count]?,
            first: vec![in alloc; NONE; count]?,
            last: vec![in alloc; NONE; count]?,
        })
    }

    /// One more copy, that is none of those that come out.
    fn add(&mut self, value: usize) -> Result<usize, AllocError> {
        let copy = self.values.len();
        self.values.push(value)?;
        self.next.push(NONE)?;
        Ok(copy)
    }

    /// A put of the value: its copy, the first of which is the value itself.
    fn put(&mut self, value: usize) -> Result<usize, AllocError> {
        let last = self.last.get(value).copied().unwrap_or(NONE);
        let copy = if last == NONE {
            value
        } else {
            self.add(value)?
        };
        if last == NONE {
            set(&mut self.first, value, copy);
        } else {
            set(&mut self.next, last, copy);
        }
        set(&mut self.last, value, copy);
        Ok(copy)
    }

    /// A take of the value: the copy that comes out, or one more if there is none.
    fn take(&mut self, value: usize) -> Result<usize, AllocError> {
        let copy = self.first.get(value).copied().unwrap_or(NONE);
        if copy == NONE {
            return self.add(value);
        }
        let next = self.next.get(copy).copied().unwrap_or(NONE);
        set(&mut self.first, value, next);
        Ok(copy)
    }
}

/// In which order takes get the copies of a value: as they are answered, or as they begin.
#[derive(Clone, Copy, PartialEq, Eq)]
pub enum Turn {
    AsAnswered,
    AsBegun,
}

/// What each call got, and each call's copy.
#[derive(Drop)]
struct Given {
    got: Vec<usize>,
    copy: Vec<usize>,
}

impl Given {
    fn begin(alloc: Global, recording: &Recording) -> Result<Self, AllocError> {
        let count = recording.calls.len();
        let mut given = Given {
            got: vec![in alloc; NONE; count]?,
            copy: vec![in alloc; NONE; count]?,
        };
        for step in &recording.steps {
            if let Some((call, value)) = got_by(step) {
                set(&mut given.got, call, value);
            }
        }
        Ok(given)
    }

    /// The copy of a call, if it has one.
    fn copy_of(&self, call: usize) -> Option<usize> {
        match self.copy.get(call).copied() {
            Some(NONE) | None => None,
            copy => copy,
        }
    }

    /// Gives a put its copy.
    fn put(
        &mut self,
        copies: &mut Copies,
        value: usize,
        call: usize,
        is_idle: bool,
    ) -> Result<(), AllocError> {
        let copy = if is_idle {
            copies.add(value)?
        } else {
            copies.put(value)?
        };
        set(&mut self.copy, call, copy);
        Ok(())
    }

    /// Gives a take its copy, if it got a value.
    fn take(&mut self, copies: &mut Copies, call: usize) -> Result<(), AllocError> {
        let value = self.got.get(call).copied().unwrap_or(NONE);
        if value == NONE || self.copy_of(call).is_some() {
            return Ok(());
        }
        let copy = copies.take(value)?;
        set(&mut self.copy, call, copy);
        Ok(())
    }

    /// Gives the puts their copies.
    fn put_all(
        &mut self,
        copies: &mut Copies,
        recording: &Recording,
        idle: &[bool],
    ) -> Result<(), AllocError> {
        for step in &recording.steps {
            if let (Some(value), Act::Begin(call)) = (value_put(&recording.calls, step), step.act) {
                self.put(copies, value, call, is_marked(idle, call))?;
            }
        }
        Ok(())
    }

    /// Gives the takes theirs.
    fn take_all(
        &mut self,
        copies: &mut Copies,
        recording: &Recording,
        turn: Turn,
    ) -> Result<(), AllocError> {
        for step in &recording.steps {
            match (turn, step.act) {
                (Turn::AsBegun, Act::Begin(call)) => self.take(copies, call)?,
                (Turn::AsAnswered, Act::Answer(call, _) | Act::LearnTaken(call, _)) => {
                    self.take(copies, call)?;
                }
                _ => {}
            }
        }
        Ok(())
    }

    /// The step with the copy in place of the value.
    fn step(&self, step: Step) -> Step {
        let act = match step.act {
            Act::Answer(call, Said::Got(value)) => {
                Act::Answer(call, Said::Got(self.copy_of(call).unwrap_or(value)))
            }
            Act::LearnTaken(call, Said::Got(value)) => {
                Act::LearnTaken(call, Said::Got(self.copy_of(call).unwrap_or(value)))
            }
            act => act,
        };
        Step { act, ..step }
    }

    /// The call with the copy in place of the value.
    fn call(&self, number: usize, call: CallOf) -> CallOf {
        match call.puts {
            Some(value) => CallOf {
                puts: Some(self.copy_of(number).unwrap_or(value)),
                ..call
            },
            None => call,
        }
    }
}

/// A recording in which each put is one of a value of its own, and of each value the one that it stands for.
#[derive(Drop)]
pub struct Distinct {
    pub recording: Recording,
    pub values: Vec<usize>,
}

/// The recording with copies in place of values: they come out as they were put, by takes in this order.
pub fn with_copies(
    alloc: Global,
    recording: &Recording,
    turn: Turn,
) -> Result<Distinct, AllocError> {
    let idle = idle(alloc, recording)?;
    let mut copies = Copies::begin(alloc, recording.values.len())?;
    let mut given = Given::begin(alloc, recording)?;
    given.put_all(&mut copies, recording, &idle)?;
    given.take_all(&mut copies, recording, turn)?;
    let mut calls = Vec::with_capacity(alloc, recording.calls.len())?;
    for (number, call) in recording.calls.iter().enumerate() {
        calls.push(given.call(number, *call))?;
    }
    let mut steps = Vec::with_capacity(alloc, recording.steps.len())?;
    for step in &recording.steps {
        steps.push(given.step(*step))?;
    }
    let count = copies.values.len();
    Ok(Distinct {
        recording: changed(alloc, recording, calls, steps, count)?,
        values: copies.values,
    })
}

/// The call that a step is of, if it is of one.
fn call_of(act: Act) -> Option<usize> {
    match act {
        Act::Begin(call)
        | Act::Answer(call, _)
        | Act::Refuse(call)
        | Act::GiveUp(call)
        | Act::LearnTaken(call, _)
        | Act::LearnNotTaken(call) => Some(call),
        Act::Crash => None,
    }
}

/// Whether of a value more than one put may have taken effect.
fn is_repeated(counts: &[ValueCounts], value: usize) -> bool {
    counts.get(value).map_or(false, |counts| counts.live > 1)
}

/// Which calls put such a value, or got one.
fn are_repeated(
    alloc: Global,
    recording: &Recording,
    counts: &[ValueCounts],
) -> Result<Vec<bool>, AllocError> {
    let mut repeated = Vec::with_capacity(alloc, recording.calls.len())?;
    for call in &recording.calls {
        repeated.push(call.puts.map_or(false, |value| is_repeated(counts, value)))?;
    }
    for step in &recording.steps {
        if let Some((call, value)) = got_by(step) {
            if let (true, Some(place)) = (is_repeated(counts, value), repeated.get_mut(call)) {
                *place = true;
            }
        }
    }
    Ok(repeated)
}

/// The recording without the calls that put, or got, a value of which more than one put may have taken effect.
pub fn without_repeated(
    alloc: Global,
    recording: &Recording,
    counts: &[ValueCounts],
) -> Result<Recording, AllocError> {
    let repeated = are_repeated(alloc, recording, counts)?;
    let mut steps = Vec::with_capacity(alloc, recording.steps.len())?;
    for step in &recording.steps {
        let leaves = call_of(step.act).map_or(false, |call| is_marked(&repeated, call));
        if !leaves {
            steps.push(*step)?;
        }
    }
    let mut calls = Vec::with_capacity(alloc, recording.calls.len())?;
    for call in &recording.calls {
        calls.push(*call)?;
    }
    changed(alloc, recording, calls, steps, recording.values.len())
}
