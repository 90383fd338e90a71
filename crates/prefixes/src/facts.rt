//! What the first steps of a recording come to: events, and what was learnt of the calls that these begin.
// What a step adds is said of the events before and after, so a clause is longer than 120 columns.

ghost use Rattle.std.specs.Prelude.{◌≡◌, ◌+◌, ◌++◌, ◌<◌, [], ◌∷◌, Some, false, length, take, IfOk, OnOk};
ghost use Rattle.events.specs.declared.event.Event.{Event};
ghost use Rattle.findings.specs.Filling.{told_nothing};
ghost use Rattle.prefixes.specs.Fates.{AreFatesOf};
ghost use Rattle.prefixes.specs.Steps.{first_steps, call_events, answer_events};
ghost use Rattle.prefixes.specs.Steps.{events_of, events_up_to, learnt_of, learnt_up_to};

use findings::{Fact, Facts, Findings};
use recording::{Act, CallOf, Recording, Said, Step};
use std::alloc::{AllocError, Global};
use words::Outcome;

/// What some steps say became of a call.
#[derive(Clone, Copy)]
pub(crate) struct Fate {
    pub is_refused: bool,
    pub outcome: Option<Outcome>,
}

/// The first so many steps, or all of them.
fn first_steps(recording: &Recording, count: usize) -> &[Step]
    ensures { result.now ≡ first_steps recording.now count }
{
    &recording.steps[..count.min(recording.steps.len())]
}

/// Notes what the step at `i` says.
fn note(recording: &Recording, steps: &[Step], i: usize, fates: &mut [Fate])
    requires within { i < length steps.now }
    requires fates { AreFatesOf recording.now (take i steps.now) fates.old }
    ensures { AreFatesOf recording.now (take (i + 1) steps.now) fates.new }
{
    match steps[i].act {
        Act::Refuse(call) => {
            if call < fates.len() {
                fates[call].is_refused = true;
            }
        }
        Act::LearnTaken(call, said) => {
            if call < fates.len() {
                fates[call].outcome = Some(Outcome::Taken(recording.reply_of(said)));
            }
        }
        Act::LearnNotTaken(call) => {
            if call < fates.len() {
                fates[call].outcome = Some(Outcome::NotTaken);
            }
        }
        _ => {}
    }
}

/// What the steps say became of each call.
fn fates(alloc: Global, recording: &Recording, steps: &[Step]) -> Result<Vec<Fate>, AllocError>
    ensures { IfOk result (λ fates. AreFatesOf recording.now steps.now fates.items) }
{
    let nothing = Fate {
        is_refused: false,
        outcome: None,
    };
    let mut fates = vec![in alloc; nothing; recording.calls.len()]?;
    for i in 0..steps.len() {
        note(recording, steps, i, &mut fates);
    }
    Ok(fates)
}

/// A call begins, of which this was learnt.
fn begin(
    facts: &mut Facts,
    recording: &Recording,
    of: &CallOf,
    learnt: Option<Outcome>,
) -> Result<(), AllocError>
    ensures events { OnOk result (facts.new.events
        ≡ facts.old.events ++ call_events recording.now false (length facts.old.events) (Some of.now)) }
    ensures learnt { OnOk result (facts.new.learnt ≡ facts.old.learnt ++ learnt ∷ []) }
{
    let fact = Fact::Call {
        client: of.number,
        call: recording.ranked_call(*of),
    };
    facts.push(fact, learnt)
}

/// A call is answered.
fn answer(
    facts: &mut Facts,
    recording: &Recording,
    of: &CallOf,
    said: Said,
) -> Result<(), AllocError>
    ensures events { OnOk result (facts.new.events
        ≡ facts.old.events ++ answer_events recording.now said (Some of.now)) }
    ensures learnt { OnOk result (facts.new.learnt ≡ facts.old.learnt ++ None ∷ []) }
{
    let fact = Fact::Return {
        client: of.number,
        reply: recording.ranked_reply(said),
    };
    facts.push(fact, None)
}

/// A crash, and a Ready that tells nothing.
fn crash(facts: &mut Facts) -> Result<(), AllocError>
    ensures events { OnOk result (facts.new.events
        ≡ facts.old.events ++ Event.Crash ∷ Event.Ready told_nothing ∷ []) }
    ensures learnt { OnOk result (facts.new.learnt ≡ facts.old.learnt ++ None ∷ None ∷ []) }
{
    facts.push(Fact::Crash, None)?;
    facts.push(Fact::Ready, None)
}

/// What the step at `i` comes to.
fn add(
    facts: &mut Facts,
    recording: &Recording,
    steps: &[Step],
    fates: &[Fate],
    i: usize,
) -> Result<(), AllocError>
    requires within { i < length steps.now }
    requires fates { AreFatesOf recording.now steps.now fates.now }
    requires events { facts.old.events ≡ events_up_to recording.now steps.now i }
    requires learnt { facts.old.learnt ≡ learnt_up_to recording.now steps.now i }
    ensures events { OnOk result (facts.new.events ≡ events_up_to recording.now steps.now (i + 1)) }
    ensures learnt { OnOk result (facts.new.learnt ≡ learnt_up_to recording.now steps.now (i + 1)) }
{
    match steps[i].act {
        Act::Begin(call) => match recording.calls.get(call) {
            Some(_) if fates[call].is_refused => Ok(()),
            Some(of) => begin(facts, recording, of, fates[call].outcome),
            None => Ok(()),
        },
        Act::Answer(call, said) => match recording.calls.get(call) {
            Some(of) => answer(facts, recording, of, said),
            None => Ok(()),
        },
        Act::Crash => crash(facts),
        _ => Ok(()),
    }
}

/// The facts of the first so many steps.
fn facts_of(alloc: Global, recording: &Recording, steps: &[Step]) -> Result<Facts, AllocError>
    ensures events { IfOk result (λ facts. facts.events ≡ events_of recording.now steps.now) }
    ensures learnt { IfOk result (λ facts. facts.learnt ≡ learnt_of recording.now steps.now) }
{
    let fates = fates(alloc, recording, steps)?;
    let mut facts = Facts::with_room(alloc, steps.len())?;
    for i in 0..steps.len() {
        add(&mut facts, recording, steps, &fates, i)?;
    }
    Ok(facts)
}

/// What the first so many steps come to.
pub fn findings_of(
    alloc: Global,
    recording: &Recording,
    count: usize,
) -> Result<Findings, AllocError>
    ensures events { IfOk result (λ findings.
        findings.events ≡ events_of recording.now (first_steps recording.now count)) }
    ensures learnt { IfOk result (λ findings.
        findings.learnt ≡ learnt_of recording.now (first_steps recording.now count)) }
{
    let facts = facts_of(alloc, recording, first_steps(recording, count))?;
    Findings::of(alloc, facts)
}
