//! What is known of calls, by their places.
// A clause names the calls of the tables that it speaks of, so some are longer than 120 columns.

ghost use Rattle.std.specs.Prelude.{◌≡◌, ◌↔◌, ◌⊎◌, length, Some, IfOk, IfSome, IfNone, IsTrue};
ghost use Rattle.words.specs.declared.call.Reply.TheVariants.{Done, Empty, Got};
ghost use Rattle.events.specs.Replay.{call_at};
ghost use Rattle.findings.specs.Findings.{IsKnown, IsKnownGot, PutsAt, TakesAt};
ghost use Rattle.findings.specs.FourPatterns.{HasPattern, IsOfQueue};
ghost use Rattle.findings.proofs.Offered.{Means};
ghost use Rattle.deciding.specs.AllMean.{AllMean};
ghost use Rattle.deciding.specs.Heard.{IsHeard};
ghost use Rattle.deciding.specs.Table.{known_of};

use crate::known::Knows;
use crate::reading::{Heard, find_put, known_at};
use findings::Findings;
use std::alloc::{AllocError, Global};
use words::{Call, Outcome, Reply, Value};

/// Whether it is the reply to a put.
fn is_done(reply: &Reply) -> bool
    ensures { IsTrue result ↔ (reply.now ≡ Done) }
{
    matches!(reply, Reply::Done)
}

/// What is known of a put that was answered; nothing, if its reply is not that of a put.
fn stored_knows(findings: &Findings, place: usize, value: &Value, reply: &Reply) -> Option<Knows>
    requires puts { PutsAt findings.now.events place value.now }
    requires known { IsKnown findings.now.events findings.now.learnt place reply.now }
    ensures found { IfSome result (λ knows. Means findings.now.events findings.now.learnt place (known_of knows)) }
    ensures none { IfNone result
        (IsOfQueue findings.now.events findings.now.learnt → HasPattern findings.now.events findings.now.learnt) }
{
    if is_done(reply) {
        Some(Knows::PutDone)
    } else {
        None
    }
}

/// What is known of a put.
fn put_knows(findings: &Findings, place: usize, value: &Value, heard: Heard) -> Option<Knows>
    requires puts { PutsAt findings.now.events place value.now }
    requires heard { IsHeard findings.now.events findings.now.learnt place heard }
    ensures found { IfSome result (λ knows. Means findings.now.events findings.now.learnt place (known_of knows)) }
    ensures none { IfNone result
        (IsOfQueue findings.now.events findings.now.learnt → HasPattern findings.now.events findings.now.learnt) }
{
    match heard {
        Heard::Replied(reply) => stored_knows(findings, place, value, &reply),
        Heard::Refused => Some(Knows::PutNot),
        Heard::Nothing => Some(Knows::PutOpen),
    }
}

/// What is known of a take that got a value; nothing, if nobody put it.
fn got_knows(findings: &Findings, place: usize, value: &Value) -> Option<Knows>
    requires takes { TakesAt findings.now.events place }
    requires got { IsKnownGot findings.now.events findings.now.learnt place value.now }
    ensures found { IfSome result (λ knows. Means findings.now.events findings.now.learnt place (known_of knows)) }
    ensures none { IfNone result
        (IsOfQueue findings.now.events findings.now.learnt → HasPattern findings.now.events findings.now.learnt) }
{
    match find_put(findings, value) {
        Some(put) => Some(Knows::Took(put)),
        None => None,
    }
}

/// The value that was got, if one was.
fn got_value(reply: &Reply) -> Option<Value>
    ensures found { IfSome result (λ value. reply.now ≡ Got value) }
    ensures none { IfNone result ((reply.now ≡ Done) ⊎ (reply.now ≡ Empty)) }
{
    match reply {
        Reply::Got(value) => Some(*value),
        _ => None,
    }
}

/// Whether nothing was found.
fn is_empty(reply: &Reply) -> bool
    ensures { IsTrue result ↔ (reply.now ≡ Empty) }
{
    matches!(reply, Reply::Empty)
}

/// What is known of a take that was answered; nothing, if its reply is not that of a take, or nobody put what it got.
fn answered_knows(findings: &Findings, place: usize, reply: &Reply) -> Option<Knows>
    requires takes { TakesAt findings.now.events place }
    requires known { IsKnown findings.now.events findings.now.learnt place reply.now }
    ensures found { IfSome result (λ knows. Means findings.now.events findings.now.learnt place (known_of knows)) }
    ensures none { IfNone result
        (IsOfQueue findings.now.events findings.now.learnt → HasPattern findings.now.events findings.now.learnt) }
{
    if is_empty(reply) {
        return Some(Knows::FoundNothing);
    }
    match got_value(reply) {
        Some(value) => got_knows(findings, place, &value),
        None => None,
    }
}

/// What is known of a take.
fn take_knows(findings: &Findings, place: usize, heard: Heard) -> Option<Knows>
    requires takes { TakesAt findings.now.events place }
    requires heard { IsHeard findings.now.events findings.now.learnt place heard }
    ensures found { IfSome result (λ knows. Means findings.now.events findings.now.learnt place (known_of knows)) }
    ensures none { IfNone result
        (IsOfQueue findings.now.events findings.now.learnt → HasPattern findings.now.events findings.now.learnt) }
{
    match heard {
        Heard::Replied(reply) => answered_knows(findings, place, &reply),
        Heard::Refused => Some(Knows::TakeNot),
        Heard::Nothing => Some(Knows::TakeOpen),
    }
}

/// What is known of a call, of which this is known.
fn call_knows(findings: &Findings, place: usize, call: Call, heard: Heard) -> Option<Knows>
    requires call { call_at findings.now.events place ≡ Some call }
    requires heard { IsHeard findings.now.events findings.now.learnt place heard }
    ensures found { IfSome result (λ knows. Means findings.now.events findings.now.learnt place (known_of knows)) }
    ensures none { IfNone result
        (IsOfQueue findings.now.events findings.now.learnt → HasPattern findings.now.events findings.now.learnt) }
{
    match call {
        Call::Enq(value) => put_knows(findings, place, &value, heard),
        Call::Deq => take_knows(findings, place, heard),
    }
}

/// What is known of what begins at a place; nothing, if no order can be.
fn knows_at(findings: &Findings, place: usize) -> Option<Knows>
    ensures found { IfSome result (λ knows. Means findings.now.events findings.now.learnt place (known_of knows)) }
    ensures none { IfNone result
        (IsOfQueue findings.now.events findings.now.learnt → HasPattern findings.now.events findings.now.learnt) }
{
    match findings.call_at(place) {
        Some(call) => call_knows(findings, place, call, known_at(findings, place)),
        None => Some(Knows::NoCall),
    }
}

/// The same of each place; nothing, if no order can be.
pub(crate) fn knows_of(alloc: Global, findings: &Findings) -> Result<Option<Vec<Knows>>, AllocError>
    ensures found { IfOk result (λ table. IfSome table
        (λ known. AllMean findings.now.events findings.now.learnt known.items)) }
    ensures none { IfOk result (λ table. IfNone table
        (IsOfQueue findings.now.events findings.now.learnt → HasPattern findings.now.events findings.now.learnt)) }
{
    let mut known = Vec::with_capacity(alloc, findings.len())?;
    for place in 0..findings.len() {
        match knows_at(findings, place) {
            Some(knows) => known.push(knows)?,
            None => return Ok(None),
        }
    }
    Ok(Some(known))
}
