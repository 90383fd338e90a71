//! What a recording says of each call.

ghost use Rattle.std.specs.Prelude.{ℕ, ◌≡◌, ◌<◌, length, IfSome, IfNone, IfOk};
ghost use Rattle.findings.specs.Findings.{PutsAt};
ghost use Rattle.findings.proofs.Offered.{end_at};
ghost use Rattle.deciding.specs.Heard.{IsHeard};
ghost use Rattle.deciding.specs.Tables.{HasEach};

use findings::{Findings, puts_at, returned_reply};
use std::alloc::{AllocError, Global};
use words::{Outcome, Reply, Value};

/// What is known of a call.
#[derive(Clone, Copy)]
pub(crate) enum Heard {
    Replied(Reply),
    Refused,
    Nothing,
}

/// The put of a value, if there is one.
pub(crate) fn find_put(findings: &Findings, value: &Value) -> Option<usize>
    ensures found { IfSome result (λ place. PutsAt findings.now.events place value.now) }
    ensures none { IfNone result ((place : ℕ) → place < length findings.now.events
        → PutsAt findings.now.events place value.now → ⊥) }
{
    for place in 0..findings.len() {
        if puts_at(findings, place, value) {
            return Some(place);
        }
    }
    None
}

/// What is known of the call at a place.
pub(crate) fn known_at(findings: &Findings, place: usize) -> Heard
    ensures { IsHeard findings.now.events findings.now.learnt place result }
{
    match findings.learnt_at(place) {
        Some(Outcome::Taken(reply)) => Heard::Replied(reply),
        Some(Outcome::NotTaken) => Heard::Refused,
        None => match returned_reply(findings, place) {
            Some(reply) => Heard::Replied(reply),
            None => Heard::Nothing,
        },
    }
}

/// The end of a call, and behind all if it has none.
fn end_of(findings: &Findings, place: usize) -> usize
    ensures { result ≡ end_at findings.now.events place }
{
    match findings.end(place) {
        Some(end) => end,
        None => findings.len(),
    }
}

/// Of all places.
pub(crate) fn ends_of(alloc: Global, findings: &Findings) -> Result<Vec<usize>, AllocError>
    ensures { IfOk result (λ ends. HasEach (end_at findings.now.events) (length findings.now.events) ends.items) }
{
    let mut ends = Vec::with_capacity(alloc, findings.len())?;
    for place in 0..findings.len() {
        ends.push(end_of(findings, place))?;
    }
    Ok(ends)
}
