//! Whether takes lack: whether those that began before a bound cannot have taken all values of some puts.
// What is known is the events and what was learnt of them, so a clause is longer than 120 columns.

ghost use Rattle.std.specs.Prelude.{◌<◌, ◌↔◌, IsTrue, All, Any, Option};
ghost use Rattle.words.specs.declared.call.Reply.TheVariants.{Got};
ghost use Rattle.findings.specs.Findings.{PutsAt};
ghost use Rattle.findings.specs.Shows.{IsAhead, IsInAt, AreInSince, WasOver, CanHaveTaken, AreListed, IsListed};
ghost use Rattle.findings.specs.Shows.{IsKnownPut, IsFew, IsLate, Lacks};

use crate::distinct::numbers_rise;
use crate::facts::Findings;
use crate::known::{
    is_known, is_learnt, is_over_by, known_reply, precedes, puts_at, takes_at, value_of_put,
};
use crate::witness::{Ahead, Lack, Since};
use words::{Outcome, Reply, Value};

/// Whether the value of `ahead` is ahead of the put's, and came out by its take.
fn is_ahead(findings: &Findings, ahead: &Ahead, put: usize) -> bool
    ensures { IsTrue result → IsAhead findings.now.events findings.now.learnt ahead.now put }
{
    let Some(value) = value_of_put(findings, ahead.put) else {
        return false;
    };
    if !is_known(findings, ahead.take, Reply::Got(value)) {
        return false;
    }
    precedes(findings, ahead.put, put)
}

/// Whether the value of the put was not out of the queue at this place.
fn is_in_at(findings: &Findings, since: &Since, put: usize) -> bool
    ensures { IsTrue result → IsInAt findings.now.events findings.now.learnt since.now put }
{
    if since.place < put {
        return true;
    }
    match &since.ahead {
        Some(ahead) => since.place < ahead.take && is_ahead(findings, ahead, put),
        None => false,
    }
}

/// Whether no value of the puts was out of the queue at the place that is named, if one is.
fn are_in_since(findings: &Findings, puts: &[usize], since: &Option<Since>) -> bool
    ensures { IsTrue result → AreInSince findings.now.events findings.now.learnt puts.now since.now }
{
    match since {
        None => true,
        Some(since) => puts.iter().all(|put| is_in_at(findings, since, *put)),
    }
}

/// Whether the take was over by then.
fn was_over(findings: &Findings, since: &Option<Since>, take: usize) -> bool
    ensures { IsTrue result ↔ WasOver findings.now.events since.now take }
{
    match since {
        None => false,
        Some(since) => is_over_by(findings, take, since.place),
    }
}

/// Whether one of the puts puts this value.
fn is_value_of(findings: &Findings, puts: &[usize], value: Value) -> bool
    ensures { IsTrue result ↔ Any (λ put. PutsAt findings.now.events put value) puts.now }
{
    puts.iter().any(|put| puts_at(findings, *put, &value))
}

/// Whether what is known of the take's reply allows that it took a value of the puts.
fn allows_value(findings: &Findings, puts: &[usize], take: usize) -> bool
    ensures { (since : Option Since) → CanHaveTaken findings.now.events findings.now.learnt puts.now since take → IsTrue result }
{
    let Some(reply) = known_reply(findings, take) else {
        return true;
    };
    match reply {
        Reply::Got(value) => is_value_of(findings, puts, value),
        _ => false,
    }
}

/// Whether the take can have taken a value of the puts, since then. It says so of some that cannot, and then less is
/// shown than could be.
fn can_have_taken(findings: &Findings, puts: &[usize], since: &Option<Since>, take: usize) -> bool
    ensures { CanHaveTaken findings.now.events findings.now.learnt puts.now since.now take → IsTrue result }
{
    if !takes_at(findings, take) {
        return false;
    }
    if is_learnt(findings, take, Outcome::NotTaken) {
        return false;
    }
    if was_over(findings, since, take) {
        return false;
    }
    allows_value(findings, puts, take)
}

/// Whether the take is one of these takes, if it can have taken a value of the puts.
fn is_listed(
    findings: &Findings,
    puts: &[usize],
    takes: &[usize],
    since: &Option<Since>,
    take: usize,
) -> bool
    ensures { IsTrue result → IsListed findings.now.events findings.now.learnt puts.now takes.now since.now take }
{
    if can_have_taken(findings, puts, since, take) {
        return takes.contains(&take);
    }
    true
}

/// Whether each take that began before the bound and can have taken a value of the puts is one of these takes.
fn are_listed(
    findings: &Findings,
    bound: usize,
    puts: &[usize],
    takes: &[usize],
    since: &Option<Since>,
) -> bool
    ensures { IsTrue result → AreListed findings.now.events findings.now.learnt bound puts.now takes.now since.now }
{
    for k in 0..bound.min(findings.len()) {
        if !is_listed(findings, puts, takes, since, k) {
            return false;
        }
    }
    true
}

/// Whether the put is known to have taken effect.
fn is_known_put(findings: &Findings, put: usize) -> bool
    ensures { IsTrue result → IsKnownPut findings.now.events findings.now.learnt put }
{
    match value_of_put(findings, put) {
        Some(_) => is_known(findings, put, Reply::Done),
        None => false,
    }
}

/// Whether each of the puts is known to have taken effect.
fn are_known_puts(findings: &Findings, puts: &[usize]) -> bool
    ensures { IsTrue result → All (λ put. IsKnownPut findings.now.events findings.now.learnt put) puts.now }
{
    puts.iter().all(|put| is_known_put(findings, *put))
}

/// Whether fewer takes can have taken a value of the puts than there are puts.
fn is_few(
    findings: &Findings,
    bound: usize,
    puts: &[usize],
    takes: &[usize],
    since: &Option<Since>,
) -> bool
    ensures { IsTrue result → IsFew findings.now.events findings.now.learnt bound puts.now takes.now since.now }
{
    if takes.len() >= puts.len() {
        return false;
    }
    if !numbers_rise(puts) {
        return false;
    }
    if !are_known_puts(findings, puts) {
        return false;
    }
    if !are_in_since(findings, puts, since) {
        return false;
    }
    are_listed(findings, bound, puts, takes, since)
}

/// Whether the value of the put came out by a take that began at the bound or later.
fn is_late(findings: &Findings, bound: usize, put: usize, take: usize) -> bool
    ensures { IsTrue result → IsLate findings.now.events findings.now.learnt bound put take }
{
    if take < bound {
        return false;
    }
    match value_of_put(findings, put) {
        Some(value) => is_known(findings, take, Reply::Got(value)),
        None => false,
    }
}

/// Whether takes that began before the bound cannot have taken all values of the puts of this lack.
pub(crate) fn lacks(findings: &Findings, bound: usize, lack: &Lack) -> bool
    ensures { IsTrue result → Lacks findings.now.events findings.now.learnt bound lack.now }
{
    match lack {
        Lack::Late { put, take } => is_late(findings, bound, *put, *take),
        Lack::Few { puts, takes, since } => is_few(findings, bound, puts, takes, since),
    }
}
