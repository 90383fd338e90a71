//! What is known of one call.

ghost use Rattle.std.specs.Prelude.{◌≡◌, ◌↔◌, IfNone, IfSome, IsTrue};
ghost use Rattle.words.specs.PlainQueue.{Value};
ghost use Rattle.words.specs.declared.call.Call.TheVariants.{Enq};
ghost use Rattle.words.specs.declared.call.Reply.{Reply};
ghost use Rattle.events.specs.History.{Precedes};
ghost use Rattle.findings.specs.Findings.{IsLearnt, IsReturned, IsKnown, PutsAt, TakesAt, IsOverBy};

use crate::fact::Fact;
use crate::facts::Findings;
use events::{is_same_outcome, is_same_reply, is_same_value};
use words::{Call, Outcome, Reply, Value};

/// The value that the call puts, if it puts one.
fn value_put(call: Call) -> Option<Value>
    ensures found { IfSome result (λ value. call ≡ Enq value) }
    ensures none { IfNone result ((value : Value) → call ≡ Enq value → ⊥) }
{
    match call {
        Call::Enq(value) => Some(value),
        Call::Deq => None,
    }
}

/// Whether the call puts this value.
fn puts(call: Call, value: &Value) -> bool
    ensures { IsTrue result ↔ (call ≡ Enq value.now) }
{
    match value_put(call) {
        Some(other) => is_same_value(&other, value),
        None => false,
    }
}

/// Whether the call at `p` puts this value.
pub fn puts_at(findings: &Findings, p: usize, value: &Value) -> bool
    ensures { IsTrue result ↔ PutsAt findings.now.events p value.now }
{
    match findings.call_at(p) {
        Some(call) => puts(call, value),
        None => false,
    }
}

/// Whether the call at `p` takes.
pub(crate) fn takes_at(findings: &Findings, p: usize) -> bool
    ensures { IsTrue result ↔ TakesAt findings.now.events p }
{
    match findings.call_at(p) {
        Some(call) => matches!(call, Call::Deq),
        None => false,
    }
}

/// The value that the call at `p` puts, if it puts one.
pub(crate) fn value_of_put(findings: &Findings, p: usize) -> Option<Value>
    ensures found { IfSome result (λ value. PutsAt findings.now.events p value) }
    ensures none { IfNone result ((value : Value) → PutsAt findings.now.events p value → ⊥) }
{
    match findings.call_at(p) {
        Some(call) => value_put(call),
        None => None,
    }
}

/// Whether this was learnt of the call at `p`.
pub(crate) fn is_learnt(findings: &Findings, p: usize, outcome: Outcome) -> bool
    ensures { IsTrue result ↔ IsLearnt findings.now.learnt p outcome }
{
    match findings.learnt_at(p) {
        Some(other) => is_same_outcome(&other, &outcome),
        None => false,
    }
}

/// The reply that the call at `p` returned, if it returned one.
pub fn returned_reply(findings: &Findings, p: usize) -> Option<Reply>
    ensures some { IfSome result (λ reply. IsReturned findings.now.events p reply) }
    ensures none { IfNone result ((reply : Reply) → IsReturned findings.now.events p reply → ⊥) }
{
    let Some(end) = findings.end(p) else {
        return None;
    };
    match findings.at(end) {
        Fact::Return { reply, .. } => Some(reply.reply()),
        _ => None,
    }
}

/// The reply with which the call at `p` is known to have taken effect, if it is.
pub(crate) fn known_reply(findings: &Findings, p: usize) -> Option<Reply>
    ensures { IfSome result (λ reply. IsKnown findings.now.events findings.now.learnt p reply) }
{
    if let Some(Outcome::Taken(reply)) = findings.learnt_at(p) {
        return Some(reply);
    }
    returned_reply(findings, p)
}

/// Whether the call at `p` is known to have taken effect with this reply.
pub(crate) fn is_known(findings: &Findings, p: usize, reply: Reply) -> bool
    ensures { IsTrue result → IsKnown findings.now.events findings.now.learnt p reply }
{
    match known_reply(findings, p) {
        Some(other) => is_same_reply(&other, &reply),
        None => false,
    }
}

/// Whether the call at `p` ended at `t` or before.
pub(crate) fn is_over_by(findings: &Findings, p: usize, t: usize) -> bool
    ensures { IsTrue result ↔ IsOverBy findings.now.events p t }
{
    match findings.end(p) {
        Some(end) => end <= t,
        None => false,
    }
}

/// Whether the call at `a` ended before `b`.
pub(crate) fn precedes(findings: &Findings, a: usize, b: usize) -> bool
    ensures { IsTrue result ↔ Precedes findings.now.events a b }
{
    match findings.end(a) {
        Some(end) => end < b,
        None => false,
    }
}
