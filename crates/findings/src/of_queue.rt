//! Whether what is known is a recording of a queue.

ghost use Rattle.std.specs.Prelude.{ℕ, ◌<◌, IfOk, IsTrue, length};
ghost use Rattle.words.specs.declared.call.Reply.{Reply};
ghost use Rattle.words.specs.declared.told.Outcome.TheVariants.{Taken};
ghost use Rattle.findings.specs.Findings.{IsLearnt, IsReturned};
ghost use Rattle.findings.specs.FourPatterns.{Fits, HasFittingReply, IsOfQueue};

use crate::distinct::values_rise;
use crate::facts::Findings;
use crate::known::returned_reply;
use crate::recorded::is_recorded;
use std::alloc::{AllocError, Global};
use words::{Call, Outcome, Reply};

/// Whether the reply is one to the call.
fn fits(call: &Call, reply: &Reply) -> bool
    ensures { IsTrue result → Fits call.now reply.now }
{
    let is_done = matches!(reply, Reply::Done);
    match call {
        Call::Enq(_) => is_done,
        Call::Deq => !is_done,
    }
}

/// Whether the reply that the call at `p` returned is one to it.
fn returned_fits(findings: &Findings, p: usize, call: &Call) -> bool
    ensures { IsTrue result → (reply : Reply) → IsReturned findings.now.events p reply → Fits call.now reply }
{
    match returned_reply(findings, p) {
        Some(reply) => fits(call, &reply),
        None => true,
    }
}

/// Whether the reply that somebody learnt of the call at `p` is one to it.
fn learnt_fits(findings: &Findings, p: usize, call: &Call) -> bool
    ensures { IsTrue result → (reply : Reply) → IsLearnt findings.now.learnt p (Taken reply) → Fits call.now reply }
{
    match findings.learnt_at(p) {
        Some(Outcome::Taken(reply)) => fits(call, &reply),
        _ => true,
    }
}

/// Whether each reply that is known of the call at `p` is one to it.
fn has_fitting_reply(findings: &Findings, p: usize) -> bool
    ensures { IsTrue result → HasFittingReply findings.now.events findings.now.learnt p }
{
    match findings.call_at(p) {
        Some(call) => returned_fits(findings, p, &call) && learnt_fits(findings, p, &call),
        None => true,
    }
}

/// Whether that is so of each call.
fn all_have_fitting_replies(findings: &Findings) -> bool
    ensures { IsTrue result → ((p : ℕ) → p < length findings.now.events
        → HasFittingReply findings.now.events findings.now.learnt p) }
{
    for p in 0..findings.len() {
        if !has_fitting_reply(findings, p) {
            return false;
        }
    }
    true
}

/// Whether what is known is seen to be a recording of a queue. Values are to be numbered as they are put.
pub fn is_of_queue(alloc: Global, findings: &Findings) -> Result<bool, AllocError>
    ensures { IfOk result (λ yes. IsTrue yes → IsOfQueue findings.now.events findings.now.learnt) }
{
    if !is_recorded(alloc, findings)? {
        return Ok(false);
    }
    if !values_rise(findings) {
        return Ok(false);
    }
    Ok(all_have_fitting_replies(findings))
}
