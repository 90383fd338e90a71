//! Whether facts are those of a recording: whether each may stand where it stands.
// How things stand is said of three fields, and what is recorded of events and of what was learnt: some clauses are
// longer than 120 columns.

ghost use Rattle.std.specs.Prelude.{ℕ, ◌≡◌, ◌+◌, ◌<◌, ◌↔◌, IfOk, IsTrue, length};
ghost use Rattle.events.specs.History.{IsUnderWay};
ghost use Rattle.findings.specs.Ends.{AreBelow};
ghost use Rattle.findings.specs.Filling.{IsInterrupted, IsRecordedOfAny};
ghost use Rattle.findings.specs.Findings.{IsLearnt};
ghost use Rattle.findings.specs.Standing.{IsStanding, StandsRightly};
ghost use Rattle.words.specs.declared.told.Outcome.{Outcome};

use crate::fact::Fact;
use crate::facts::Findings;
use std::alloc::{AllocError, Global};

/// How things stand before some place.
#[derive(Drop)]
struct Standing {
    /// Of each client one more than the place at which its last call began, and 0 once that returned.
    begun: Vec<usize>,
    /// One more than the place of the last Crash.
    crashed: usize,
    is_down: bool,
}

/// Whether the client has a call without an end before `p`.
fn is_under_way(findings: &Findings, p: usize, standing: &Standing, client: u32) -> bool
    requires below { client < length standing.now.begun.items }
    requires standing { IsStanding findings.now.events p standing.now.begun.items standing.now.crashed standing.now.is_down }
    ensures { IsTrue result ↔ IsUnderWay findings.now.events (record { 0 = client }) p }
{
    let begun = standing.begun[client as usize];
    standing.crashed < begun
}

/// Whether what stands at `p` may stand there.
fn stands_rightly(findings: &Findings, p: usize, standing: &Standing) -> bool
    requires within { p < length findings.now.events }
    requires below { AreBelow (length standing.now.begun.items) findings.now.events }
    requires standing { IsStanding findings.now.events p standing.now.begun.items standing.now.crashed standing.now.is_down }
    ensures { IsTrue result → StandsRightly findings.now.events p }
{
    match findings.at(p) {
        Fact::Call { client, .. } => {
            !standing.is_down && !is_under_way(findings, p, standing, client)
        }
        Fact::Return { client, .. } => {
            !standing.is_down && is_under_way(findings, p, standing, client)
        }
        _ => true,
    }
}

/// Goes on past what stands at `p`.
fn go_on(findings: &Findings, p: usize, standing: &mut Standing)
    requires within { p < length findings.now.events }
    requires below { AreBelow (length standing.old.begun.items) findings.now.events }
    requires standing { IsStanding findings.now.events p standing.old.begun.items standing.old.crashed standing.old.is_down }
    ensures standing { IsStanding findings.now.events (p + 1) standing.new.begun.items standing.new.crashed standing.new.is_down }
    ensures count { length standing.new.begun.items ≡ length standing.old.begun.items }
{
    match findings.at(p) {
        Fact::Call { client, .. } => standing.begun[client as usize] = p + 1,
        Fact::Return { client, .. } => standing.begun[client as usize] = 0,
        Fact::Crash => {
            standing.crashed = p + 1;
            standing.is_down = true;
        }
        Fact::Ready => standing.is_down = false,
    }
}

/// Whether each fact may stand where it stands.
fn all_stand_rightly(alloc: Global, findings: &Findings) -> Result<bool, AllocError>
    ensures { IfOk result (λ yes. IsTrue yes
        → ((p : ℕ) → p < length findings.now.events → StandsRightly findings.now.events p)) }
{
    let mut standing = Standing {
        begun: vec![in alloc; 0usize; findings.client_count()]?,
        crashed: 0,
        is_down: false,
    };
    for p in 0..findings.len() {
        if !stands_rightly(findings, p, &standing) {
            return Ok(false);
        }
        go_on(findings, p, &mut standing);
    }
    Ok(true)
}

/// Whether a crash interrupted the call at `p`, and recovery came after it.
fn is_interrupted(findings: &Findings, p: usize) -> bool
    ensures { IsTrue result → IsInterrupted findings.now.events p }
{
    let Some(end) = findings.end(p) else {
        return false;
    };
    if findings.len() - end < 2 {
        return false;
    }
    if !matches!(findings.at(end), Fact::Crash) {
        return false;
    }
    matches!(findings.at(end + 1), Fact::Ready)
}

/// Whether that is so of each call of which something was learnt.
fn all_interrupted(findings: &Findings) -> bool
    ensures { IsTrue result → ((p : ℕ) (outcome : Outcome) → IsLearnt findings.now.learnt p outcome
        → IsInterrupted findings.now.events p) }
{
    for p in 0..findings.len() {
        if findings.learnt_at(p).is_some() && !is_interrupted(findings, p) {
            return false;
        }
    }
    true
}

/// Whether the facts are seen to be those of a recording. The time grows with them and with their clients.
pub fn is_recorded(alloc: Global, findings: &Findings) -> Result<bool, AllocError>
    ensures { IfOk result (λ yes. IsTrue yes → IsRecordedOfAny findings.now.events findings.now.learnt) }
{
    if !all_stand_rightly(alloc, findings)? {
        return Ok(false);
    }
    Ok(all_interrupted(findings))
}
