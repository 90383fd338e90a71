//! The judge of orders.
// What is explained is the events and what was learnt of them, so a clause is longer than 120 columns.

ghost use Rattle.std.specs.Prelude.{◌↔◌, IfOk, IsTrue};
ghost use Rattle.findings.specs.Findings.{ExplainsFindings};

use crate::agreeing::{all_agree, all_answered, numbers_by_place};
use crate::facts::Findings;
use crate::preceding::{names_calls, precedence_is_kept};
use crate::replaying::replays;
use events::{Entry, Order};
use std::alloc::{AllocError, Global};

/// Whether the entries, in this order, explain what is known of the calls.
fn explains(alloc: Global, findings: &Findings, entries: &[Entry]) -> Result<bool, AllocError>
    ensures { IfOk result (λ yes. IsTrue yes
        ↔ ExplainsFindings findings.now.events findings.now.learnt entries.now) }
{
    if !names_calls(findings, entries) {
        return Ok(false);
    }
    if !precedence_is_kept(findings, entries) {
        return Ok(false);
    }
    if !replays(alloc, findings, entries)? {
        return Ok(false);
    }
    let Some(table) = numbers_by_place(alloc, findings.len(), entries)? else {
        return Ok(false);
    };
    if !all_answered(findings, entries, &table) {
        return Ok(false);
    }
    Ok(all_agree(findings, entries, &table))
}

/// Whether the order explains what is known of the calls, of any number of clients. Its time grows with the events and
/// the entries, and with nothing else.
pub fn explains_findings(
    alloc: Global,
    findings: &Findings,
    order: &Order,
) -> Result<bool, AllocError>
    ensures { IfOk result (λ yes. IsTrue yes
        ↔ ExplainsFindings findings.now.events findings.now.learnt order.now.entries.items) }
{
    explains(alloc, findings, order.entries.as_slice())
}
