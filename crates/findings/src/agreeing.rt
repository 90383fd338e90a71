//! An order by the places of its calls, and whether it has what is known of them.

ghost use Rattle.std.specs.Prelude.{◌<◌, ◌↔◌, length, All, EachIndex, IfNone, IfOk, IfSome, IsTrue};
ghost use Rattle.events.specs.Explains.{IsAnswered};
ghost use Rattle.events.specs.Orders.{InOrder, IsNew, IsTakenAs};
ghost use Rattle.findings.specs.Agreeing.{AgreesAt, IsAgreed, IsIndexOf, IsTableOf};
ghost use Rattle.findings.specs.Findings.{Agrees};

use crate::facts::Findings;
use crate::known::returned_reply;
use events::{Entry, is_same_reply};
use std::alloc::{AllocError, Global};
use words::{Outcome, Reply};

/// At each of so many places the number of the entry whose call is there, and a greater one where there is none. Nothing
/// if a call is named twice.
pub(crate) fn numbers_by_place(
    alloc: Global,
    places: usize,
    entries: &[Entry],
) -> Result<Option<Vec<usize>>, AllocError>
    requires { All (λ entry. entry.place < places) entries.now }
    ensures some { IfOk result (λ found. IfSome found (λ table. IsIndexOf entries.now places table.items)) }
    ensures none { IfOk result (λ found. IfNone found (EachIndex entries.now (λ i. IsNew entries.now i) → ⊥)) }
{
    let mut table = vec![in alloc; entries.len(); places]?;
    for i in 0..entries.len() {
        let place = entries[i].place;
        if table[place] < entries.len() {
            return Ok(None);
        }
        table[place] = i;
    }
    Ok(Some(table))
}

/// The reply of the call at `p` in the order, if it is in it.
fn reply_at(entries: &[Entry], table: &[usize], p: usize) -> Option<Reply>
    requires place { p < length table.now }
    requires table { IsTableOf entries.now (length entries.now) table.now }
    ensures some { IfSome result (λ reply. IsTakenAs entries.now p reply) }
    ensures none { IfNone result (InOrder entries.now p → ⊥) }
{
    let number = table[p];
    if number < entries.len() {
        Some(entries[number].reply)
    } else {
        None
    }
}

/// Whether the outcome is that of a call with this reply in the order, or with none.
fn is_agreed(outcome: Outcome, reply: Option<Reply>) -> bool
    ensures { IsTrue result ↔ IsAgreed outcome reply }
{
    match outcome {
        Outcome::NotTaken => reply.is_none(),
        Outcome::Taken(taken) => match reply {
            Some(other) => is_same_reply(&other, &taken),
            None => false,
        },
    }
}

/// Whether what was learnt of the call at `p` is so in the order.
fn agrees_at(findings: &Findings, entries: &[Entry], table: &[usize], p: usize) -> bool
    requires place { p < length table.now }
    requires table { IsTableOf entries.now (length entries.now) table.now }
    requires once { EachIndex entries.now (λ i. IsNew entries.now i) }
    ensures { IsTrue result ↔ AgreesAt findings.now.learnt entries.now p }
{
    match findings.learnt_at(p) {
        Some(outcome) => is_agreed(outcome, reply_at(entries, table, p)),
        None => true,
    }
}

/// Whether what was learnt of each call is so in the order.
pub(crate) fn all_agree(findings: &Findings, entries: &[Entry], table: &[usize]) -> bool
    requires { IsIndexOf entries.now (length findings.now.events) table.now }
    ensures { IsTrue result ↔ Agrees findings.now.learnt entries.now }
{
    for p in 0..findings.len() {
        if !agrees_at(findings, entries, table, p) {
            return false;
        }
    }
    true
}

/// Whether the call at `p`, if it is complete, is in the order with the reply that it returned.
fn is_answered(findings: &Findings, entries: &[Entry], table: &[usize], p: usize) -> bool
    requires place { p < length table.now }
    requires table { IsTableOf entries.now (length entries.now) table.now }
    requires once { EachIndex entries.now (λ i. IsNew entries.now i) }
    ensures { IsTrue result ↔ IsAnswered findings.now.events entries.now p }
{
    let Some(returned) = returned_reply(findings, p) else {
        return true;
    };
    match reply_at(entries, table, p) {
        Some(reply) => is_same_reply(&reply, &returned),
        None => false,
    }
}

/// Whether each complete call is in the order with the reply that it returned.
pub(crate) fn all_answered(findings: &Findings, entries: &[Entry], table: &[usize]) -> bool
    requires { IsIndexOf entries.now (length findings.now.events) table.now }
    ensures { IsTrue result ↔ EachIndex findings.now.events (λ p. IsAnswered findings.now.events entries.now p) }
{
    for p in 0..findings.len() {
        if !is_answered(findings, entries, table, p) {
            return false;
        }
    }
    true
}
