//! The judge of witnesses.
// What is known is the events and what was learnt of them, so a clause is longer than 120 columns.

ghost use Rattle.std.specs.Prelude.{◌<◌, ◌≤◌, ◌⊎◌, ℕ, length, IsTrue, All, Option};
ghost use Rattle.events.specs.History.{Precedes};
ghost use Rattle.findings.specs.Findings.{HasNoOrder, IsOverBy, PutsAt};
ghost use Rattle.findings.specs.Shows.{IsNoSource, IsPutOf, NobodyPut, IsShown, Shows, ShowsInvented, ShowsTwice};
ghost use Rattle.findings.specs.Shows.{ShowsPassedOver, IsHeld, IsCovered, ShowsNotEmpty};

use crate::distinct::values_rise;
use crate::facts::Findings;
use crate::known::{is_known, is_learnt, is_over_by, precedes, puts_at, value_of_put};
use crate::lacking::lacks;
use crate::witness::{Lack, Piece, Witness};
use words::{Outcome, Reply, Value};

/// Whether the put cannot stand before the take.
fn is_no_source(findings: &Findings, take: usize, put: usize) -> bool
    ensures { IsTrue result → IsNoSource findings.now.events findings.now.learnt take put }
{
    is_learnt(findings, put, Outcome::NotTaken) || precedes(findings, take, put)
}

/// Whether what stands at `p` cannot have put the value before the take.
fn did_not_put(findings: &Findings, take: usize, value: &Value, p: usize) -> bool
    ensures { IsTrue result → PutsAt findings.now.events p value.now → IsNoSource findings.now.events findings.now.learnt take p }
{
    if puts_at(findings, p, value) {
        return is_no_source(findings, take, p);
    }
    true
}

/// Whether nobody can have put the value before the take.
fn nobody_put(findings: &Findings, take: usize, value: &Value) -> bool
    ensures { IsTrue result → NobodyPut findings.now.events findings.now.learnt take value.now }
{
    for k in 0..findings.len() {
        if !did_not_put(findings, take, value, k) {
            return false;
        }
    }
    true
}

/// Whether a value came out that nobody can have put.
fn shows_invented(findings: &Findings, take: usize, value: Value) -> bool
    ensures { IsTrue result → ShowsInvented findings.now.events findings.now.learnt take value }
{
    if !is_known(findings, take, Reply::Got(value)) {
        return false;
    }
    nobody_put(findings, take, &value)
}

/// Whether a value came out twice.
fn shows_twice(findings: &Findings, first: usize, second: usize, value: Value) -> bool
    ensures { IsTrue result → ShowsTwice findings.now.events findings.now.learnt first second value }
{
    if first == second {
        return false;
    }
    if !is_known(findings, first, Reply::Got(value)) {
        return false;
    }
    is_known(findings, second, Reply::Got(value))
}

/// Whether each put of the lack precedes this one.
fn are_ahead(findings: &Findings, lack: &Lack, put: usize) -> bool
    ensures { IsTrue result → ((p : ℕ) → IsPutOf lack.now p → Precedes findings.now.events p put) }
{
    match lack {
        Lack::Late { put: late, .. } => precedes(findings, *late, put),
        Lack::Few { puts, .. } => puts.iter().all(|p| precedes(findings, *p, put)),
    }
}

/// Whether each put of the lack ended at `t` or before.
fn are_over(findings: &Findings, lack: &Lack, t: usize) -> bool
    ensures { IsTrue result → ((p : ℕ) → IsPutOf lack.now p → IsOverBy findings.now.events p t) }
{
    match lack {
        Lack::Late { put, .. } => is_over_by(findings, *put, t),
        Lack::Few { puts, .. } => puts.iter().all(|p| is_over_by(findings, *p, t)),
    }
}

/// Whether the call at `p` ended at `t` or before, or nothing stands there any more.
fn is_bounded(findings: &Findings, p: usize, t: usize) -> bool
    ensures { IsTrue result → (IsOverBy findings.now.events p t ⊎ (length findings.now.events ≤ t)) }
{
    is_over_by(findings, p, t) || findings.len() <= t
}

/// Whether values were passed over.
fn shows_passed_over(
    findings: &Findings,
    take: usize,
    put: usize,
    bound: usize,
    lack: &Lack,
) -> bool
    ensures { IsTrue result → ShowsPassedOver findings.now.events findings.now.learnt take put bound lack.now }
{
    let Some(value) = value_of_put(findings, put) else {
        return false;
    };
    if !is_known(findings, take, Reply::Got(value)) {
        return false;
    }
    if !is_bounded(findings, take, bound) {
        return false;
    }
    if !are_ahead(findings, lack, put) {
        return false;
    }
    lacks(findings, bound, lack)
}

/// Whether the queue held something all through the piece.
fn is_held(findings: &Findings, piece: &Piece) -> bool
    ensures { IsTrue result → IsHeld findings.now.events findings.now.learnt piece.now }
{
    if !are_over(findings, &piece.lack, piece.from) {
        return false;
    }
    lacks(findings, piece.to, &piece.lack)
}

/// Whether the queue held something all through each of the pieces.
fn are_held(findings: &Findings, pieces: &[Piece]) -> bool
    ensures { IsTrue result → All (λ piece. IsHeld findings.now.events findings.now.learnt piece) pieces.now }
{
    pieces.iter().all(|piece| is_held(findings, piece))
}

/// Whether the pieces cover each place from the one up to the other. They do so in their order.
fn covers(pieces: &[Piece], from: usize, to: usize) -> bool
    ensures { IsTrue result → ((m : ℕ) → from ≤ m → m < to → IsCovered pieces.now m) }
{
    let mut reached = from;
    for i in 0..pieces.len() {
        let piece = &pieces[i];
        if piece.from > reached {
            return false;
        }
        reached = reached.max(piece.to);
    }
    to <= reached
}

/// Whether a take found nothing, though the queue held something all the while.
fn shows_not_empty(findings: &Findings, take: usize, end: usize, pieces: &[Piece]) -> bool
    ensures { IsTrue result → ShowsNotEmpty findings.now.events findings.now.learnt take end pieces.now }
{
    if !is_known(findings, take, Reply::Empty) {
        return false;
    }
    if !is_bounded(findings, take, end) {
        return false;
    }
    if !covers(pieces, take, end) {
        return false;
    }
    are_held(findings, pieces)
}

/// Whether what the witness says is so.
fn is_shown(findings: &Findings, witness: &Witness) -> bool
    ensures { IsTrue result → IsShown findings.now.events findings.now.learnt witness.now }
{
    match witness {
        Witness::Invented { take, value } => shows_invented(findings, *take, *value),
        Witness::Twice {
            first,
            second,
            value,
        } => shows_twice(findings, *first, *second, *value),
        Witness::PassedOver {
            take,
            put,
            bound,
            lack,
        } => shows_passed_over(findings, *take, *put, *bound, lack),
        Witness::NotEmpty { take, end, pieces } => {
            shows_not_empty(findings, *take, *end, pieces)
        }
    }
}

/// Whether the witness shows its pattern: then no order explains what is known. Its time grows with the events, for
/// each piece of the witness, where at most so many calls are open at once. It takes no memory.
pub fn refutes(findings: &Findings, witness: &Witness) -> bool
    ensures shows { IsTrue result → Shows findings.now.events findings.now.learnt witness.now }
    ensures refuted { IsTrue result → HasNoOrder findings.now.events findings.now.learnt }
{
    if !values_rise(findings) {
        return false;
    }
    is_shown(findings, witness)
}
