//! Whether open takes suffice for the values that need one.
// A clause names the calls of the tables that it speaks of, so some are longer than 120 columns.

ghost use Rattle.std.specs.Prelude.{ℕ, ◌≡◌, ◌+◌, ◌<◌, ◌≤◌, ◌↔◌, length, IsTrue, IfSome, IfNone};
ghost use Rattle.windows.specs.Counting.{how_many};
ghost use Rattle.windows.specs.Takes.{IsOverfull, lies_within};
ghost use Rattle.windows.proofs.Facts.{high, low, missing};
ghost use Rattle.deciding.specs.Right.{AreRight, calls_in};

use crate::known::Knows;
use crate::opens::more;
use crate::tables::Tables;

/// Whether a value certainly was put, and is not known to have come out.
pub(crate) fn is_missing(tables: &Tables, put: usize) -> bool
    requires right { AreRight tables.now }
    requires within { put < length tables.now.known.items }
    ensures { result ≡ missing (calls_in tables.now) put }
{
    matches!(tables.known[put], Knows::PutDone) && tables.takes[put] >= tables.known.len()
}

/// Whether the takes of a missing value lie within a range.
fn lies(tables: &Tables, from: usize, to: usize, put: usize) -> bool
    requires right { AreRight tables.now }
    requires within { put < length tables.now.known.items }
    ensures { result ≡ lies_within (missing (calls_in tables.now)) (low (calls_in tables.now))
        (high (calls_in tables.now)) from to put }
{
    is_missing(tables, put) && (from <= tables.lows[put] && tables.highs[put] <= to)
}

/// How many of them do.
fn count_within(tables: &Tables, from: usize, to: usize) -> usize
    requires { AreRight tables.now }
    ensures { result ≡ how_many (lies_within (missing (calls_in tables.now)) (low (calls_in tables.now))
        (high (calls_in tables.now)) from to) (length tables.now.known.items) }
{
    let mut count = 0;
    for put in 0..tables.known.len() {
        count = more(count, lies(tables, from, to, put));
    }
    count
}

/// Whether more of them do than there are takes.
fn is_overfull(tables: &Tables, from: usize, to: usize) -> bool
    requires { AreRight tables.now }
    ensures { IsTrue result ↔ IsOverfull (length tables.now.known.items) (missing (calls_in tables.now))
        (low (calls_in tables.now)) (high (calls_in tables.now)) from to }
{
    to.saturating_sub(from) < count_within(tables, from, to)
}

/// Where a range from here on ends that has more of them than takes; or behind all, if there is none.
#[tactic(auto, using(crate::proofs::Wide::not_wide))]
fn overfull_from(tables: &Tables, from: usize) -> Option<usize>
    requires { AreRight tables.now }
    ensures found { IfSome result (λ to. IsOverfull (length tables.now.known.items) (missing (calls_in tables.now))
        (low (calls_in tables.now)) (high (calls_in tables.now)) from to) }
    ensures none { IfNone result ((to : ℕ) → IsOverfull (length tables.now.known.items)
        (missing (calls_in tables.now)) (low (calls_in tables.now)) (high (calls_in tables.now)) from to → ⊥) }
{
    let all = tables.opens.len() + tables.known.len();
    for to in 0..all {
        if is_overfull(tables, from, to) {
            return Some(to);
        }
    }
    None
}

/// A range that has more of them than takes, if there is one.
pub(crate) fn overfull(tables: &Tables) -> Option<(usize, usize)>
    requires { AreRight tables.now }
    ensures found { IfSome result (λ range. IsOverfull (length tables.now.known.items)
        (missing (calls_in tables.now)) (low (calls_in tables.now)) (high (calls_in tables.now)) range.0 range.1) }
    ensures none { IfNone result ((from to : ℕ) → IsOverfull (length tables.now.known.items)
        (missing (calls_in tables.now)) (low (calls_in tables.now)) (high (calls_in tables.now)) from to → ⊥) }
{
    for from in 0..tables.opens.len() + 1 {
        if let Some(to) = overfull_from(tables, from) {
            return Some((from, to));
        }
    }
    None
}
