//! Whether the queue can have been empty at a place.
// A clause names the calls of the tables that it speaks of, so some are longer than 120 columns.

ghost use Rattle.std.specs.Prelude.{ℕ, ◌≡◌, ◌+◌, ◌<◌, ◌≤◌, ◌↔◌, length, IsTrue, IfSome, IfNone};
ghost use Rattle.windows.specs.Counting.{how_many};
ghost use Rattle.windows.specs.Moments.{IsCrowded, crowds};
ghost use Rattle.windows.proofs.Facts.{IsClear, IsOut, begun_by, low, missing, take_of};
ghost use Rattle.deciding.specs.Covered.{IsCovered};
ghost use Rattle.deciding.specs.Right.{AreRight, calls_in};

use crate::opens::{count_begun, more};
use crate::ranges::is_missing;
use crate::tables::Tables;

/// Whether a value that came out was in the queue at a place.
fn covers(tables: &Tables, put: usize, place: usize) -> bool
    requires right { AreRight tables.now }
    requires within { put < length tables.now.known.items }
    ensures { IsTrue result ↔ IsCovered (calls_in tables.now) put place }
{
    tables.takes[put] < tables.known.len()
        && (tables.ends[put] <= place && place < tables.takes[put])
}

/// Whether one was.
fn is_covered(tables: &Tables, place: usize) -> bool
    requires { AreRight tables.now }
    ensures { IsTrue result ↔ ((put : ℕ) × ((put < length tables.now.known.items)
        × IsCovered (calls_in tables.now) put place)) }
{
    for put in 0..tables.known.len() {
        if covers(tables, put, place) {
            return true;
        }
    }
    false
}

/// Whether a missing value was in by a place, and has no takes but those from a number on.
fn is_in(tables: &Tables, from: usize, place: usize, put: usize) -> bool
    requires right { AreRight tables.now }
    requires within { put < length tables.now.known.items }
    ensures { result ≡ crowds (missing (calls_in tables.now)) (low (calls_in tables.now)) (calls_in tables.now).end
        from place put }
{
    is_missing(tables, put) && (from <= tables.lows[put] && tables.ends[put] <= place)
}

/// How many of them were.
fn count_in(tables: &Tables, from: usize, place: usize) -> usize
    requires { AreRight tables.now }
    ensures { result ≡ how_many (crowds (missing (calls_in tables.now)) (low (calls_in tables.now))
        (calls_in tables.now).end from place) (length tables.now.known.items) }
{
    let mut count = 0;
    for put in 0..tables.known.len() {
        count = more(count, is_in(tables, from, place, put));
    }
    count
}

/// Whether more of them were than takes had begun.
fn is_crowded(tables: &Tables, from: usize, place: usize) -> bool
    requires right { AreRight tables.now }
    requires within { place < length tables.now.known.items }
    ensures { IsTrue result ↔ IsCrowded (length tables.now.known.items) (missing (calls_in tables.now))
        (low (calls_in tables.now)) (calls_in tables.now).end (begun_by (calls_in tables.now)) from place }
{
    let begun = count_begun(&tables.known, &tables.ends, &tables.opens, place + 1);
    begun.saturating_sub(from) < count_in(tables, from, place)
}

/// Whether it is so for some takes from a number on.
fn any_crowded(tables: &Tables, place: usize) -> bool
    requires right { AreRight tables.now }
    requires within { place < length tables.now.known.items }
    ensures { IsTrue result ↔ ((from : ℕ) × ((from < length tables.now.opens.items + 1)
        × IsCrowded (length tables.now.known.items) (missing (calls_in tables.now)) (low (calls_in tables.now))
        (calls_in tables.now).end (begun_by (calls_in tables.now)) from place)) }
{
    for from in 0..tables.opens.len() + 1 {
        if is_crowded(tables, from, place) {
            return true;
        }
    }
    false
}

/// Whether the queue can have been empty at a place.
fn is_clear(tables: &Tables, place: usize) -> bool
    requires right { AreRight tables.now }
    requires within { place < length tables.now.known.items }
    ensures { IsTrue result ↔ IsClear (calls_in tables.now) place }
{
    !is_covered(tables, place) && !any_crowded(tables, place)
}

/// The first such place from one on and before another, if there is one.
pub(crate) fn clear_within(tables: &Tables, from: usize, to: usize) -> Option<usize>
    requires right { AreRight tables.now }
    requires within { to ≤ length tables.now.known.items }
    ensures found { IfSome result (λ place. (from ≤ place) × ((place < to) × IsClear (calls_in tables.now) place)) }
    ensures none { IfNone result ((place : ℕ) → from ≤ place → place < to → IsClear (calls_in tables.now) place → ⊥) }
{
    for place in from..to {
        if is_clear(tables, place) {
            return Some(place);
        }
    }
    None
}
