//! What is wrong with calls of which each has a take.
// A clause names the calls of the tables that it speaks of, so some are longer than 120 columns.

ghost use Rattle.std.specs.Prelude.{ℕ, ◌≡◌, ◌<◌, ◌↔◌, length, IsTrue};
ghost use Rattle.deciding.specs.Bad.{DoCross, IsBadSource, IsBadTake, IsNeverEmpty};
ghost use Rattle.deciding.specs.Right.{AreRight, calls_in};

use crate::bounds::end_of;
use crate::empties::clear_within;
use crate::known::Knows;
use crate::tables::Tables;

/// Whether the put cannot stand before the take that got its value, or another take got it.
fn is_bad_source(tables: &Tables, take: usize, put: usize) -> bool
    requires right { AreRight tables.now }
    requires take { take < length tables.now.known.items }
    requires put { put < length tables.now.known.items }
    ensures { IsTrue result ↔ IsBadSource (calls_in tables.now) take put }
{
    matches!(tables.known[put], Knows::PutNot)
        || (tables.ends[take] < put || tables.takes[put] != take)
}

/// Whether it is so of a take.
fn is_bad_take(tables: &Tables, take: usize) -> bool
    requires right { AreRight tables.now }
    requires within { take < length tables.now.known.items }
    ensures { IsTrue result ↔ IsBadTake (calls_in tables.now) take }
{
    match tables.known[take] {
        Knows::Took(put) => is_bad_source(tables, take, put),
        _ => false,
    }
}

/// Whether it is so of some take.
pub(crate) fn any_bad_take(tables: &Tables) -> bool
    requires { AreRight tables.now }
    ensures { IsTrue result ↔ ((take : ℕ) × ((take < length tables.now.known.items)
        × IsBadTake (calls_in tables.now) take)) }
{
    for take in 0..tables.known.len() {
        if is_bad_take(tables, take) {
            return true;
        }
    }
    false
}

/// Whether a value was put behind another one, and came out before it.
fn do_cross(tables: &Tables, ahead: usize, behind: usize) -> bool
    requires right { AreRight tables.now }
    requires ahead { ahead < length tables.now.known.items }
    requires behind { behind < length tables.now.known.items }
    ensures { IsTrue result ↔ DoCross (calls_in tables.now) ahead behind }
{
    let known = tables.known.len();
    let end = end_of(&tables.ends, tables.takes[behind], known);
    let both = tables.takes[ahead] < known && tables.takes[behind] < known;
    both && (tables.ends[ahead] < behind && end < tables.takes[ahead])
}

/// Whether it is so of some value behind this one.
fn any_crosses(tables: &Tables, ahead: usize) -> bool
    requires right { AreRight tables.now }
    requires within { ahead < length tables.now.known.items }
    ensures { IsTrue result ↔ ((behind : ℕ) × ((behind < length tables.now.known.items)
        × DoCross (calls_in tables.now) ahead behind)) }
{
    for behind in 0..tables.known.len() {
        if do_cross(tables, ahead, behind) {
            return true;
        }
    }
    false
}

/// Whether it is so of some two values.
pub(crate) fn any_two_cross(tables: &Tables) -> bool
    requires { AreRight tables.now }
    ensures { IsTrue result ↔ ((ahead : ℕ) × ((ahead < length tables.now.known.items)
        × ((behind : ℕ) × ((behind < length tables.now.known.items) × DoCross (calls_in tables.now) ahead behind)))) }
{
    for ahead in 0..tables.known.len() {
        if any_crosses(tables, ahead) {
            return true;
        }
    }
    false
}

/// Whether a take found nothing, and the queue can nowhere have been empty meanwhile.
fn is_never_empty(tables: &Tables, take: usize) -> bool
    requires right { AreRight tables.now }
    requires within { take < length tables.now.known.items }
    ensures { IsTrue result ↔ IsNeverEmpty (calls_in tables.now) take }
{
    match tables.known[take] {
        Knows::FoundNothing => clear_within(tables, take, tables.ends[take]).is_none(),
        _ => false,
    }
}

/// Whether it is so of some take.
pub(crate) fn any_never_empty(tables: &Tables) -> bool
    requires { AreRight tables.now }
    ensures { IsTrue result ↔ ((take : ℕ) × ((take < length tables.now.known.items)
        × IsNeverEmpty (calls_in tables.now) take)) }
{
    for take in 0..tables.known.len() {
        if is_never_empty(tables, take) {
            return true;
        }
    }
    false
}
