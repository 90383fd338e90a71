//! From where and until where values can be taken.

ghost use Rattle.std.specs.Prelude.{◌≡◌, ◌<◌, ◌≤◌, ◌⊎◌, ◌↔◌, length, slice_index_or, IfOk, IsTrue};
ghost use Rattle.windows.specs.Calls.{AreCalls};
ghost use Rattle.windows.proofs.Facts.{limit, release, take_of};
ghost use Rattle.deciding.specs.Table.{calls_by};
ghost use Rattle.deciding.specs.Tables.{AreLimits, AreReleases, AreTakes};

use crate::known::Knows;
use std::alloc::{AllocError, Global};

/// The place, or the take of a value that was put before, if that is later.
fn later(from: usize, applies: bool, take: usize) -> usize
    ensures own { from ≤ result }
    ensures each { IsTrue applies → take ≤ result }
    ensures how { (result ≡ from) ⊎ (IsTrue applies × (result ≡ take)) }
{
    if applies && take > from { take } else { from }
}

/// From where the value of a put can be taken on.
#[tactic(auto, using(crate::proofs::Releases::release_all))]
fn release_of(known: &[Knows], ends: &[usize], takes: &[usize], put: usize) -> usize
    requires long { length ends.now ≡ length known.now }
    requires calls { AreCalls (calls_by known.now ends.now) }
    requires takes { AreTakes (calls_by known.now ends.now) takes.now }
    ensures { result ≡ release (calls_by known.now ends.now) put }
{
    let mut from = put;
    for other in 0..known.len() {
        let applies = takes[other] < known.len() && ends[other] < put;
        from = later(from, applies, takes[other]);
    }
    from
}

/// The same of each place.
pub(crate) fn releases_of(
    alloc: Global,
    known: &[Knows],
    ends: &[usize],
    takes: &[usize],
) -> Result<Vec<usize>, AllocError>
    requires long { length ends.now ≡ length known.now }
    requires calls { AreCalls (calls_by known.now ends.now) }
    requires takes { AreTakes (calls_by known.now ends.now) takes.now }
    ensures { IfOk result (λ releases. AreReleases (calls_by known.now ends.now) releases.items) }
{
    let mut releases = Vec::with_capacity(alloc, known.len())?;
    for put in 0..known.len() {
        releases.push(release_of(known, ends, takes, put))?;
    }
    Ok(releases)
}

/// The limit so far, or the end of a take of a value that was put behind, if that is earlier.
fn sooner(limit: usize, applies: bool, end: usize) -> usize
    ensures own { result ≤ limit }
    ensures each { IsTrue applies → result ≤ end }
    ensures how { (result ≡ limit) ⊎ (IsTrue applies × (result ≡ end)) }
{
    if applies && end < limit { end } else { limit }
}

/// Where a call ends, and behind all past the last place.
pub(crate) fn end_of(ends: &[usize], place: usize, places: usize) -> usize
    ensures { result ≡ slice_index_or ends.now place places }
{
    ends.get(place).copied().unwrap_or(places)
}

/// Whether a value came out, and was put behind the other one.
fn is_behind(known: &[Knows], ends: &[usize], takes: &[usize], put: usize, other: usize) -> bool
    requires long { length ends.now ≡ length known.now }
    requires takes { AreTakes (calls_by known.now ends.now) takes.now }
    requires within { (put < length known.now) × (other < length known.now) }
    ensures { IsTrue result ↔ ((take_of (calls_by known.now ends.now) other < length known.now)
        × ((calls_by known.now ends.now).end put < other)) }
{
    takes[other] < known.len() && ends[put] < other
}

/// Until where the value of a put can be taken: one more than there are places, if nothing asks for it.
#[tactic(auto, using(crate::proofs::Limits::limit_more, crate::proofs::Limits::limit_all, crate::proofs::Limits::limit_none))]
fn limit_of(known: &[Knows], ends: &[usize], takes: &[usize], put: usize) -> usize
    requires long { length ends.now ≡ length known.now }
    requires calls { AreCalls (calls_by known.now ends.now) }
    requires takes { AreTakes (calls_by known.now ends.now) takes.now }
    requires within { put < length known.now }
    ensures { result ≡ limit (calls_by known.now ends.now) put }
{
    let mut limit = known.len() + 1;
    for other in 0..known.len() {
        let applies = is_behind(known, ends, takes, put, other);
        let end = end_of(ends, takes[other], known.len());
        limit = sooner(limit, applies, end);
    }
    limit
}

/// The same of each place.
pub(crate) fn limits_of(
    alloc: Global,
    known: &[Knows],
    ends: &[usize],
    takes: &[usize],
) -> Result<Vec<usize>, AllocError>
    requires long { length ends.now ≡ length known.now }
    requires calls { AreCalls (calls_by known.now ends.now) }
    requires takes { AreTakes (calls_by known.now ends.now) takes.now }
    ensures { IfOk result (λ limits. AreLimits (calls_by known.now ends.now) limits.items) }
{
    let mut limits = Vec::with_capacity(alloc, known.len())?;
    for put in 0..known.len() {
        limits.push(limit_of(known, ends, takes, put))?;
    }
    Ok(limits)
}
