//! The open takes, and which of them fit a value.
// A clause names the calls of the tables that it speaks of, so some are longer than 120 columns.

ghost use Rattle.std.specs.Prelude.{◌≡◌, ◌+◌, ◌-◌, ◌<◌, length, nat_le, nat_lt, if◌then◌else◌, slice_index_or, IfOk};
ghost use Rattle.windows.specs.Calls.{AreCalls};
ghost use Rattle.windows.specs.Takes.{begun_before, over_by};
ghost use Rattle.windows.proofs.Facts.{begin_of, end_of, high, limit, low, open_at, open_count, release};
ghost use Rattle.deciding.specs.Table.{calls_by};
ghost use Rattle.deciding.specs.Tables.{AreHighs, AreLimits, AreLows, AreOpens, AreReleases};

use crate::bounds::end_of;
use crate::known::Knows;
use std::alloc::{AllocError, Global};

/// Whether it is an open take.
fn is_open(known: &[Knows], ends: &[usize], place: usize) -> bool
    requires { place < length known.now }
    ensures { result ≡ open_at (calls_by known.now ends.now) place }
{
    matches!(known[place], Knows::TakeOpen)
}

/// The open takes.
#[tactic(auto, using(crate::proofs::Listing::opens_none, crate::proofs::Listing::opens_more, crate::proofs::Listing::opens_same, crate::proofs::Listing::opens_all))]
pub(crate) fn opens_of(
    alloc: Global,
    known: &[Knows],
    ends: &[usize],
) -> Result<Vec<usize>, AllocError>
    ensures { IfOk result (λ opens. AreOpens (calls_by known.now ends.now) opens.items) }
{
    let mut opens = Vec::new(alloc);
    for place in 0..known.len() {
        if is_open(known, ends, place) {
            opens.push(place)?;
        }
    }
    Ok(opens)
}

/// One more, if so.
pub(crate) fn more(count: usize, yes: bool) -> usize
    requires { count < 18446744073709551615 }
    ensures { result ≡ count + (if yes then 1 else 0) }
{
    if yes { count + 1 } else { count }
}

/// Whether an open take is over by a place.
fn is_over(known: &[Knows], ends: &[usize], opens: &[usize], number: usize, place: usize) -> bool
    requires opens { AreOpens (calls_by known.now ends.now) opens.now }
    requires within { number < length opens.now }
    ensures { result ≡ nat_le (end_of (calls_by known.now ends.now) number) place }
{
    end_of(ends, opens[number], known.len()) <= place
}

/// How many are.
fn count_over(known: &[Knows], ends: &[usize], opens: &[usize], place: usize) -> usize
    requires { AreOpens (calls_by known.now ends.now) opens.now }
    ensures { result ≡ over_by (open_count (calls_by known.now ends.now)) (end_of (calls_by known.now ends.now)) place }
{
    let mut count = 0;
    for number in 0..opens.len() {
        count = more(count, is_over(known, ends, opens, number, place));
    }
    count
}

/// Whether an open take began before a place.
fn has_begun(known: &[Knows], ends: &[usize], opens: &[usize], number: usize, place: usize) -> bool
    requires opens { AreOpens (calls_by known.now ends.now) opens.now }
    requires within { number < length opens.now }
    ensures { result ≡ nat_lt (begin_of (calls_by known.now ends.now) number) place }
{
    opens[number] < place
}

/// How many did.
pub(crate) fn count_begun(known: &[Knows], ends: &[usize], opens: &[usize], place: usize) -> usize
    requires { AreOpens (calls_by known.now ends.now) opens.now }
    ensures { result ≡ begun_before (open_count (calls_by known.now ends.now)) (begin_of (calls_by known.now ends.now)) place }
{
    let mut count = 0;
    for number in 0..opens.len() {
        count = more(count, has_begun(known, ends, opens, number, place));
    }
    count
}

/// For each value the first open take that does not end too early.
pub(crate) fn lows_of(
    alloc: Global,
    known: &[Knows],
    ends: &[usize],
    opens: &[usize],
    releases: &[usize],
) -> Result<Vec<usize>, AllocError>
    requires opens { AreOpens (calls_by known.now ends.now) opens.now }
    requires releases { AreReleases (calls_by known.now ends.now) releases.now }
    ensures { IfOk result (λ lows. AreLows (calls_by known.now ends.now) lows.items) }
{
    let mut lows = Vec::with_capacity(alloc, known.len())?;
    for put in 0..known.len() {
        let low = count_over(known, ends, opens, releases[put].saturating_sub(1));
        lows.push(low)?;
    }
    Ok(lows)
}

/// Behind the last open take that begins early enough; or behind all, with room to spare, where there is no limit.
fn high_of(known: &[Knows], ends: &[usize], opens: &[usize], limits: &[usize], put: usize) -> usize
    requires opens { AreOpens (calls_by known.now ends.now) opens.now }
    requires limits { AreLimits (calls_by known.now ends.now) limits.now }
    requires within { put < length known.now }
    ensures { result ≡ high (calls_by known.now ends.now) put }
{
    if limits[put] <= known.len() {
        count_begun(known, ends, opens, limits[put])
    } else {
        opens.len() + known.len()
    }
}

/// The same of each place.
pub(crate) fn highs_of(
    alloc: Global,
    known: &[Knows],
    ends: &[usize],
    opens: &[usize],
    limits: &[usize],
) -> Result<Vec<usize>, AllocError>
    requires opens { AreOpens (calls_by known.now ends.now) opens.now }
    requires limits { AreLimits (calls_by known.now ends.now) limits.now }
    ensures { IfOk result (λ highs. AreHighs (calls_by known.now ends.now) highs.items) }
{
    let mut highs = Vec::with_capacity(alloc, known.len())?;
    for put in 0..known.len() {
        highs.push(high_of(known, ends, opens, limits, put))?;
    }
    Ok(highs)
}
