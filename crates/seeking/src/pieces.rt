//! What the queue held all the while a take found nothing.

use crate::calls::Calls;
use crate::items::{Item, Reaches, Span};
use crate::matching::{OpenTakes, puts_of, since};
use crate::ranks::{count_below, count_up_to, keys};
use findings::{Lack, Piece, Witness};
use std::alloc::{AllocError, Global};

/// The missing items that are in by a place, by their releases.
fn missing_in(
    alloc: Global,
    items: &[Item],
    place: usize,
) -> Result<Vec<(usize, usize)>, AllocError> {
    let mut missing = Vec::new(alloc);
    for (number, item) in items.iter().enumerate() {
        if !item.is_known && item.put.end <= place {
            missing.push((item.release, number))?;
        }
    }
    missing.sort()?;
    Ok(missing)
}

/// How many of the missing items are in since a place, by their releases.
fn count_since(releases: &[usize], since: Option<usize>) -> usize {
    match since {
        Some(place) => releases.len().saturating_sub(count_up_to(releases, place)),
        None => releases.len(),
    }
}

/// How many takes begun by a place can have taken one since another.
fn takes_since(takes: &OpenTakes, since: Option<usize>, place: usize) -> usize {
    count_up_to(&takes.begins, place).saturating_sub(takes.over_by(since))
}

/// Whether more items are in, at a place, than takes can have taken since another.
fn is_short(releases: &[usize], takes: &OpenTakes, since: Option<usize>, place: usize) -> bool {
    count_since(releases, since) > takes_since(takes, since, place)
}

/// The place since which there are too few takes: none, or a crash.
fn short_since(
    releases: &[usize],
    takes: &OpenTakes,
    crashes: &[usize],
    place: usize,
) -> Option<Option<usize>> {
    if is_short(releases, takes, None, place) {
        return Some(None);
    }
    for crash in crashes {
        if *crash <= place && is_short(releases, takes, Some(*crash), place) {
            return Some(Some(*crash));
        }
    }
    None
}

/// The first of the missing items that are in since a place, as many as it takes, by the puts.
fn chosen(
    alloc: Global,
    missing: &[(usize, usize)],
    since: Option<usize>,
    count: usize,
) -> Result<Vec<usize>, AllocError> {
    let mut numbers = Vec::new(alloc);
    for pair in missing {
        if since.map_or(true, |place| pair.0 > place) {
            numbers.push(pair.1)?;
        }
    }
    numbers.sort()?;
    numbers.truncate(count);
    Ok(numbers)
}

/// A piece that missing values hold, from a place on.
fn missing_piece(
    alloc: Global,
    items: &[Item],
    takes: &OpenTakes,
    crashes: &[usize],
    span: Span,
) -> Result<Option<Piece>, AllocError> {
    let missing = missing_in(alloc, items, span.begin)?;
    let releases = keys(alloc, &missing)?;
    let Some(place) = short_since(&releases, takes, crashes, span.begin) else {
        return Ok(None);
    };
    let over = takes.over_by(place);
    let begun = count_below(&takes.begins, span.end).saturating_sub(over);
    let numbers = chosen(alloc, &missing, place, begun.saturating_add(1))?;
    let next = over.saturating_add(numbers.len()).saturating_sub(1);
    let to = match takes.begins.get(next) {
        Some(begin) => (*begin).min(span.end),
        None => span.end,
    };
    let lack = Lack::Few {
        puts: puts_of(alloc, items, &numbers)?,
        takes: takes.between(alloc, place, to)?,
        since: since(items, &numbers, place),
    };
    Ok(Some(Piece {
        from: span.begin,
        to,
        lack,
    }))
}

/// A piece that a known value holds, from a place on.
fn known_piece(items: &[Item], reaches: &Reaches, span: Span) -> Option<Piece> {
    let item = items.get(reaches.furthest_by(span.begin))?;
    let until = item.take?.begin.max(item.put.begin);
    if until <= span.begin {
        return None;
    }
    let ahead = item.ahead();
    Some(Piece {
        from: span.begin,
        to: until.min(span.end),
        lack: Lack::Late {
            put: ahead.put,
            take: ahead.take,
        },
    })
}

/// The witness of a take that found nothing while the queue held something.
pub(crate) fn held(
    alloc: Global,
    calls: &Calls,
    items: &[Item],
    takes: &OpenTakes,
    reaches: &Reaches,
    empty: Span,
) -> Result<Option<Witness>, AllocError> {
    let mut pieces = Vec::new(alloc);
    let mut from = empty.begin;
    for _ in 0..calls.places {
        if from >= empty.end {
            break;
        }
        let span = Span {
            begin: from,
            end: empty.end,
        };
        let piece = match known_piece(items, reaches, span) {
            Some(piece) => Some(piece),
            None => missing_piece(alloc, items, takes, &calls.crashes, span)?,
        };
        let Some(piece) = piece else {
            return Ok(None);
        };
        if piece.to <= from {
            return Ok(None);
        }
        from = piece.to;
        pieces.push(piece)?;
    }
    Ok(Some(Witness::NotEmpty {
        take: empty.begin,
        end: empty.end,
        pieces,
    }))
}
