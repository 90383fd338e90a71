//! A moment for each take that found nothing.

use crate::calls::{Calls, Known, NEVER};
use crate::items::{Item, Span};
use crate::matching::OpenTakes;
use crate::ranks::{at, copies, count_below, set};
use std::alloc::{AllocError, Global};
use words::Reply;

/// What changes at a place: how many values cover it, how many missing ones are in it, and how many of those are still
/// held behind a known one.
#[derive(Drop)]
struct Changes {
    cover: Vec<i64>,
    missing: Vec<i64>,
    held: Vec<i64>,
}

fn zeros(alloc: Global, count: usize) -> Result<Vec<i64>, AllocError> {
    let mut numbers = Vec::with_capacity(alloc, count)?;
    for _ in 0..count {
        numbers.push(0i64)?;
    }
    Ok(numbers)
}

fn change(numbers: &mut Vec<i64>, place: usize, by: i64) {
    if let Some(number) = numbers.get_mut(place) {
        *number = number.wrapping_add(by);
    }
}

fn read(numbers: &[i64], place: usize) -> i64 {
    numbers.get(place).copied().unwrap_or(0)
}

fn changes_at(
    alloc: Global,
    count: usize,
    items: &[Item],
    takes: &OpenTakes,
) -> Result<Changes, AllocError> {
    let mut changes = Changes {
        cover: zeros(alloc, count)?,
        missing: zeros(alloc, count)?,
        held: zeros(alloc, count)?,
    };
    for item in items {
        if item.is_known {
            if item.in_by() < item.out_from() {
                change(&mut changes.cover, item.in_by(), 1);
                change(&mut changes.cover, item.out_from(), -1);
            }
        } else {
            change(&mut changes.missing, item.put.end, 1);
            if item.release > item.put.end {
                change(&mut changes.held, item.put.end, 1);
                change(&mut changes.held, item.release, -1);
            }
        }
    }
    for begin in &takes.begins {
        change(&mut changes.missing, *begin, -1);
    }
    Ok(changes)
}

/// For each place the next one from it on where the queue can have been empty, and NEVER where there is none.
fn next_clear(
    alloc: Global,
    calls: &Calls,
    items: &[Item],
    takes: &OpenTakes,
) -> Result<Vec<usize>, AllocError> {
    let changes = changes_at(alloc, calls.places, items, takes)?;
    let mut cover = 0i64;
    let mut debt = 0i64;
    let mut held = 0i64;
    let mut clear = copies(alloc, NEVER, calls.places)?;
    let mut crashed = 0usize;
    for place in 0..calls.places {
        cover = cover.wrapping_add(read(&changes.cover, place));
        debt = debt.wrapping_add(read(&changes.missing, place));
        held = held.wrapping_add(read(&changes.held, place));
        if calls.crashes.get(crashed).copied() == Some(place) {
            crashed = crashed.wrapping_add(1);
            debt = debt.max(held);
        }
        if cover == 0 && debt <= 0 {
            set(&mut clear, place, place);
        }
    }
    let mut next = NEVER;
    for place in (0..calls.places).rev() {
        next = next.min(at(&clear, place));
        if at(&clear, place) == place {
            next = place;
        }
        set(&mut clear, place, next);
    }
    Ok(clear)
}

/// What came of the takes that found nothing: the moment of each with its place, by moments; or one that has none.
#[derive(Drop)]
pub(crate) enum Moments {
    All(Vec<(usize, usize)>),
    None(Span),
}

pub(crate) fn find_moments(
    alloc: Global,
    calls: &Calls,
    items: &[Item],
    takes: &OpenTakes,
) -> Result<Moments, AllocError> {
    let clear = next_clear(alloc, calls, items, takes)?;
    let mut moments = Vec::new(alloc);
    for call in &calls.calls {
        if call.known == Known::Taken(Reply::Empty) {
            let moment = clear.get(call.begin).copied().unwrap_or(NEVER);
            if moment == NEVER || moment >= call.end {
                return Ok(Moments::None(Span {
                    begin: call.begin,
                    end: call.end.min(calls.places),
                }));
            }
            moments.push((moment, call.begin))?;
        }
    }
    moments.sort()?;
    Ok(Moments::All(moments))
}

/// Each missing item has to be out by the first moment at which it is in.
pub(crate) fn limit_by_moments(items: &mut Vec<Item>, moments: &[usize]) {
    for number in 0..items.len() {
        let Some(item) = items.get(number).copied() else {
            break;
        };
        if item.is_known {
            continue;
        }
        let first = count_below(moments, item.put.end);
        let Some(moment) = moments.get(first).copied() else {
            continue;
        };
        if moment < item.limit {
            if let Some(item) = items.get_mut(number) {
                item.limit = moment.saturating_add(1);
                item.limiter = NEVER;
            }
        }
    }
}
