//! Open takes for the missing values that have to be out by some place.

use crate::calls::{Known, KnownCall, NEVER};
use crate::items::{Item, Span};
use crate::ranks::{at, copies, count_below, count_up_to, set};
use findings::{Ahead, Lack, Since, Witness};
use std::alloc::{AllocError, Global};
use std::collections::BinaryHeap;
use words::Call;

/// The open takes, in the order in which they begin, which is that in which they end.
#[derive(Drop)]
pub(crate) struct OpenTakes {
    pub begins: Vec<usize>,
    pub ends: Vec<usize>,
}

impl OpenTakes {
    pub(crate) fn span(&self, number: usize) -> Span {
        Span {
            begin: at(&self.begins, number),
            end: at(&self.ends, number),
        }
    }

    /// How many were over by a place.
    pub(crate) fn over_by(&self, since: Option<usize>) -> usize {
        match since {
            Some(place) => count_up_to(&self.ends, place),
            None => 0,
        }
    }

    /// Those that began before a place and were not over by another one.
    pub(crate) fn between(
        &self,
        alloc: Global,
        since: Option<usize>,
        bound: usize,
    ) -> Result<Vec<usize>, AllocError> {
        let mut takes = Vec::new(alloc);
        for number in self.over_by(since)..count_below(&self.begins, bound) {
            takes.push(at(&self.begins, number))?;
        }
        Ok(takes)
    }
}

pub(crate) fn open_takes(alloc: Global, calls: &[KnownCall]) -> Result<OpenTakes, AllocError> {
    let mut begins = Vec::new(alloc);
    let mut ends = Vec::new(alloc);
    for call in calls {
        if call.call == Call::Deq && call.known == Known::Open {
            begins.push(call.begin)?;
            ends.push(call.end)?;
        }
    }
    Ok(OpenTakes { begins, ends })
}

/// Missing items that need a take: each may have one of a range of the open takes.
#[derive(Clone, Copy)]
struct Need {
    item: usize,
    low: usize,
    high: usize,
}

/// What came of the matching.
#[derive(Drop)]
pub(crate) enum Matched {
    /// Each missing item that needs a take has one.
    All,
    /// These items need more takes than there are, those before this one not counted.
    Short { items: Vec<usize>, first: usize },
}

/// The ranges of the missing items that have a limit, in the order in which they begin.
fn needs(
    alloc: Global,
    items: &[Item],
    takes: &OpenTakes,
) -> Result<Vec<(usize, usize, usize)>, AllocError> {
    let mut needs = Vec::new(alloc);
    for (number, item) in items.iter().enumerate() {
        if item.take.is_none() && item.limit != NEVER {
            let low = count_up_to(&takes.ends, item.release);
            let high = count_below(&takes.begins, item.limit);
            needs.push((low, number, high))?;
        }
    }
    needs.sort()?;
    Ok(needs)
}

/// The items that have the takes of a range which is too short, and where it begins.
fn short(
    alloc: Global,
    needs: &[(usize, usize, usize)],
    owners: &[usize],
    lone: Need,
) -> Result<Matched, AllocError> {
    let mut first = lone.low;
    let mut items = Vec::new(alloc);
    items.push(lone.item)?;
    for number in (0..lone.high.min(owners.len())).rev() {
        if number < first {
            break;
        }
        let Some(need) = needs.get(at(owners, number)) else {
            break;
        };
        first = first.min(need.0);
        items.push(need.1)?;
    }
    items.sort()?;
    Ok(Matched::Short {
        items,
        first: first.min(lone.high),
    })
}

/// Gives the takes to the items, of those that can have one to that whose range ends first.
pub(crate) fn match_up(
    alloc: Global,
    items: &mut Vec<Item>,
    takes: &OpenTakes,
) -> Result<Matched, AllocError> {
    let needs = needs(alloc, items.as_slice(), takes)?;
    let count = takes.begins.len();
    let mut owners = copies(alloc, NEVER, count)?;
    let mut waiting: BinaryHeap<(usize, usize)> = BinaryHeap::new(alloc);
    let mut next = 0usize;
    for number in 0..count.saturating_add(1) {
        for coming in next..needs.len() {
            let need = needs[coming];
            if need.0 > number && number < count {
                break;
            }
            next = coming.wrapping_add(1);
            waiting.push((usize::MAX - need.2, usize::MAX - coming))?;
        }
        let Some(first) = waiting.pop() else {
            continue;
        };
        let owner = usize::MAX - first.1;
        let high = usize::MAX - first.0;
        let need = needs.get(owner).copied().unwrap_or((0, 0, 0));
        if high <= number {
            let lone = Need {
                item: need.1,
                low: need.0,
                high,
            };
            return short(alloc, &needs, &owners, lone);
        }
        set(&mut owners, number, owner);
        if let Some(item) = items.get_mut(need.1) {
            item.take = Some(takes.span(number));
        }
    }
    Ok(Matched::All)
}

/// Takes the takes away again that were given.
pub(crate) fn unmatch(items: &mut Vec<Item>) {
    for item in items.iter_mut() {
        if !item.is_known {
            item.take = None;
        }
    }
}

/// The place since which the values of these items were in the queue, or not yet in it.
pub(crate) fn since(items: &[Item], numbers: &[usize], place: Option<usize>) -> Option<Since> {
    let place = place?;
    let first = items.get(at(numbers, 0))?;
    let ahead: Option<Ahead> = if place < first.put.begin {
        None
    } else {
        items.get(first.releaser).map(|ahead| ahead.ahead())
    };
    Some(Since { place, ahead })
}

/// Where the puts of these items began.
pub(crate) fn puts_of(
    alloc: Global,
    items: &[Item],
    numbers: &[usize],
) -> Result<Vec<usize>, AllocError> {
    let mut puts = Vec::with_capacity(alloc, numbers.len())?;
    for number in numbers {
        if let Some(item) = items.get(*number) {
            puts.push(item.put.begin)?;
        }
    }
    Ok(puts)
}

/// Of these items the one that is in last.
fn last_in(items: &[Item], numbers: &[usize]) -> Option<Item> {
    let mut last: Option<Item> = None;
    for number in numbers {
        let item = items.get(*number).copied()?;
        last = match last {
            Some(other) if other.in_by() >= item.in_by() => Some(other),
            _ => Some(item),
        };
    }
    last
}

/// The witness of items that need more takes than there are.
pub(crate) fn short_witness(
    alloc: Global,
    items: &[Item],
    takes: &OpenTakes,
    short: &[usize],
    first: usize,
) -> Result<Option<Witness>, AllocError> {
    let place = if first == 0 {
        None
    } else {
        Some(at(&takes.ends, first.wrapping_sub(1)))
    };
    let Some(last) = last_in(items, short) else {
        return Ok(None);
    };
    let Some(limiter) = items.get(last.limiter).copied() else {
        return Ok(None);
    };
    let ahead = limiter.ahead();
    let lack = Lack::Few {
        puts: puts_of(alloc, items, short)?,
        takes: takes.between(alloc, place, limiter.out_by())?,
        since: since(items, short, place),
    };
    Ok(Some(Witness::PassedOver {
        take: ahead.take,
        put: ahead.put,
        bound: limiter.out_by(),
        lack,
    }))
}
