//! The values of a history: when each was put, and when it was taken.

use crate::calls::{Known, KnownCall, NEVER};
use crate::ranks::{at, copies, count_below, keys, set};
use findings::{Ahead, Lack, Witness, rank_of};
use std::alloc::{AllocError, Global};
use words::{Call, Reply, Value};

/// From one place to another.
#[derive(Clone, Copy)]
pub(crate) struct Span {
    pub begin: usize,
    pub end: usize,
}

/// A value that certainly was put: its put, and its take if it is known to have come out, or given one.
#[derive(Clone, Copy)]
pub(crate) struct Item {
    pub value: Value,
    pub put: Span,
    pub take: Option<Span>,
    /// It is known to have come out.
    pub is_known: bool,
    /// The take that it has got this value before comes from the item of this number, and ends here.
    pub limit: usize,
    pub limiter: usize,
    /// It is in the queue, or not yet in it, up to here, because of the item of this number.
    pub release: usize,
    pub releaser: usize,
}

impl Item {
    /// Where its take ends, at the latest.
    pub(crate) fn out_by(&self) -> usize {
        match self.take {
            Some(take) => take.end,
            None => NEVER,
        }
    }

    /// From where it can be taken.
    pub(crate) fn out_from(&self) -> usize {
        match self.take {
            Some(take) => take.begin.max(self.put.begin).max(self.release),
            None => NEVER,
        }
    }

    /// Where it is in, at the latest.
    pub(crate) fn in_by(&self) -> usize {
        self.put.end.min(self.out_by())
    }

    /// Its put and its take.
    pub(crate) fn ahead(&self) -> Ahead {
        Ahead {
            put: self.put.begin,
            take: match self.take {
                Some(take) => take.begin,
                None => NEVER,
            },
        }
    }
}

/// What came of the first look.
#[derive(Drop)]
pub(crate) enum Paired {
    Items(Vec<Item>),
    Bad(Witness),
}

/// The place of a value in a table by values: its number.
fn place_of(value: Value) -> usize {
    rank_of(value) as usize
}

/// One more than the greatest number of a value that is put.
fn value_count(calls: &[KnownCall]) -> usize {
    let mut count = 0usize;
    for call in calls {
        if let Call::Enq(value) = call.call {
            count = count.max(place_of(value).saturating_add(1));
        }
    }
    count
}

/// For each value, one more than the number of the call that puts it, and 0 where none does.
fn puts_by_value(alloc: Global, calls: &[KnownCall]) -> Result<Vec<usize>, AllocError> {
    let mut puts = copies(alloc, 0, value_count(calls))?;
    for (number, call) in calls.iter().enumerate() {
        if let Call::Enq(value) = call.call {
            set(&mut puts, place_of(value), number.wrapping_add(1));
        }
    }
    Ok(puts)
}

/// The call that puts a value, if it may have done so before the take ended.
fn source<'a>(
    calls: &'a [KnownCall],
    puts: &[usize],
    value: Value,
    take: &KnownCall,
) -> Option<&'a KnownCall> {
    let number = at(puts, place_of(value));
    if number == 0 {
        return None;
    }
    let put = calls.get(number.wrapping_sub(1))?;
    if put.begin > take.end || put.known == Known::NotTaken {
        return None;
    }
    Some(put)
}

/// Each value that came out with the number of its take, one more, by the value; or what is wrong.
fn takes_by_value(
    alloc: Global,
    calls: &[KnownCall],
) -> Result<Result<Vec<usize>, Witness>, AllocError> {
    let puts = puts_by_value(alloc, calls)?;
    let mut takes = copies(alloc, 0, puts.len())?;
    for (number, call) in calls.iter().enumerate() {
        let Known::Taken(Reply::Got(value)) = call.known else {
            continue;
        };
        if source(calls, &puts, value, call).is_none() {
            return Ok(Err(Witness::Invented {
                take: call.begin,
                value,
            }));
        }
        let before = at(&takes, place_of(value));
        if let Some(first) = calls.get(before.wrapping_sub(1)) {
            return Ok(Err(Witness::Twice {
                first: first.begin,
                second: call.begin,
                value,
            }));
        }
        set(&mut takes, place_of(value), number.wrapping_add(1));
    }
    Ok(Ok(takes))
}

/// The item of a put, if its value certainly was put.
fn item_of(calls: &[KnownCall], takes: &[usize], put: &KnownCall, value: Value) -> Option<Item> {
    let number = at(takes, place_of(value));
    let take = calls.get(number.wrapping_sub(1));
    if take.is_none() && put.known != Known::Taken(Reply::Done) {
        return None;
    }
    Some(Item {
        value,
        put: Span {
            begin: put.begin,
            end: put.end,
        },
        take: take.map(|take| Span {
            begin: take.begin,
            end: take.end,
        }),
        is_known: take.is_some(),
        limit: NEVER,
        limiter: NEVER,
        release: put.begin,
        releaser: NEVER,
    })
}

/// The values, in the order in which their puts began.
pub(crate) fn pair_up(alloc: Global, calls: &[KnownCall]) -> Result<Paired, AllocError> {
    let takes = match takes_by_value(alloc, calls)? {
        Ok(takes) => takes,
        Err(witness) => return Ok(Paired::Bad(witness)),
    };
    let mut items = Vec::new(alloc);
    for put in calls {
        if let Call::Enq(value) = put.call {
            if let Some(item) = item_of(calls, &takes, put, value) {
                items.push(item)?;
            }
        }
    }
    Ok(Paired::Items(items))
}

/// Where the puts of the items began.
pub(crate) fn put_begins(alloc: Global, items: &[Item]) -> Result<Vec<usize>, AllocError> {
    let mut begins = Vec::with_capacity(alloc, items.len())?;
    for item in items {
        begins.push(item.put.begin)?;
    }
    Ok(begins)
}

/// Of the items from each one on, the known one whose take ends first, and NEVER where there is none.
fn first_out(alloc: Global, items: &[Item]) -> Result<Vec<usize>, AllocError> {
    let mut firsts = copies(alloc, NEVER, items.len().saturating_add(1))?;
    let mut best = NEVER;
    let mut best_end = NEVER;
    for number in (0..items.len()).rev() {
        let item = &items[number];
        if item.is_known && item.out_by() <= best_end {
            best = number;
            best_end = item.out_by();
        }
        set(&mut firsts, number, best);
    }
    Ok(firsts)
}

/// Gives each item its limit: the earliest end of the takes of items that were put behind it.
pub(crate) fn set_limits(alloc: Global, items: &mut Vec<Item>) -> Result<(), AllocError> {
    let begins = put_begins(alloc, items.as_slice())?;
    let firsts = first_out(alloc, items.as_slice())?;
    for number in 0..items.len() {
        let Some(item) = items.get(number).copied() else {
            break;
        };
        let behind = count_below(&begins, item.in_by().saturating_add(1));
        let limiter = at(&firsts, behind);
        let limit = items
            .get(limiter)
            .copied()
            .map_or(NEVER, |limiter| limiter.out_by());
        if let Some(item) = items.get_mut(number) {
            item.limit = limit;
            item.limiter = if limit == NEVER { NEVER } else { limiter };
        }
    }
    Ok(())
}

/// A known value that was passed over, alone.
pub(crate) fn passed_over(items: &[Item]) -> Option<Witness> {
    for item in items {
        if item.is_known && item.limit < item.out_from() {
            let limiter = items.get(item.limiter)?;
            let ahead = limiter.ahead();
            let late = item.ahead();
            return Some(Witness::PassedOver {
                take: ahead.take,
                put: ahead.put,
                bound: limiter.out_by(),
                lack: Lack::Late {
                    put: late.put,
                    take: late.take,
                },
            });
        }
    }
    None
}

/// Known items by where they are in at the latest, and of those up to each the one that can be taken last.
#[derive(Drop)]
pub(crate) struct Reaches {
    pub ins: Vec<usize>,
    pub furthest: Vec<usize>,
}

impl Reaches {
    /// Of the known items that are in by a place, the one that can be taken last.
    pub(crate) fn furthest_by(&self, place: usize) -> usize {
        let count = count_below(&self.ins, place.saturating_add(1));
        if count == 0 {
            return NEVER;
        }
        at(&self.furthest, count.wrapping_sub(1))
    }
}

pub(crate) fn reaches_of(alloc: Global, items: &[Item]) -> Result<Reaches, AllocError> {
    let mut pairs = Vec::new(alloc);
    for (number, item) in items.iter().enumerate() {
        if item.is_known {
            pairs.push((item.in_by(), number))?;
        }
    }
    pairs.sort()?;
    let mut furthest = Vec::with_capacity(alloc, pairs.len())?;
    let mut best = NEVER;
    let mut best_from = 0;
    for pair in &pairs {
        let from = items.get(pair.1).copied().map_or(0, |item| item.out_from());
        if best == NEVER || from > best_from {
            best = pair.1;
            best_from = from;
        }
        furthest.push(best)?;
    }
    Ok(Reaches {
        ins: keys(alloc, &pairs)?,
        furthest,
    })
}

/// Gives each item that is missing its release: the latest place from which an item ahead of it can be taken.
pub(crate) fn set_releases(items: &mut Vec<Item>, reaches: &Reaches) {
    for number in 0..items.len() {
        let Some(item) = items.get(number).copied() else {
            break;
        };
        if item.is_known || item.put.begin == 0 {
            continue;
        }
        let ahead = reaches.furthest_by(item.put.begin.wrapping_sub(1));
        let from = items
            .get(ahead)
            .copied()
            .map_or(0, |ahead| ahead.out_from());
        if from > item.put.begin {
            if let Some(item) = items.get_mut(number) {
                item.release = from;
                item.releaser = ahead;
            }
        }
    }
}
