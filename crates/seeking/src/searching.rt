//! The search.

use crate::blocks::{once, ordered};
use crate::calls::Calls;
use crate::empties::{Moments, find_moments, limit_by_moments};
use crate::items::{
    Item, Paired, Reaches, pair_up, passed_over, reaches_of, set_limits, set_releases,
};
use crate::matching::{Matched, OpenTakes, match_up, open_takes, short_witness, unmatch};
use crate::pieces::held;
use events::Entry;
use findings::Witness;
use std::alloc::{AllocError, Global};

/// What the search found. It is to be judged.
#[derive(Drop)]
pub enum Found {
    Order(Vec<Entry>),
    Witness(Witness),
    Nothing,
}

/// What was found, if it is a witness.
fn judged_later(witness: Option<Witness>) -> Found {
    match witness {
        Some(witness) => Found::Witness(witness),
        None => Found::Nothing,
    }
}

/// A moment for each take that found nothing, and then an order.
fn order(
    alloc: Global,
    calls: &Calls,
    items: &mut Vec<Item>,
    takes: &OpenTakes,
    reaches: &Reaches,
    wants_order: bool,
) -> Result<Found, AllocError> {
    unmatch(items);
    let empties = match find_moments(alloc, calls, items.as_slice(), takes)? {
        Moments::All(empties) => empties,
        Moments::None(empty) => {
            return Ok(judged_later(held(alloc, calls, items.as_slice(), takes, reaches, empty)?));
        }
    };
    let times = once(alloc, &empties)?;
    limit_by_moments(items, &times);
    if let Matched::Short { .. } = match_up(alloc, items, takes)? {
        return Ok(Found::Nothing);
    }
    if !wants_order {
        return Ok(Found::Order(Vec::new(alloc)));
    }
    match ordered(alloc, items.as_slice(), &empties)? {
        Some(entries) => Ok(Found::Order(entries)),
        None => Ok(Found::Nothing),
    }
}

/// Looks for an order that explains what is known of the calls, or for a witness that there is none. It is made for
/// recordings in which the values that are put ascend, from a small number on. Where the order is not wanted, none is made
/// of what was found.
pub fn search(alloc: Global, calls: &Calls, wants_order: bool) -> Result<Found, AllocError> {
    let mut items = match pair_up(alloc, &calls.calls)? {
        Paired::Items(items) => items,
        Paired::Bad(witness) => return Ok(Found::Witness(witness)),
    };
    set_limits(alloc, &mut items)?;
    if let Some(witness) = passed_over(&items) {
        return Ok(Found::Witness(witness));
    }
    let reaches = reaches_of(alloc, &items)?;
    set_releases(&mut items, &reaches);
    let takes = open_takes(alloc, &calls.calls)?;
    if let Matched::Short {
        items: short,
        first,
    } = match_up(alloc, &mut items, &takes)?
    {
        unmatch(&mut items);
        return Ok(judged_later(short_witness(alloc, &items, &takes, &short, first)?));
    }
    order(alloc, calls, &mut items, &takes, &reaches, wants_order)
}
