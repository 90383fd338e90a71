//! The numbers of values among those that are put.

use crate::act::{Act, CallOf, Step};
use std::alloc::{AllocError, Global};

/// The number of the value that a step puts, if it puts one.
pub(crate) fn value_put(calls: &[CallOf], step: &Step) -> Option<usize> {
    match step.act {
        Act::Begin(call) => calls.get(call).copied().and_then(|call| call.puts),
        _ => None,
    }
}

/// Gives a value the next number, if it has none.
fn give(ranks: &mut [u32], value: usize, next: u32) -> u32 {
    match ranks.get_mut(value) {
        Some(rank) if *rank == u32::MAX => {
            *rank = next;
            next.saturating_add(1)
        }
        _ => next,
    }
}

/// The number of each value among those that are put, as they are put first; the others come behind.
pub(crate) fn ranks_of(
    alloc: Global,
    calls: &[CallOf],
    steps: &[Step],
    count: usize,
) -> Result<Vec<u32>, AllocError> {
    let mut ranks = vec![in alloc; u32::MAX; count]?;
    let mut next = 0u32;
    for step in steps {
        if let Some(value) = value_put(calls, step) {
            next = give(&mut ranks, value, next);
        }
    }
    for value in 0..count {
        next = give(&mut ranks, value, next);
    }
    Ok(ranks)
}
