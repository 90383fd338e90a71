//! Numbers in order, and where one stands among them.

use std::alloc::{AllocError, Global};

/// How many of the numbers, which ascend, are below this one.
pub(crate) fn count_below(numbers: &[usize], bound: usize) -> usize {
    let mut low = 0usize;
    let mut high = numbers.len();
    for _ in 0..64u8 {
        if low >= high {
            break;
        }
        let middle = low.wrapping_add(high.wrapping_sub(low) / 2);
        if at(numbers, middle) < bound {
            low = middle.wrapping_add(1);
        } else {
            high = middle;
        }
    }
    low
}

/// How many of them are at most this one.
pub(crate) fn count_up_to(numbers: &[usize], bound: usize) -> usize {
    count_below(numbers, bound.saturating_add(1))
}

/// The number at a place, and 0 past the last.
pub(crate) fn at(numbers: &[usize], place: usize) -> usize {
    numbers.get(place).copied().unwrap_or(0)
}

/// The item at a place, if there is one.
pub(crate) fn set(numbers: &mut Vec<usize>, place: usize, number: usize) {
    if let Some(old) = numbers.get_mut(place) {
        *old = number;
    }
}

/// So many copies of a number.
pub(crate) fn copies(alloc: Global, number: usize, count: usize) -> Result<Vec<usize>, AllocError> {
    let mut numbers = Vec::with_capacity(alloc, count)?;
    for _ in 0..count {
        numbers.push(number)?;
    }
    Ok(numbers)
}

/// The first parts of pairs.
pub(crate) fn keys(alloc: Global, pairs: &[(usize, usize)]) -> Result<Vec<usize>, AllocError> {
    let mut numbers = Vec::with_capacity(alloc, pairs.len())?;
    for pair in pairs {
        numbers.push(pair.0)?;
    }
    Ok(numbers)
}
