//! Frames in bytes.

ghost use Rattle.std.specs.Prelude.{◌≡◌, ◌+◌, ◌*◌, ◌<◌, ◌≤◌, length, drop, is_some, All, IfSome, IfNone};
ghost use Rattle.journal.specs.Reading.{are_within, before_in, behind, changes_in, count_in, goes_on, is_whole, kept_in, knows_kept, sum_in, value_in, word_in};

use crate::checksum::checksum;
use crate::format::{CHANGE_BYTES, FRONT_BYTES, KEY_BYTES, MAX_CHANGES, SUM_BYTES};

/// What stands before a frame's changes, and what follows.
#[derive(Clone, Copy)]
struct Front<'a> {
    before: &'a [u8; SUM_BYTES],
    kept: u64,
    count: usize,
    rest: &'a [u8],
}

/// A whole frame, and what follows it.
#[derive(Clone, Copy)]
pub(crate) struct Frame<'a> {
    pub(crate) before: &'a [u8; SUM_BYTES],
    pub(crate) changes: &'a [[u8; CHANGE_BYTES]],
    pub(crate) sum: &'a [u8; SUM_BYTES],
    pub(crate) rest: &'a [u8],
}

/// What stands before the changes of a frame, unless there are too few bytes.
#[tactic(auto, unfolding(crate::specs::Reading::kept_in, crate::specs::Reading::count_in))]
fn split_front(bytes: &[u8]) -> Option<Front<'_>>
    ensures short { IfNone result (length bytes.now < FRONT_BYTES) }
    ensures long { IfSome result (λ front. FRONT_BYTES ≤ length bytes.now) }
    ensures before { IfSome result (λ front. front.before.now ≡ before_in bytes.now) }
    ensures kept { IfSome result (λ front. front.kept ≡ kept_in bytes.now) }
    ensures count { IfSome result (λ front. front.count ≡ count_in bytes.now) }
    ensures rest { IfSome result (λ front. front.rest.now ≡ drop FRONT_BYTES bytes.now) }
{
    let (before, rest) = bytes.split_first_chunk::<SUM_BYTES>()?;
    let (kept, rest) = rest.split_first_chunk::<8>()?;
    let (count, rest) = rest.split_first_chunk::<4>()?;
    Some(Front {
        before,
        kept: u64::from_le_bytes(*kept),
        count: u32::from_le_bytes(*count) as usize,
        rest,
    })
}

/// The whole frame that the bytes begin with, by its own sum.
pub(crate) fn whole_frame<'a>(key: &[u8; KEY_BYTES], bytes: &'a [u8]) -> Option<Frame<'a>>
    ensures whole { is_some result ≡ is_whole key.now bytes.now }
    ensures before { IfSome result (λ frame. frame.before.now ≡ before_in bytes.now) }
    ensures changes { IfSome result (λ frame. frame.changes.now ≡ changes_in bytes.now) }
    ensures sum { IfSome result (λ frame. frame.sum.now ≡ sum_in bytes.now) }
    ensures rest { IfSome result (λ frame. frame.rest.now ≡ behind bytes.now) }
{
    let Some(front) = split_front(bytes) else {
        return None;
    };
    if front.count == 0 || front.count > MAX_CHANGES {
        return None;
    }
    let size = CHANGE_BYTES * front.count;
    let Some((changes, rest)) = front.rest.split_at_checked(size) else {
        return None;
    };
    let Some((sum, rest)) = rest.split_first_chunk::<SUM_BYTES>() else {
        return None;
    };
    let summed = *sum == checksum(key, &bytes[..FRONT_BYTES + size]);
    if !summed {
        return None;
    }
    let (changes, _) = changes.as_chunks::<CHANGE_BYTES>();
    Some(Frame {
        before: front.before,
        changes,
        sum,
        rest,
    })
}

/// The word and the new value of a change.
#[tactic(auto, unfolding(crate::specs::Reading::word_in, crate::specs::Reading::value_in))]
pub(crate) fn word_and_value(change: &[u8; CHANGE_BYTES]) -> (usize, u64)
    ensures word { result.0 ≡ word_in change.now }
    ensures value { result.1 ≡ value_in change.now }
{
    let Some((word, rest)) = change.split_first_chunk::<4>() else {
        unreachable!();
    };
    let Some((value, _)) = rest.split_first_chunk::<8>() else {
        unreachable!();
    };
    (
        u32::from_le_bytes(*word) as usize,
        u64::from_le_bytes(*value),
    )
}

/// Whether all changes are of one of so many words.
#[tactic(auto, unfolding(crate::specs::Reading::are_within))]
fn all_within(size: usize, changes: &[[u8; CHANGE_BYTES]]) -> bool
    ensures { result ≡ are_within size changes.now }
{
    changes.iter().all(|change| word_and_value(change).0 < size)
}

/// The whole frame that a journal of so many words goes on with: it has this sum before it.
pub(crate) fn next_frame<'a>(
    key: &[u8; KEY_BYTES],
    before: &[u8; SUM_BYTES],
    size: usize,
    bytes: &'a [u8],
) -> Option<Frame<'a>>
    ensures goes_on { is_some result ≡ goes_on key.now before.now size bytes.now }
    ensures changes { IfSome result (λ frame. frame.changes.now ≡ changes_in bytes.now) }
    ensures sum { IfSome result (λ frame. frame.sum.now ≡ sum_in bytes.now) }
    ensures rest { IfSome result (λ frame. frame.rest.now ≡ behind bytes.now) }
    ensures within { IfSome result (λ frame. All (λ change. word_in change < size) frame.changes.now) }
{
    let Some(frame) = whole_frame(key, bytes) else {
        return None;
    };
    let follows = *frame.before == *before;
    if !follows {
        return None;
    }
    if !all_within(size, frame.changes) {
        return None;
    }
    Some(frame)
}

/// Whether the bytes, so far behind the beginning of a file, begin with a frame that was written when the bytes at the
/// place were kept.
pub(crate) fn tells_kept(key: &[u8; KEY_BYTES], place: usize, at: usize, bytes: &[u8]) -> bool
    ensures { result ≡ knows_kept key.now place at bytes.now }
{
    let Some(front) = split_front(bytes) else {
        return false;
    };
    if front.kept <= place as u64 || front.kept > at as u64 {
        return false;
    }
    whole_frame(key, bytes).is_some()
}
