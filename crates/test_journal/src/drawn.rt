//! Drawn journals are cut off and changed at every byte.

use crate::story::{Moment, Story, draw};
use journal::{Fault, Reading, hides_kept_frame, read};
use std::alloc::Global;
use std::test::Fail;
use words::Refusal;

/// How many journals are drawn.
const SEEDS: u64 = 40;

/// The last sums of all of them, which tests/journaling.py finds here.
const LAST_SUMS: u64 = 0xb15f_2c46_2782_54da;

/// The last moment that ends at this place or before it.
fn last_before(story: &Story, place: usize) -> Option<&Moment> {
    story
        .moments
        .iter()
        .rev()
        .find(|moment| moment.end <= place)
}

/// Whether the first so many bytes are read as they are to be.
fn cut_is_right(alloc: Global, story: &Story, len: usize) -> Result<bool, Fail> {
    let there = story.bytes.get(..len).ok_or("past the end")?;
    let reading = read(alloc, there);
    let Some(moment) = last_before(story, len) else {
        return Ok(matches!(reading, Err(Fault::Refused(Refusal::Truncated))));
    };
    let reading = reading?;
    Ok(
        reading.words.as_slice() == moment.words.as_slice()
            && reading.cut == len.saturating_sub(moment.end),
    )
}

/// The first length of a beginning that is not read as it is to be, if there is one.
fn wrong_cut(alloc: Global, story: &Story) -> Result<Option<usize>, Fail> {
    for len in 0..=story.bytes.len() {
        if !cut_is_right(alloc, story, len)? {
            return Ok(Some(len));
        }
    }
    Ok(None)
}

#[test]
fn a_cut_leaves_a_beginning(rt: HostRuntime) -> Result<(), Fail> {
    for seed in 0..SEEDS {
        let story = draw(rt.alloc(), seed)?;
        let wrong = wrong_cut(rt.alloc(), &story)?;
        assert_eq!(rt; wrong, None, "{seed}");
    }
    Ok(())
}

/// Changes these bits of the byte at this place.
fn flip(bytes: &mut [u8], at: usize, bits: u8) {
    if let Some(byte) = bytes.get_mut(at) {
        *byte ^= bits;
    }
}

/// Whether a change of the byte at this place is found where it is to be, and told from a torn tail.
fn change_is_right(
    story: &Story,
    bytes: &[u8],
    at: usize,
    reading: Result<Reading, Fault>,
) -> Result<bool, Fail> {
    let Some(moment) = last_before(story, at) else {
        return Ok(reading.is_err());
    };
    let reading = reading?;
    let place = bytes.len().saturating_sub(reading.cut);
    let hidden = story.moments.iter().any(|later| later.end > at
        && later.kept > moment.end
        && later.end < bytes.len());
    Ok(
        place == moment.end
            && reading.words.as_slice() == moment.words.as_slice()
            && hides_kept_frame(&story.key, bytes, place) == hidden,
    )
}

#[test]
fn a_changed_byte_is_found(rt: HostRuntime) -> Result<(), Fail> {
    for seed in 0..SEEDS {
        let mut story = draw(rt.alloc(), seed)?;
        let mut bytes = story.bytes.clone()?;
        for at in 0..bytes.len() {
            let bit = 1 << (seed % 8);
            flip(&mut bytes, at, bit);
            let reading = read(rt.alloc(), &bytes);
            assert!(rt;
                change_is_right(&story, &bytes, at, reading)?,
                "{seed} {at}"
            );
            flip(&mut bytes, at, bit);
        }
    }
    Ok(())
}

/// Whether a journal with this tail is read as without it, and the tail is told to be torn.
fn tail_is_cut(alloc: Global, story: &Story, tail: &[u8]) -> Result<bool, Fail> {
    let words = read(alloc, &story.bytes)?.words;
    let mut longer = story.bytes.clone()?;
    longer.extend_from_slice(tail)?;
    let reading = read(alloc, &longer)?;
    Ok(
        reading.cut == tail.len()
            && reading.words.as_slice() == words.as_slice()
            && !hides_kept_frame(&story.key, &longer, story.bytes.len()),
    )
}

/// The frames of a journal.
fn frames(story: &Story) -> &[u8] {
    let end = story.moments.first().map_or(0, |moment| moment.end);
    story.bytes.get(end..).unwrap_or(&[])
}

/// Whether zeros, another journal's frames and its own ones are cut off behind a journal.
fn tails_are_cut(alloc: Global, story: &Story, other: &Story) -> Result<[bool; 3], Fail> {
    let zeros = tail_is_cut(alloc, story, &[0; 100])?;
    let others = tail_is_cut(alloc, story, frames(other))?;
    let own = tail_is_cut(alloc, story, frames(story))?;
    Ok([zeros, others, own])
}

#[test]
fn zeros_and_other_frames_are_no_frames(rt: HostRuntime) -> Result<(), Fail> {
    for seed in 0..SEEDS {
        let story = draw(rt.alloc(), seed)?;
        let other = draw(rt.alloc(), seed + SEEDS)?;
        let are_cut = tails_are_cut(rt.alloc(), &story, &other)?;
        assert_eq!(rt; are_cut, [true; 3], "{seed}");
    }
    Ok(())
}

#[test]
fn the_plain_program_draws_the_same(rt: HostRuntime) -> Result<(), Fail> {
    let mut sums = 0u64;
    for seed in 0..SEEDS {
        let story = draw(rt.alloc(), seed)?;
        let (_, last) = story.bytes.split_last_chunk::<8>().ok_or("no sum")?;
        sums = sums.rotate_left(1) ^ u64::from_le_bytes(*last);
    }
    assert_eq!(rt; sums, LAST_SUMS);
    Ok(())
}
