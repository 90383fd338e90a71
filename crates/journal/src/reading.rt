//! What bytes are read as.

ghost use Rattle.std.specs.Prelude.{◌≡◌, ◌<◌, ◌↔◌, map, Ok, Err, IfOk, IfErr, IsTrue};
ghost use Rattle.std.specs.Int.{w64, from_le_bytes};
ghost use Rattle.journal.specs.Reading.{HidesKept, ReadsAs, reading, IsWhyUnread};

use crate::fault::Fault;
use crate::format::KEY_BYTES;
use crate::frame::tells_kept;
use crate::head::split_head;
use crate::replay::replay_frames;
use persist::NUMBER_BYTES;
use std::alloc::{AllocError, Global};
use words::Refusal;

/// What a journal is read as.
#[derive(Drop)]
pub struct Reading {
    /// The key of its sums.
    pub key: [u8; KEY_BYTES],
    /// The words after the changes of all its frames.
    pub words: Vec<u64>,
    /// How many bytes follow the last whole frame: a torn tail, which is left out.
    pub cut: usize,
}

/// The words of these bytes.
fn numbers(alloc: Global, words: &[[u8; NUMBER_BYTES]]) -> Result<Vec<u64>, AllocError>
    ensures { IfOk result (λ numbers. numbers.items ≡ map (from_le_bytes w64) words.now) }
{
    let mut numbers = Vec::with_capacity(alloc, words.len())?;
    for word in words {
        numbers.push(u64::from_le_bytes(*word))?;
    }
    Ok(numbers)
}

/// The words that a journal leaves. Memory is taken for them once, and for nothing else, and no byte of a frame is
/// copied. The bytes are refused in this order: where what there is of the first eight differs from `PQJ1PQW2`
/// (BadMagic), where the count of words is cut off (Truncated), where it is 0 or above 8,388,608 (BadCount), where the
/// head is cut off (Truncated), where its sum is another (BadSum), and where memory is refused (NoMemory). What follows
/// the last whole frame is no reason to refuse: [`hides_kept_frame`] tells whether it may be left out.
pub fn read(alloc: Global, bytes: &[u8]) -> Result<Reading, Fault>
    ensures read { IfOk result (λ r. ReadsAs r.key r.words.items r.cut bytes.now) }
    ensures errors { IfErr result (IsWhyUnread bytes.now) }
{
    let head = split_head(bytes)?;
    let Ok(mut words) = numbers(alloc, head.words) else {
        return Err(Fault::Refused(Refusal::NoMemory));
    };
    let cut = replay_frames(head.key, head.sum, &mut words, head.rest);
    Ok(Reading {
        key: *head.key,
        words,
        cut,
    })
}

/// Whether a frame lies behind this place of a journal's bytes that was written when the bytes at the place were kept.
/// Where that is so of the end of the last whole frame, `bytes.len() - cut`, the bytes there are not a torn tail: they
/// were kept, and were damaged since.
pub fn hides_kept_frame(key: &[u8; KEY_BYTES], bytes: &[u8], place: usize) -> bool
    ensures { IsTrue result ↔ HidesKept key.now place bytes.now }
{
    for at in place..bytes.len() {
        if tells_kept(key, place, at, &bytes[at..]) {
            return true;
        }
    }
    false
}
