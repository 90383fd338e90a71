//! The head of a journal in bytes.

ghost use Rattle.std.specs.Prelude.{◌≡◌, ◌+◌, ◌<◌, ◌≤◌, length, map, drop, take, Ok, Err, IfOk, IfErr, IfSome, IfNone};
ghost use Rattle.std.specs.Int.{w64, from_le_bytes};
ghost use Rattle.journal.specs.Reading.{begins_as_journal, head_reading, head_size, key_at, sum_at, words_count, word_bytes};

use crate::checksum::checksum;
use crate::fault::Fault;
use crate::format::{FIRST_BYTES, KEY_BYTES, KEY_END, MAGIC_BYTES, SUM_BYTES};
use persist::{HEADER_BYTES, MAX_WORDS, NUMBER_BYTES};
use words::Refusal;

/// What a head says, and what follows it.
#[derive(Clone, Copy)]
pub(crate) struct Head<'a> {
    pub(crate) words: &'a [[u8; NUMBER_BYTES]],
    pub(crate) key: &'a [u8; KEY_BYTES],
    pub(crate) sum: &'a [u8; SUM_BYTES],
    pub(crate) rest: &'a [u8],
}

/// Whether what there is of the first eight bytes is as a journal's.
fn begins_right(bytes: &[u8]) -> bool
    ensures { result ≡ begins_as_journal bytes.now }
{
    let there = bytes.len().min(8);
    bytes[..there] == FIRST_BYTES[..there]
}

/// How many words the bytes say that there are, unless there are too few bytes.
fn count_words(bytes: &[u8]) -> Option<u64>
    ensures short { IfNone result (length bytes.now < MAGIC_BYTES + HEADER_BYTES) }
    ensures long { IfSome result (λ count. MAGIC_BYTES + HEADER_BYTES ≤ length bytes.now) }
    ensures count { IfSome result (λ count. count ≡ words_count bytes.now) }
{
    let (_, image) = bytes.split_at_checked(MAGIC_BYTES)?;
    let (_, rest) = image.split_at_checked(MAGIC_BYTES)?;
    let (count, _) = rest.split_first_chunk::<NUMBER_BYTES>()?;
    Some(u64::from_le_bytes(*count))
}

/// The parts of a head of so many words, unless there are too few bytes.
fn split_parts(count: usize, bytes: &[u8]) -> Option<Head<'_>>
    requires { count ≤ MAX_WORDS }
    ensures short { IfNone result (length bytes.now < head_size count) }
    ensures long { IfSome result (λ head. head_size count ≤ length bytes.now) }
    ensures words { IfSome result (λ head. head.words.now ≡ word_bytes count bytes.now) }
    ensures key { IfSome result (λ head. head.key.now ≡ take KEY_BYTES (drop (key_at count) bytes.now)) }
    ensures sum { IfSome result (λ head. head.sum.now ≡ take SUM_BYTES (drop (sum_at count) bytes.now)) }
    ensures rest { IfSome result (λ head. head.rest.now ≡ drop (head_size count) bytes.now) }
{
    let (_, image) = bytes.split_at_checked(MAGIC_BYTES)?;
    let (_, rest) = image.split_at_checked(HEADER_BYTES)?;
    let (words, rest) = rest.split_at_checked(NUMBER_BYTES * count)?;
    let (key, rest) = rest.split_first_chunk::<KEY_BYTES>()?;
    let (sum, rest) = rest.split_first_chunk::<SUM_BYTES>()?;
    let (words, _) = words.as_chunks::<NUMBER_BYTES>();
    Some(Head {
        words,
        key,
        sum,
        rest,
    })
}

/// The head that the bytes begin with, or the first that is wrong with it.
pub(crate) fn split_head(bytes: &[u8]) -> Result<Head<'_>, Fault>
    // Long, since it names each part.
    ensures ok { IfOk result (λ head. head_reading bytes.now ≡ Ok (record {
      words = map (from_le_bytes w64) head.words.now;
      key = head.key.now;
      sum = head.sum.now;
      rest = head.rest.now;
    })) }
    ensures long { IfOk result (λ head. length head.rest.now ≤ length bytes.now) }
    ensures err { IfErr result (λ fault. head_reading bytes.now ≡ Err fault) }
{
    if !begins_right(bytes) {
        return Err(Fault::Refused(Refusal::BadMagic));
    }
    let Some(count) = count_words(bytes) else {
        return Err(Fault::Refused(Refusal::Truncated));
    };
    if count == 0 || count > MAX_WORDS as u64 {
        return Err(Fault::Refused(Refusal::BadCount));
    }
    let Some(head) = split_parts(count as usize, bytes) else {
        return Err(Fault::Refused(Refusal::Truncated));
    };
    let summed = *head.sum == checksum(head.key, &bytes[..KEY_END + NUMBER_BYTES * count as usize]);
    if !summed {
        return Err(Fault::BadSum);
    }
    Ok(head)
}
