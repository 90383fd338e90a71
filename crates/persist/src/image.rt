//! Images of a memory: its kept words as bytes.

ghost use Rattle.std.specs.Prelude.{◌≡◌, ◌^◌, ◌<◌, ◌≤◌, ◌++◌, length, drop, map, All, Ok, Err, IfOk, IfErr, IfSome, IfNone, OnOk};
ghost use Rattle.std.specs.Int.{w64, from_le_bytes, to_le_bytes};
ghost use Rattle.std.specs.List.{flat_map};
ghost use Rattle.persist.specs.Memory.{words_at_rest, IsUnasked};
ghost use Rattle.persist.specs.Image.{image_of, image_by, magic, magic_v1, begins_with, has_first_form, count_in, reading, reading_by, reading_v1, IsWhyUnread};

use crate::memory::{MAX_WORDS, Memory};
use std::alloc::{AllocError, Global};
use std::cmp::Ordering;
use words::Refusal;

/// What every image begins with.
const MAGIC: [u8; MAGIC_BYTES] = *b"PQW2";

/// What images of the first form begin with.
const MAGIC_V1: [u8; MAGIC_BYTES] = *b"PQW1";

const MAGIC_BYTES: usize = 4;

/// How many bytes a number has, the count and each word.
pub const NUMBER_BYTES: usize = 8;

/// How many bytes stand before the words: the magic and the count.
pub const HEADER_BYTES: usize = MAGIC_BYTES + NUMBER_BYTES;

/// Whether what there is of the first four bytes is as these.
fn begins_right(first: &[u8; MAGIC_BYTES], bytes: &[u8]) -> bool
    ensures { result ≡ begins_with first.now bytes.now }
{
    let there = bytes.len().min(MAGIC_BYTES);
    bytes[..there] == first[..there]
}

/// Whether bytes begin as images of the first form do, whatever follows.
pub fn is_first_form(bytes: &[u8]) -> bool
    ensures { result ≡ has_first_form bytes.now }
{
    let there = bytes.len().min(MAGIC_BYTES);
    bytes[..there] == MAGIC_V1[..]
}

/// The count, and the bytes after it, unless there are too few.
fn split_header(bytes: &[u8]) -> Option<(u64, &[u8])>
    ensures short { IfNone result (length bytes.now < HEADER_BYTES) }
    ensures long { IfSome result (λ parts. HEADER_BYTES ≤ length bytes.now) }
    ensures count { IfSome result (λ parts. parts.0 ≡ count_in bytes.now) }
    ensures rest { IfSome result (λ parts. parts.1.now ≡ drop HEADER_BYTES bytes.now) }
{
    let (_, rest) = bytes.split_first_chunk::<MAGIC_BYTES>()?;
    let (count, rest) = rest.split_first_chunk::<NUMBER_BYTES>()?;
    Some((u64::from_le_bytes(*count), rest))
}

/// The bytes of each word, or the first that is wrong with an image that begins so.
#[tactic(auto, unfolding(crate::specs::Image::reading_by))]
fn words_of<'a>(
    first: &[u8; MAGIC_BYTES],
    bytes: &'a [u8],
) -> Result<&'a [[u8; NUMBER_BYTES]], Refusal>
    ensures ok { IfOk result (λ words. reading_by first.now bytes.now ≡ Ok (map (from_le_bytes w64) words.now)) }
    ensures some { IfOk result (λ words. 0 < length words.now) }
    ensures few { IfOk result (λ words. length words.now ≤ MAX_WORDS) }
    ensures err { IfErr result (λ e. reading_by first.now bytes.now ≡ Err e) }
{
    if !begins_right(first, bytes) {
        return Err(Refusal::BadMagic);
    }
    let Some((count, rest)) = split_header(bytes) else {
        return Err(Refusal::Truncated);
    };
    if count == 0 || count > MAX_WORDS as u64 {
        return Err(Refusal::BadCount);
    }
    match rest.len().cmp(&(NUMBER_BYTES * count as usize)) {
        Ordering::Less => Err(Refusal::Truncated),
        Ordering::Greater => Err(Refusal::TrailingBytes),
        Ordering::Equal => {
            let (words, _) = rest.as_chunks::<NUMBER_BYTES>();
            Ok(words)
        }
    }
}

/// The words of these bytes.
fn numbers(alloc: Global, words: &[[u8; NUMBER_BYTES]]) -> Result<Vec<u64>, AllocError>
    ensures { IfOk result (λ numbers. numbers.items ≡ map (from_le_bytes w64) words.now) }
{
    words
        .iter()
        .map(|word| u64::from_le_bytes(*word))
        .collect(alloc)
}

/// Writes the magic and the count, after what is there.
fn write_header(image: &mut Vec<u8>, count: usize) -> Result<(), AllocError>
    ensures { OnOk result (image.new.items ≡ image.old.items ++ magic ++ to_le_bytes w64 count) }
{
    image.extend_from_slice(&MAGIC)?;
    image.extend_from_slice(&(count as u64).to_le_bytes())
}

/// Writes each word, after what is there.
fn write_words(image: &mut Vec<u8>, words: &[u64]) -> Result<(), AllocError>
    ensures { OnOk result (image.new.items ≡ image.old.items ++ flat_map (to_le_bytes w64) words.now) }
{
    for word in words {
        image.extend_from_slice(&word.to_le_bytes())?;
    }
    Ok(())
}

/// The image of these words.
fn image(alloc: Global, words: &[u64]) -> Result<Vec<u8>, AllocError>
    ensures image { IfOk result (λ bytes. bytes.items ≡ image_of words.now) }
    // A fact of the argument's type, which a caller has from here alone.
    ensures fit { All (λ word. word < 2 ^ 64) words.now }
{
    let mut image = Vec::with_capacity(alloc, HEADER_BYTES + NUMBER_BYTES * words.len())?;
    write_header(&mut image, words.len())?;
    write_words(&mut image, words)?;
    Ok(image)
}

impl Memory {
    /// The kept words as bytes. A value that is only cached is not in it, and neither is what ports ask for. It is
    /// refused where memory is (NoMemory).
    pub fn to_image(&self) -> Result<Vec<u8>, Refusal>
        ensures image { IfOk result (λ bytes. bytes.items ≡ image_of self.now.words.kept) }
        ensures read { IfOk result (λ bytes. reading bytes.items ≡ Ok self.now.words.kept) }
        ensures errors { IfErr result (λ e. e ≡ Refusal.NoMemory) }
    {
        match image(self.allocator(), self.kept_words()) {
            Ok(image) => Ok(image),
            Err(_) => Err(Refusal::NoMemory),
        }
    }

    /// The memory whose image the bytes are: it has the words cached and kept, no access counted, nothing asked for,
    /// and room for a change of each word. The bytes are refused in this order: where what there is of the first four
    /// differs from the magic (BadMagic), where the count is cut off (Truncated), where it is 0 or above [`MAX_WORDS`]
    /// (BadCount), where words are cut off (Truncated), where something stands after them (TrailingBytes), and where
    /// memory is refused (NoMemory).
    pub fn from_image(alloc: Global, bytes: &[u8]) -> Result<Self, Refusal>
        ensures read { IfOk result (λ m. reading bytes.now ≡ Ok m.words.kept) }
        ensures at_rest { IfOk result (λ m. m.words ≡ words_at_rest m.words.kept) }
        ensures unasked { IfOk result IsUnasked }
        ensures image { IfOk result (λ m. image_of m.words.kept ≡ bytes.now) }
        ensures errors { IfErr result (IsWhyUnread (reading bytes.now)) }
    {
        Memory::read(alloc, &MAGIC, bytes)
    }

    /// The memory of an image of the first form, which is read by the same rules, but for its first four bytes. Such
    /// images are no longer written. What their words mean is the caller's to know.
    pub fn from_image_v1(alloc: Global, bytes: &[u8]) -> Result<Self, Refusal>
        ensures read { IfOk result (λ m. reading_v1 bytes.now ≡ Ok m.words.kept) }
        ensures at_rest { IfOk result (λ m. m.words ≡ words_at_rest m.words.kept) }
        ensures unasked { IfOk result IsUnasked }
        ensures image { IfOk result (λ m. image_by magic_v1 m.words.kept ≡ bytes.now) }
        ensures errors { IfErr result (IsWhyUnread (reading_v1 bytes.now)) }
    {
        Memory::read(alloc, &MAGIC_V1, bytes)
    }

    /// The same of bytes that begin so.
    fn read(alloc: Global, first: &[u8; MAGIC_BYTES], bytes: &[u8]) -> Result<Self, Refusal>
        requires { length first.now ≡ MAGIC_BYTES }
        ensures read { IfOk result (λ m. reading_by first.now bytes.now ≡ Ok m.words.kept) }
        ensures at_rest { IfOk result (λ m. m.words ≡ words_at_rest m.words.kept) }
        ensures unasked { IfOk result IsUnasked }
        ensures image { IfOk result (λ m. image_by first.now m.words.kept ≡ bytes.now) }
        ensures errors { IfErr result (IsWhyUnread (reading_by first.now bytes.now)) }
    {
        let words = words_of(first, bytes)?;
        let Ok(kept) = numbers(alloc, words) else {
            return Err(Refusal::NoMemory);
        };
        Memory::of(alloc, kept)
    }
}
