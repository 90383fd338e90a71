//! A recording may hold any values. They are numbered, and judged as messages that their numbers name.

ghost use Rattle.std.specs.Prelude.{◌≡◌};
ghost use Rattle.findings.specs.Ranks.{ranked, rank_of};

use words::{Item, Value};

/// The bytes of a number.
const RANK_BYTES: usize = 4;

/// The message that stands for the value of this number: its four bytes, little-endian. Of two numbers the messages
/// differ.
pub fn ranked(rank: u32) -> Value
    ensures bytes { result ≡ ranked rank }
    ensures found_again { rank_of result ≡ rank }
{
    let Ok(item) = Item::make(&rank.to_le_bytes()) else {
        // An item has room for them.
        unreachable!();
    };
    item
}

/// The number of the value that the message stands for, and 0 of a shorter message.
pub fn rank_of(value: Value) -> u32
    ensures { result ≡ rank_of value }
{
    match value.bytes().first_chunk::<RANK_BYTES>() {
        Some(bytes) => u32::from_le_bytes(*bytes),
        None => 0,
    }
}
