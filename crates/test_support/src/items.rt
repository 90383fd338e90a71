//! Messages that stand for numbers.

ghost use Rattle.std.specs.Prelude.{◌≡◌};
ghost use Rattle.std.specs.Int.{w32, to_le_bytes};

use words::{Call, Item, Reply};

/// The message that stands for a number: its four bytes, little-endian.
pub fn item(number: u32) -> Item
    ensures { result ≡ to_le_bytes w32 number }
{
    let Ok(item) = Item::make(&number.to_le_bytes()) else {
        // An item has room for them.
        unreachable!();
    };
    item
}

/// The number that a message stands for, and 0 of a shorter message.
pub fn number_of(item: &Item) -> u32 {
    match item.bytes().first_chunk::<4>() {
        Some(bytes) => u32::from_le_bytes(*bytes),
        None => 0,
    }
}

/// What a client of a test asks for, as tables have it: an enqueue of the message of a number, or a dequeue.
#[derive(Clone, Copy, Debug)]
pub enum Wish {
    Enq(u32),
    Deq,
}

impl Wish {
    /// The call that asks for it.
    pub fn call(self) -> Call {
        match self {
            Wish::Enq(number) => Call::Enq(item(number)),
            Wish::Deq => Call::Deq,
        }
    }
}

/// What it is answered, as tables have it: a number stands for its message.
#[derive(Clone, Copy, Debug)]
pub enum Said {
    Done,
    Got(u32),
    Empty,
}

impl Said {
    /// The reply that says it.
    pub fn reply(self) -> Reply {
        match self {
            Said::Done => Reply::Done,
            Said::Got(number) => Reply::Got(item(number)),
            Said::Empty => Reply::Empty,
        }
    }
}

/// Whether these messages stand for these numbers.
pub fn are_items(values: &[Item], numbers: &[u32]) -> bool {
    if values.len() != numbers.len() {
        return false;
    }
    for i in 0..values.len() {
        if values[i] != item(numbers[i]) {
            return false;
        }
    }
    true
}
