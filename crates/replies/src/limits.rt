//! How long a reply may be.

use words::ITEM_BYTES;

/// The most bytes of a reply: of its text, and its newline.
pub const MAX_REPLY: usize = 512;

/// No text but a list of queues has more bytes.
pub(crate) const MAX_SHORT: usize = 128;

/// The most digits of a number.
pub(crate) const MAX_DIGITS: usize = 20;

/// The most digits of a message: two for each of its bytes.
pub(crate) const MAX_HEX: usize = 2 * ITEM_BYTES;

/// The most bytes of a message's text: its digits, between quotes.
pub(crate) const MAX_VALUE_BYTES: usize = 50;
