//! How long the parts of a journal are.

use persist::HEADER_BYTES;

/// What every journal begins with: its magic, and that of an image.
pub(crate) const FIRST_BYTES: [u8; 8] = *b"PQJ1PQW2";

/// How many bytes the magic has, `PQJ1`.
pub(crate) const MAGIC_BYTES: usize = 4;

/// How many bytes a key has.
pub const KEY_BYTES: usize = 8;

/// Where the key would end if there were no words: before it stand the magic, and the magic and the count of an image.
pub(crate) const KEY_END: usize = MAGIC_BYTES + HEADER_BYTES + KEY_BYTES;

/// How many bytes a sum has.
pub(crate) const SUM_BYTES: usize = 8;

/// How many bytes of a frame stand before its changes: the sum before it, how many bytes of the file were kept, and how
/// many changes there are.
pub(crate) const FRONT_BYTES: usize = 20;

/// How many bytes a change has in a frame.
pub const CHANGE_BYTES: usize = 12;

/// The most changes of one frame.
pub const MAX_CHANGES: usize = 16_777_216;
