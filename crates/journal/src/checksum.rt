//! The sum that stands behind the head of a journal and behind each frame.

ghost use Rattle.std.specs.Prelude.{◌≡◌};
ghost use Rattle.journal.specs.Sum.{sum_of};

use crate::format::{KEY_BYTES, SUM_BYTES};
use std::hash::{DefaultHasher, Hasher};

/// The sum of the bytes under the key.
pub(crate) fn checksum(key: &[u8; KEY_BYTES], bytes: &[u8]) -> [u8; SUM_BYTES]
    ensures { result ≡ sum_of key.now bytes.now }
{
    let mut hasher = DefaultHasher::new();
    hasher.write(key);
    hasher.write(bytes);
    1.max(hasher.finish()).to_le_bytes()
}
