//! The input that was read.

ghost use Rattle.std.specs.Prelude.{◌≤◌};
ghost use Rattle.engine.specs.declared.limits.TheConstants.{INPUT_BYTES};

use crate::limits::INPUT_BYTES;

/// Bytes that were read, and of which no use was made yet.
#[derive(Drop)]
pub struct Input {
    pub(crate) bytes: [u8; INPUT_BYTES],
    /// How many they are.
    pub(crate) len: usize,
    ghost within: { len ≤ INPUT_BYTES },
}
