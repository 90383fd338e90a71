//! Limits.

/// The most bytes of a line that is read.
pub const MAX_LINE: usize = 512;

/// The bytes that are kept of a line whose end did not come yet: one too many tells that the line is too long.
pub(crate) const KEPT_BYTES: usize = MAX_LINE + 1;

/// The bytes of input that are held at once.
pub(crate) const INPUT_BYTES: usize = 8_192;

/// The bytes of replies that are held at once.
pub(crate) const OUTPUT_BYTES: usize = 8_192;

/// The end of a line.
pub(crate) const NEWLINE: u8 = b'\n';
