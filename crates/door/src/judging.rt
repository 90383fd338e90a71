//! What becomes of whoever says a first line.

ghost use Rattle.std.specs.Prelude.{IfOk};
ghost use Rattle.door.specs.Judging.{IsJudged};

use crate::hello::line_says;
use crate::secret::Secret;
use crate::standing::Welcome;
use engine::MAX_LINE;
use std::alloc::{AllocError, Global};

/// What becomes of whoever says a first line.
#[derive(Drop)]
pub enum Entry {
    /// It says the secret: its connection may come to a desk.
    Welcomed(Welcome),
    Denied,
}

/// Judges a first line, without its newline: welcome is whoever says the secret in a line of at most
/// [`MAX_LINE`] bytes, and nobody else. At an `Err` memory was refused.
pub fn judge(alloc: Global, line: &[u8], secret: &Secret) -> Result<Entry, AllocError>
    ensures { IfOk result (IsJudged secret.now line.now) }
{
    if line.len() > MAX_LINE {
        return Ok(Entry::Denied);
    }
    if line_says(alloc, line, secret)? {
        return Ok(Entry::Welcomed(Welcome::new()));
    }
    Ok(Entry::Denied)
}
