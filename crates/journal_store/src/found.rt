//! What the bytes of a journal's file are taken for.

ghost use Rattle.std.specs.Prelude.{IfOk};
ghost use Rattle.journal_store.specs.Found.{EndsAt, IsFoundIn};

use crate::fault::Fault;
use journal::{Reading, hides_kept_frame};
use std::alloc::Global;

/// What a file has.
#[derive(Drop)]
pub struct Found {
    /// The words that its journal leaves.
    pub words: Vec<u64>,
    /// How many bytes of a torn frame follow it, which are left out. The zeros behind them are room for more.
    pub torn: usize,
}

/// How many of these bytes there are up to the last one that is not 0.
fn without_zeros(bytes: &[u8]) -> usize
    ensures { EndsAt bytes.now result }
{
    let mut end = bytes.len();
    while end > 0 && bytes[end - 1] == 0 {
        end -= 1;
    }
    end
}

/// The words of these bytes. A torn tail is left out, unless bytes of it were kept: then they are damaged (BadSum).
pub fn found_in(alloc: Global, bytes: &[u8]) -> Result<Found, Fault>
    ensures { IfOk result (IsFoundIn bytes.now) }
{
    let Reading { key, words, cut } = journal::read(alloc, bytes)?;
    // A tail is never longer than the bytes.
    let end = bytes.len().saturating_sub(cut);
    let torn = without_zeros(&bytes[end..]);
    if torn > 0 && hides_kept_frame(&key, bytes, end) {
        return Err(Fault::BadSum);
    }
    Ok(Found { words, torn })
}
