//! Calls that are looked at before and after, and made again where they were refused memory.

use crate::brokers::write_session;
use session::Session;
use std::alloc::Global;
use words::Refusal;

/// How often a call is made at most: once more than it can be refused where one allocation is.
pub(crate) const MOST_TRIES: u32 = 3;

/// Room for what can be seen, so that one allocation is mostly enough.
const SEEN_BYTES: usize = 16_384;

/// Room for what can be seen.
pub(crate) fn empty_text(alloc: Global) -> Result<String, Refusal> {
    for _ in 0..MOST_TRIES {
        if let Ok(text) = String::with_capacity(alloc, SEEN_BYTES) {
            return Ok(text);
        }
    }
    Err(Refusal::NoMemory)
}

/// All that can be seen of a session. What is refused memory here is none of the calls, and is made again unsaid.
pub(crate) fn seen(alloc: Global, session: &Session) -> Result<String, Refusal> {
    let mut text = empty_text(alloc)?;
    for _ in 0..MOST_TRIES {
        text.clear();
        if write_session(session, &mut text).is_ok() {
            return Ok(text);
        }
    }
    Err(Refusal::NoMemory)
}

/// Says that a call is made again, and whether what can be seen is as it was before. A line that cannot be printed is
/// missed in what is compared, so nobody is told of it here.
pub(crate) fn say_again<R: Print>(rt: &R, call: &str, is_same: bool) {
    let what = if is_same { "again" } else { "changed" };
    let _ = println!(rt; "{what}: {call}");
}
