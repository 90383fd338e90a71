//! Sessions over new brokers.

use arena::SlotId;
use named::Broker;
use session::Session;
use std::alloc::Global;
use words::{Kind, Refusal};

/// The slot of the first queue, of which most tests have no other.
pub const A: SlotId = SlotId(0);

/// More steps than a creation takes.
const MOST_STEPS: u32 = 100;

/// A session over a new broker, which has no queue.
pub fn new_session(alloc: Global, clients: u32, records: u32) -> Result<Session, Refusal> {
    Ok(Session::open(Broker::make(alloc, clients, records)?))
}

/// A new queue, in the slot that the last step of its creation answers.
pub fn create(session: &mut Session, name: &[u8], kind: Kind) -> Result<SlotId, Refusal> {
    session.create(name, kind)?;
    for _ in 0..MOST_STEPS {
        if let Some(slot) = session.create_step()? {
            return Ok(slot);
        }
    }
    Err(Refusal::NoQueue)
}

/// A session over a new broker with one queue, `a` in slot 0.
pub fn with_queue(
    alloc: Global,
    kind: Kind,
    clients: u32,
    records: u32,
) -> Result<Session, Refusal> {
    let mut session = new_session(alloc, clients, records)?;
    create(&mut session, b"a", kind)?;
    Ok(session)
}
