//! What is seen of a broker that is served.

ghost use Rattle.std.specs.Prelude.{◌≡◌, IfOk};
ghost use Rattle.workers.specs.Moments.{GoesOnLater};
ghost use Rattle.server.specs.Seen.{AreHeldSince, HoldsItems, keeping_of};

use crate::connections::{InJournal, InMemory};
use arena::{SLOTS, SlotId};
use directory::Queue;
use gauges::{BrokerGauges, JournalGauges, Keeping, QueueGauges};
use journal_file::Storage;
use lasting::{Policy, Settling};
use std::alloc::AllocError;
use std::sync::Wait;
use words::Refusal;
use workers::{Marked, Naming, Shared};

/// What is seen of a broker that is served.
pub(crate) trait Seen {
    /// What its queues hold. At an `Err` there was no memory to count.
    fn broker<R: Wait>(&self, rt: &R) -> Result<BrokerGauges, AllocError>;

    /// How its journal goes, if it has one.
    fn journal(&self) -> Option<JournalGauges>;
}

/// What the queue of a slot holds, and a mark of the session that holds so much, in the place of an earlier one.
fn queue_seen<J: Naming, R: Wait>(
    rt: &R,
    shared: &Shared<J>,
    slot: SlotId,
    queue: Queue,
    before: Marked<J>,
) -> (Marked<J>, Result<QueueGauges, Refusal>)
    ensures items { IfOk result.1 (HoldsItems result.0 slot.0) }
    ensures queue { IfOk result.1 (λ seen. seen.queue ≡ queue) }
    ensures later { GoesOnLater before result.0 }
{
    let (marked, usage) = shared.usage(rt, slot, before);
    let seen = match usage {
        Ok(usage) => Ok(QueueGauges {
            queue,
            items: usage.items as u64,
            clients: u64::from(usage.clients),
            records: u64::from(usage.records),
        }),
        Err(refusal) => Err(refusal),
    };
    (marked, seen)
}

/// What the queues of a shared broker hold. Each is looked at by itself, so that no look holds the others up for long.
pub(crate) fn broker_seen<J: Naming, R: Wait>(
    rt: &R,
    shared: &Shared<J>,
) -> Result<BrokerGauges, AllocError>
    ensures { IfOk result (λ seen. AreHeldSince J.first seen.queues) }
{
    let (mut marked, listed) = shared.list(rt, shared.mark_now(rt));
    let mut seen = BrokerGauges {
        ready: listed.is_ok(),
        queues: [None; SLOTS],
    };
    let Ok(places) = listed else {
        return Ok(seen);
    };
    for slot in 0..SLOTS {
        if let Some(queue) = places[slot] {
            let (next, held) = queue_seen(rt, shared, SlotId(slot as u8), queue, marked);
            marked = next;
            match held {
                Ok(held) => seen.queues[slot] = Some(held),
                Err(Refusal::NoMemory) => return Err(AllocError),
                Err(_) => {}
            }
        }
    }
    Ok(seen)
}

/// How it is told when a journal is kept.
fn keeping_of(policy: Policy) -> Keeping
    ensures { result ≡ keeping_of policy }
{
    match policy {
        Policy::Always => Keeping::Always,
        Policy::EachSecond => Keeping::EachSecond,
        Policy::Never => Keeping::Never,
    }
}

impl<'a, J: Naming> Seen for InMemory<'a, J> {
    fn broker<R: Wait>(&self, rt: &R) -> Result<BrokerGauges, AllocError> {
        broker_seen(rt, self.shared)
    }

    fn journal(&self) -> Option<JournalGauges> {
        None
    }
}

impl<'a, J: Naming + Settling, S: Storage + Drop> Seen for InJournal<'a, J, S> {
    fn broker<R: Wait>(&self, rt: &R) -> Result<BrokerGauges, AllocError> {
        broker_seen(rt, self.journal.shared())
    }

    fn journal(&self) -> Option<JournalGauges> {
        let counts = self.journal.counts();
        Some(JournalGauges {
            keeping: keeping_of(self.journal.policy()),
            bytes: counts.size,
            kept: counts.kept,
            batches: counts.batches,
            failures: counts.failures,
            failed: self.journal.has_failed(),
        })
    }
}
