//! What tests share: what they draw, how far the calls that they interrupt have come, what they do with brokers and
//! sessions, and what they look at.
#![tactic(auto)]

ghost use Rattle.std.specs.Prelude.{◌≡◌, slice_get, true, IfErr, IfOk};
ghost use Rattle.named.specs.Brokers.{world_at};
ghost use Rattle.named.specs.Slots.{IsWhyUnread};
ghost use Rattle.test_support.specs.Calls.{caller_of};

mod draws;
mod items;
pub mod sessions;
pub mod steps;
pub mod told;

use arena::{SLOTS, SlotId};
pub use draws::below;
use history::{Event, Events, check_content};
pub use items::{Said, Wish, are_items, item, number_of};
use named::Broker;
use std::alloc::Global;
use words::Refusal;

/// Whether the order of the slot's queue explains its history, and the queue holds what its replay leaves, by the
/// checker: so it is of every broker. It is refused, in this order, where the slot is closed (NoQueue), and for want of
/// memory (NoMemory).
pub fn is_explained(alloc: Global, broker: &Broker, slot: SlotId) -> Result<bool, Refusal>
    ensures right { IfOk result (λ right. right ≡ true) }
    ensures errors { IfErr result (IsWhyUnread (world_at broker.now slot.0)) }
{
    let order = broker.order(slot)?;
    let content = broker.content(slot)?;
    check_content(alloc, broker.history(slot)?, &order, &content)
}

/// Whether each queue of the broker is explained. It is refused for want of memory alone (NoMemory).
pub fn are_explained(alloc: Global, broker: &Broker) -> Result<bool, Refusal>
    ensures right { IfOk result (λ right. right ≡ true) }
    ensures errors { IfErr result (λ refusal. refusal ≡ Refusal.NoMemory) }
{
    let mut right = true;
    for slot in 0..SLOTS as u8 {
        right &= match is_explained(alloc, broker, SlotId(slot)) {
            Err(Refusal::NoQueue) => true,
            explained => explained?,
        };
    }
    Ok(right)
}

/// The client and the number of the call at this place of a history, if there is one.
pub fn call_at(events: &Events, place: usize) -> Option<(usize, u64)>
    ensures { result ≡ caller_of (slice_get events.now.items place) }
{
    match events.get(place) {
        Some(Event::Call { client, number, .. }) => Some((client.0 as usize, number)),
        _ => None,
    }
}
