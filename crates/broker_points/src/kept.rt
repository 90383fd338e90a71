//! Checks of a broker once recovery has ended.

ghost use Rattle.std.specs.Prelude.{◌≡◌, ◌↔◌, ◌<◌, IsTrue, IsSome, Some, IfOk, IfErr, slice_get};
ghost use Rattle.directory.specs.declared.queue.Queue.{Queue as Place};
ghost use Rattle.named.specs.Brokers.{world_at, IsWell};
ghost use Rattle.broker_script.specs.Standing.{QueuesStay};

use arena::{SLOTS, SlotId};
use directory::{Name, Places, Queue};
use history::check_content;
use named::Broker;
use std::alloc::Global;
use words::{Kind, Refusal};

/// Whether two names are the same.
fn is_same_name(name: &Name, other: &Name) -> bool
    ensures { IsTrue result ↔ (name.now ≡ other.now) }
{
    *name == *other
}

/// Whether two kinds are the same.
fn is_same_kind(kind: Kind, other: Kind) -> bool
    ensures { IsTrue result ↔ (kind ≡ other) }
{
    matches!(
        (kind, other),
        (Kind::Durable, Kind::Durable) | (Kind::Log, Kind::Log)
    )
}

/// Whether two queues have the same name and are of the same kind.
fn is_same(queue: &Queue, other: &Queue) -> bool
    ensures { IsTrue result ↔ (queue.now ≡ other.now) }
{
    is_same_name(&queue.name, &other.name) && is_same_kind(queue.kind, other.kind)
}

/// Whether the queue that was known in a slot, if one was, is there, under its name and of its kind.
fn is_kept(known: &Option<Queue>, place: &Option<Queue>) -> bool
    ensures { IsTrue result ↔ ((queue : Place) → known.now ≡ Some queue → place.now ≡ Some queue) }
{
    match (known, place) {
        (None, _) => true,
        (Some(queue), Some(other)) => is_same(queue, other),
        (Some(_), None) => false,
    }
}

/// Whether each queue that was known is there.
pub(crate) fn are_kept(known: &Places, places: &Places) -> bool
    ensures { IsTrue result ↔ QueuesStay known.now places.now }
{
    for slot in 0..SLOTS {
        if !is_kept(&known[slot], &places[slot]) {
            return false;
        }
    }
    true
}

/// Whether the order in which the calls of the queue in a slot took effect explains all that happened to it, and its
/// replay leaves what the queue holds.
fn is_explained(alloc: Global, broker: &Broker, slot: SlotId) -> Result<bool, Refusal>
    requires open { IsSome (world_at broker.now slot.0) }
    ensures explained { IfOk result (λ ok. IsTrue ok) }
    ensures errors { IfErr result (λ e. e ≡ Refusal.NoMemory) }
{
    let content = broker.content(slot)?;
    let order = broker.order(slot)?;
    let history = broker.history(slot)?;
    check_content(alloc, history, &order, &content)
}

/// Whether so it is of the queue in a slot, if the slot has one.
fn is_place_explained(
    alloc: Global,
    broker: &Broker,
    slot: usize,
    place: &Option<Queue>,
) -> Result<bool, Refusal>
    requires well { IsWell broker.now }
    requires small { slot < SLOTS }
    requires place { slice_get broker.now.directory slot ≡ Some place.now }
    ensures explained { IfOk result (λ ok. IsTrue ok) }
    ensures errors { IfErr result (λ e. e ≡ Refusal.NoMemory) }
{
    match place {
        None => Ok(true),
        Some(_) => is_explained(alloc, broker, SlotId(slot as u8)),
    }
}

/// Whether so it is of each queue.
pub(crate) fn are_explained(
    alloc: Global,
    broker: &Broker,
    places: &Places,
) -> Result<bool, Refusal>
    requires well { IsWell broker.now }
    requires places { places.now ≡ broker.now.directory }
    ensures explained { IfOk result (λ ok. IsTrue ok) }
    ensures errors { IfErr result (λ e. e ≡ Refusal.NoMemory) }
{
    for slot in 0..SLOTS {
        if !is_place_explained(alloc, broker, slot, &places[slot])? {
            return Ok(false);
        }
    }
    Ok(true)
}
