//! The slots of a broker, one after the other.

ghost use Rattle.std.specs.Prelude.{◌≡◌, ◌<◌, replicate, IfOk, IfErr, OnOk, OnErr};
ghost use Rattle.std.specs.List.{list_any};
ghost use Rattle.named.specs.Booting.{AreBootWords, AreKept, AreSlotsBooted, IsBootedBy};
ghost use Rattle.named.specs.Each.{EachBecame, EachSlot, HasFullSlot, HasMoreRoom, HasOtherRoom, HasStopped};
ghost use Rattle.named.specs.Slots.{AreEffectsFew, HasEmptyHistory, HasRoomFor};
ghost use Rattle.named.specs.Rotating.{has_calls_in, items_of_each, AreBases, AreBegunAnew, AreQuiet};
ghost use Rattle.named.specs.declared.slot.Slot.TheVariants.{Closed};

use crate::slot::Slot;
use arena::{SLOTS, SlotId};
use directory::KeptBroker;
use persist::Memory;
use std::alloc::Global;
use words::{Refusal, Value};

/// Eight closed slots.
pub(crate) fn closed_slots(alloc: Global) -> Result<Vec<Slot>, Refusal>
    ensures closed { IfOk result (λ slots. slots.items ≡ replicate SLOTS Closed) }
    ensures errors { IfErr result (λ e. e ≡ Refusal.NoMemory) }
{
    let slots = [
        Slot::Closed,
        Slot::Closed,
        Slot::Closed,
        Slot::Closed,
        Slot::Closed,
        Slot::Closed,
        Slot::Closed,
        Slot::Closed,
    ];
    let Ok(slots) = Vec::from_array(alloc, slots) else {
        return Err(Refusal::NoMemory);
    };
    Ok(slots)
}

/// A slot of a memory that a broker begins on: if it is open, its queue begins on the kept words of its block.
fn boot_slot(
    alloc: Global,
    kept: &KeptBroker,
    slot: SlotId,
    memory: &Memory,
) -> Result<Slot, Refusal>
    requires slot { slot.0 < SLOTS }
    requires kept { AreKept memory.now.words kept.now.layout kept.now.directory }
    requires sound { AreBootWords memory.now.words.kept }
    ensures booted { IfOk result (IsBootedBy kept.now.layout memory.now.words kept.now.directory slot.0) }
    ensures errors { IfErr result (λ e. e ≡ Refusal.NoMemory) }
{
    match &kept.directory.queues()[slot.0 as usize] {
        None => Ok(Slot::Closed),
        Some(queue) => Slot::boot(alloc, &kept.layout, slot, queue.kind, memory),
    }
}

/// The slots of a memory that a broker begins on. They take what is kept of it. The given list is emptied and filled:
/// the list itself takes new memory only where it has no room for eight slots.
pub(crate) fn boot_each(
    mut slots: Vec<Slot>,
    kept: &KeptBroker,
    memory: &Memory,
) -> Result<Vec<Slot>, Refusal>
    requires kept { AreKept memory.now.words kept.now.layout kept.now.directory }
    requires sound { AreBootWords memory.now.words.kept }
    ensures booted { IfOk result (λ slots.
        AreSlotsBooted kept.now.layout memory.now.words kept.now.directory slots.items) }
    ensures errors { IfErr result (λ e. e ≡ Refusal.NoMemory) }
{
    let alloc = *slots.allocator();
    slots.clear();
    if slots.reserve_exact(SLOTS).is_err() {
        return Err(Refusal::NoMemory);
    }
    for slot in 0..SLOTS {
        let booted = boot_slot(alloc, kept, SlotId(slot as u8), memory)?;
        slots.push_reserved(booted);
    }
    Ok(slots)
}

/// Makes room for so many acts in the history of each open slot's queue.
pub(crate) fn reserve_each(slots: &mut [Slot], acts: usize) -> Result<(), Refusal>
    requires { EachSlot AreEffectsFew slots.old }
    ensures same { EachBecame HasMoreRoom slots.old slots.new }
    ensures room { OnOk result (EachSlot (HasRoomFor acts) slots.new) }
    ensures full { OnErr result (HasFullSlot slots.old acts) }
    ensures errors { IfErr result (λ e. e ≡ Refusal.NoMemory) }
{
    for slot in slots.iter_mut() {
        slot.make_room(acts)?;
    }
    Ok(())
}

/// The history of each open slot's queue, of which nothing happened yet, takes the room of that of the slot in its place
/// among the others, which are let go. What is left of those is their list.
pub(crate) fn take_rooms(slots: &mut [Slot], others: &mut Vec<Slot>, acts: usize)
    requires empty { EachSlot HasEmptyHistory slots.old }
    requires room { EachSlot (HasRoomFor acts) slots.old }
    ensures same { EachBecame HasOtherRoom slots.old slots.new }
    ensures room { EachSlot (HasRoomFor acts) slots.new }
{
    others.reverse();
    for slot in slots.iter_mut() {
        slot.take_room(others.pop(), acts);
    }
}

/// Each open slot's queue stops, where there is room for that in its history.
pub(crate) fn stop_each(slots: &mut [Slot])
    requires { EachSlot (HasRoomFor 1) slots.old }
    ensures { EachBecame HasStopped slots.old slots.new }
{
    for slot in slots.iter_mut() {
        slot.stop();
    }
}

/// Whether a client of any queue has a call under way.
pub(crate) fn have_calls(slots: &[Slot]) -> bool
    ensures { result ≡ list_any has_calls_in slots.now }
{
    slots.iter().any(|slot| slot.has_calls())
}

/// What the next history of each slot's queue would begin with; of a closed one, nothing.
pub(crate) fn prepare_each(slots: &Vec<Slot>, memory: &Memory) -> Result<Vec<Vec<Value>>, Refusal>
    requires { AreQuiet memory.now.words slots.now.items }
    ensures bases { IfOk result (λ bases. AreBases memory.now.words slots.now.items (items_of_each bases.items)) }
    ensures errors { IfErr result (λ e. e ≡ Refusal.NoMemory) }
{
    let alloc = *slots.allocator();
    let Ok(mut bases) = Vec::with_capacity(alloc, slots.len()) else {
        return Err(Refusal::NoMemory);
    };
    for slot in slots {
        let base = slot.prepare_rotation(alloc, memory)?;
        if bases.push(base).is_err() {
            return Err(Refusal::NoMemory);
        }
    }
    Ok(bases)
}

/// The history of each open slot's queue ends, and another begins with its base.
pub(crate) fn begin_each(slots: &mut [Slot], memory: &Memory, mut bases: Vec<Vec<Value>>)
    requires quiet { AreQuiet memory.now.words slots.old }
    requires bases { AreBases memory.now.words slots.old (items_of_each bases.items) }
    ensures { AreBegunAnew memory.now.words slots.old slots.new }
{
    while let Some(base) = bases.pop() {
        slots[bases.len()].begin_anew(memory, base);
    }
}
