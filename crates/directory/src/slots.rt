//! The directory in hand: what each slot has.

ghost use Rattle.std.specs.Prelude.{◌≡◌, ◌↔◌, ℕ, ◌<◌, IsTrue, IfSome, IfNone, Some, None, replicate, slice_set};
ghost use Rattle.directory.specs.Directory.{IsDirectory, IsFree, IsLowestFree, IsNamed, HasName, IsQueueNamed};

use crate::name::Name;
use crate::queue::{Places, Queue};
use arena::{SLOTS, SlotId};
use std::marker::Model;

/// What each slot has: no two have queues of one name.
#[derive(Clone, Copy)]
pub struct Directory {
    places: Places,
}

impl Model for Directory {
    ghost use Rattle.std.specs.Prelude.{List, Option};
    ghost use Rattle.directory.specs.Directory.{IsDirectory};
    ghost use Rattle.directory.specs.declared.queue.Queue.{Queue};

    ghost Value = { List (Option Queue) };

    ghost view = { λ d. d.places };

    ghost invariant = { λ d. IsDirectory d.places };

    ghost inverse = { λ places. record { places = places } };
}

/// Whether a slot has a queue of this name.
fn is_named(queue: &Option<Queue>, name: &Name) -> bool
    ensures { IsTrue result ↔ IsQueueNamed queue.now name.now }
{
    match queue {
        Some(queue) => queue.name == *name,
        None => false,
    }
}

impl Directory {
    /// A directory with no queue.
    pub fn new() -> Self
        ensures free { result ≡ replicate SLOTS None }
        ensures directory { IsDirectory result }
    {
        Directory {
            places: [None; SLOTS],
        }
    }

    /// The directory of these places.
    pub fn of(places: Places) -> Self
        requires { IsDirectory places }
        ensures { result ≡ places }
    {
        Directory { places }
    }

    /// What each slot has.
    pub fn queues(&self) -> &Places
        ensures places { result.now ≡ self.now }
        ensures directory { IsDirectory self.now }
    {
        &self.places
    }

    /// The slot with the queue of this name, if there is one.
    pub fn find(&self, name: &Name) -> Option<SlotId>
        ensures found { IfSome result (λ slot. IsNamed self.now slot.0 name.now) }
        ensures none { IfNone result (HasName self.now name.now → ⊥) }
    {
        for slot in 0..SLOTS {
            if is_named(&self.places[slot], name) {
                return Some(SlotId(slot as u8));
            }
        }
        None
    }

    /// Whether a slot has a queue of this name.
    pub fn has(&self, name: &Name) -> bool
        ensures { IsTrue result ↔ HasName self.now name.now }
    {
        self.find(name).is_some()
    }

    /// The lowest slot that has no queue, if there is one.
    pub fn lowest_free(&self) -> Option<SlotId>
        ensures found { IfSome result (λ slot. IsLowestFree self.now slot.0) }
        ensures none { IfNone result ((slot : ℕ) → IsFree self.now slot → ⊥) }
    {
        for slot in 0..SLOTS {
            if self.places[slot].is_none() {
                return Some(SlotId(slot as u8));
            }
        }
        None
    }

    /// Puts a queue into a free slot.
    pub fn open(&mut self, slot: SlotId, queue: Queue)
        requires free { IsFree self.old slot.0 }
        requires new_name { HasName self.old queue.name → ⊥ }
        ensures opened { self.new ≡ slice_set self.old slot.0 (Some queue) }
        ensures directory { IsDirectory self.new }
    {
        self.places[slot.0 as usize] = Some(queue);
    }
}
