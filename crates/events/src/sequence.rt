//! Lists that histories and orders are made of.

ghost use Rattle.std.specs.Prelude.{◌≡◌, []};

use std::alloc::Global;
use std::marker::Model;

/// Items in a row, with room for some more.
#[derive(Drop)]
pub struct Sequence<T> {
    items: Vec<T>,
}

impl<T> Model for Sequence<T> {
    ghost use Rattle.std.specs.Prelude.{◌-◌, vec_len, vec_capacity};
    ghost use Rattle.events.specs.Sequence.{Stored};

    ghost Value = { Stored T };

    ghost view = { λ s. record { items = s.items.items; room = vec_capacity s.items - vec_len s.items } };
}

impl<T> Sequence<T> {
    /// No items, and no room.
    pub fn new(alloc: Global) -> Self
        ensures { result.items ≡ [] }
    {
        Sequence {
            items: Vec::new(alloc),
        }
    }

    /// The items of a vector, in its memory.
    pub fn from_vec(items: Vec<T>) -> Self
        ensures { result.items ≡ items.items }
    {
        Sequence { items }
    }

    /// A vector of the items, in their memory.
    pub fn into_vec(self) -> Vec<T>
        ensures { result.items ≡ self.items }
    {
        self.items
    }

    /// The items.
    pub fn as_slice(&self) -> &[T]
        ensures { result.now ≡ self.now.items }
    {
        self.items.as_slice()
    }
}
