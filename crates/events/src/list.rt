//! The events of a history.

ghost use Rattle.std.specs.Prelude.{◌≡◌, ◌+◌, ◌^◌, ◌<◌, ◌≤◌, ◌++◌, [], ◌∷◌, Some, length, slice_get, min, IfSome, IfOk, OnOk, OnErr};

use crate::event::Event;
use crate::kept::{Kept, event_at, keep_ready};
use std::alloc::{AllocError, Global};
use std::marker::Model;
use words::Reports;

/// Events in a row, with room for some more. What Readys tell lies apart, so that the other events are small.
#[derive(Drop)]
pub struct Events {
    kept: Vec<Kept>,
    tellings: Vec<Reports>,
}

impl Model for Events {
    ghost use Rattle.std.specs.Prelude.{◌-◌, min, All, vec_len, vec_capacity};
    ghost use Rattle.events.specs.declared.event.Event.{Event};
    ghost use Rattle.events.specs.Sequence.{Stored};
    ghost use Rattle.events.specs.Kept.{events_of, IsToldIn};

    ghost Value = { Stored Event };

    ghost view = { λ e. record {
      items = events_of e.tellings.items e.kept.items;
      room = min (vec_capacity e.kept - vec_len e.kept) (vec_capacity e.tellings - vec_len e.tellings);
    } };

    ghost invariant = { λ e. All (λ k. IsToldIn e.tellings.items k) e.kept.items };
}

impl Events {
    /// No events, and no room.
    pub fn new(alloc: Global) -> Self
        ensures { result.items ≡ [] }
    {
        Events {
            kept: Vec::new(alloc),
            tellings: Vec::new(alloc),
        }
    }

    /// No events, and room for so many, as many of them Readys as that.
    pub fn with_room(alloc: Global, events: usize, readys: usize) -> Result<Self, AllocError>
        ensures items { IfOk result (λ e. e.items ≡ []) }
        ensures room { IfOk result (λ e. min events readys ≤ e.room) }
    {
        Ok(Events {
            kept: Vec::with_capacity(alloc, events)?,
            tellings: Vec::with_capacity(alloc, readys)?,
        })
    }

    /// How many events there are.
    pub fn len(&self) -> usize
        ensures { result ≡ length self.now.items }
    {
        self.kept.len()
    }

    /// The event at a place.
    pub fn at(&self, place: usize) -> Event
        requires { place < length self.now.items }
        ensures event { slice_get self.now.items place ≡ Some result }
        ensures few { place + 1 < 2 ^ 64 }
    {
        event_at(&self.tellings, &self.kept, place)
    }

    /// The event at a place, if one is there.
    pub fn get(&self, place: usize) -> Option<Event>
        ensures event { result ≡ slice_get self.now.items place }
        ensures few { IfSome result (λ _. place + 1 < 2 ^ 64) }
    {
        if place < self.kept.len() {
            Some(event_at(&self.tellings, &self.kept, place))
        } else {
            None
        }
    }

    /// Adds an event at the end, where there is room for it.
    pub fn push(&mut self, event: Event)
        requires { 0 < self.old.room }
        ensures items { self.new.items ≡ self.old.items ++ event ∷ [] }
        ensures room { self.old.room ≤ self.new.room + 1 }
    {
        match event {
            Event::Call {
                client,
                number,
                call,
            } => {
                self.kept.push_reserved(Kept::Call {
                    client,
                    number,
                    call,
                });
            }
            Event::Return { client, reply } => {
                self.kept.push_reserved(Kept::Return { client, reply });
            }
            Event::Crash => self.kept.push_reserved(Kept::Crash),
            Event::Ready { told } => {
                let kept = keep_ready(&mut self.tellings, told);
                self.kept.push_reserved(kept);
            }
        }
    }

    /// Makes room for so many more events, each of which may be a Ready.
    pub fn reserve(&mut self, more: usize) -> Result<(), AllocError>
        ensures items { self.new.items ≡ self.old.items }
        ensures room { OnOk result (more ≤ self.new.room) }
        ensures kept { self.old.room ≤ self.new.room }
        ensures full { OnErr result (self.old.room < more) }
    {
        self.kept.reserve(more)?;
        self.tellings.reserve(more)
    }

    /// Drops the events, and keeps their room.
    pub fn clear(&mut self)
        ensures items { self.new.items ≡ [] }
        ensures room { self.old.room ≤ self.new.room }
    {
        self.kept.clear();
        self.tellings.clear();
    }
}
