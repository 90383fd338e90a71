//! What a broker that follows a script is asked as a whole.

ghost use Rattle.std.specs.Prelude.{◌≡◌, ◌≤◌, ◌<◌, Some, None, IfOk, IfErr, length, slice_get};
ghost use Rattle.broker_script.specs.OnQueue.{IsToldLine};
ghost use Rattle.broker_script.specs.PutOff.{PutsOff};
ghost use Rattle.broker_script.specs.Transcript.{list_lines, place_lines, places_below, Evicts, Finds, Rotates, Tells};

use crate::player::Player;
use arena::{SLOTS, SlotId};
use broker_lines::{Printed, Room, append, one, refused};
use directory::{Name, Queue};
use playing::{Line, Unfollowed};
use std::alloc::Global;
use words::{Client, Refusal};

/// The queue in a slot, if there is one.
fn place(alloc: Global, slot: usize, places: &[Option<Queue>]) -> Result<Vec<Printed>, Refusal>
    requires slot { slot < length places.now }
    requires few { length places.now ≤ SLOTS }
    ensures lines { IfOk result (λ lines. lines.items ≡ place_lines slot (slice_get places.now slot)) }
    ensures errors { IfErr result (λ e. e ≡ Refusal.NoMemory) }
{
    match places[slot] {
        None => Ok(Vec::new(alloc)),
        Some(queue) => one(
            alloc,
            Printed::Place {
                slot: SlotId(slot as u8),
                queue,
            },
        ),
    }
}

/// The queues, in slot order.
fn places(alloc: Global, places: &[Option<Queue>]) -> Result<Vec<Printed>, Refusal>
    requires few { length places.now ≤ SLOTS }
    ensures lines { IfOk result (λ lines. lines.items ≡ places_below places.now (length places.now)) }
    ensures errors { IfErr result (λ e. e ≡ Refusal.NoMemory) }
{
    let mut lines = Vec::new(alloc);
    for slot in 0..places.len() {
        append(&mut lines, place(alloc, slot, places)?)?;
    }
    Ok(lines)
}

impl Player {
    /// The environment keeps a word.
    pub(crate) fn evict(&mut self, alloc: Global, word: u64) -> Result<Vec<Printed>, Unfollowed>
        ensures evicts { IfOk result (λ lines. Evicts self.old word lines.items self.new) }
        ensures put_off { PutsOff self.old result self.new }
    {
        let room = Room::take(alloc)?;
        match self.session.evict(word as usize) {
            Ok(change) => {
                let changed = change.is_some();
                Ok(room.fill(Printed::Whole(Line::Evicted { word, changed })))
            }
            Err(refusal) => Ok(room.fill(Printed::Whole(Line::Refused(refusal)))),
        }
    }

    /// The histories of all queues end, and others begin.
    pub(crate) fn rotate(&mut self, alloc: Global) -> Result<Vec<Printed>, Unfollowed>
        ensures rotates { IfOk result (λ lines. Rotates self.old lines.items self.new) }
        ensures put_off { PutsOff self.old result self.new }
    {
        let room = Room::take(alloc)?;
        match self.session.rotate() {
            Ok(()) => Ok(room.fill(Printed::Rotated)),
            Err(refusal) => refused(room, false, refusal),
        }
    }

    /// The lines of the queues.
    fn listed(&self, alloc: Global) -> Result<Vec<Printed>, Refusal>
        ensures lines { IfOk result (λ lines. lines.items ≡ list_lines self.now.broker) }
        ensures errors { IfErr result (λ e. e ≡ Refusal.NoMemory) }
    {
        match self.session.broker().list() {
            Err(refusal) => one(alloc, Printed::Whole(Line::Refused(refusal))),
            Ok(all) => {
                let rows = places(alloc, all)?;
                let mut lines = one(alloc, Printed::Queues(rows.len()))?;
                append(&mut lines, rows)?;
                Ok(lines)
            }
        }
    }

    /// Shows the queues.
    pub(crate) fn list(&self, alloc: Global) -> Result<Vec<Printed>, Unfollowed>
        ensures lines { IfOk result (λ lines. lines.items ≡ list_lines self.now.broker) }
        ensures put_off { PutsOff self.now result self.now }
    {
        match self.listed(alloc) {
            Ok(lines) => Ok(lines),
            Err(_) => Err(Unfollowed::PutOff),
        }
    }

    /// Shows which slot a queue has.
    pub(crate) fn find(&self, alloc: Global, name: &Name) -> Result<Vec<Printed>, Unfollowed>
        ensures finds { IfOk result (λ lines. Finds self.now name.now lines.items self.now) }
        ensures put_off { PutsOff self.now result self.now }
    {
        let room = Room::take(alloc)?;
        match self.place(name) {
            Ok(slot) => Ok(room.fill(Printed::Found { name: *name, slot })),
            Err(refusal) => Ok(room.fill(Printed::Whole(Line::Refused(refusal)))),
        }
    }

    /// The line of what a client was told last.
    fn told_line(&self, name: &Name, client: Client) -> Line
        ensures { IsToldLine self.now.broker name.now client result }
    {
        match self.place(name) {
            Err(refusal) => Line::Refused(refusal),
            Ok(slot) => match self.session.broker().told(slot, client) {
                Ok(told) => Line::Told { client, told },
                Err(refusal) => Line::Refused(refusal),
            },
        }
    }

    /// Shows what a client was told last.
    pub(crate) fn tell(
        &self,
        alloc: Global,
        name: &Name,
        client: Client,
    ) -> Result<Vec<Printed>, Unfollowed>
        ensures tells { IfOk result (λ lines. Tells self.now name.now client lines.items self.now) }
        ensures put_off { PutsOff self.now result self.now }
    {
        let room = Room::take(alloc)?;
        let line = self.told_line(name, client);
        Ok(room.fill(Printed::Of { name: *name, line }))
    }
}
