//! Creations of a broker that follows a script.

ghost use Rattle.std.specs.Prelude.{◌≡◌, IfOk, IfSome, None};
ghost use Rattle.directory.specs.Directory.{HasQueue};
ghost use Rattle.broker_script.specs.Creating.{BeginsCreation, Creates, HasSomeQueue, IsBegunOn, IsCreatedOn, ShowsCreated};
ghost use Rattle.broker_script.specs.PutOff.{PutsOff};

use crate::player::Player;
use arena::SlotId;
use broker_lines::{Printed, Room};
use directory::{Name, Queue};
use playing::{Line, Unfollowed};
use std::alloc::Global;
use words::{Kind, Refusal};

impl Player {
    /// The queue in a slot that has one, while no recovery is under way.
    fn queue_in(&self, slot: SlotId) -> Queue
        requires ready { self.now.broker.recovery ≡ None }
        requires opened { HasSomeQueue self.now.broker.directory slot.0 }
        ensures { HasQueue self.now.broker.directory slot.0 result }
    {
        let places = self.session.broker().list().unwrap();
        places[slot.0 as usize].unwrap()
    }

    /// Shows the queue that a creation opened in a slot.
    fn show_created(&self, room: Room, slot: SlotId) -> Vec<Printed>
        requires ready { self.now.broker.recovery ≡ None }
        requires opened { HasSomeQueue self.now.broker.directory slot.0 }
        ensures line { ShowsCreated self.now slot result.items }
    {
        let queue = self.queue_in(slot);
        room.fill(Printed::Created {
            name: queue.name,
            slot,
            steps: self.creation,
        })
    }

    /// One step of the creation that is under way.
    fn create_step(&mut self) -> Result<Option<SlotId>, Refusal>
        ensures step { IsCreatedOn self.old result self.new }
        ensures opened { IfOk result
            (λ opened. IfSome opened (λ slot. HasSomeQueue self.new.broker.directory slot.0)) }
        ensures ready { IfOk result (λ opened. self.new.broker.recovery ≡ None) }
    {
        match self.session.create_step() {
            Err(refusal) => Err(refusal),
            Ok(opened) => {
                self.creation = self.creation.saturating_add(1);
                Ok(opened)
            }
        }
    }

    /// The creation that is under way goes on by at most so many steps, none of which takes memory.
    fn go_on_creating(&mut self, room: Room, most: u32) -> Vec<Printed>
        ensures creates { Creates most self.old result.items self.new }
    {
        for _ in 0..most {
            match self.create_step() {
                Err(refusal) => return room.fill(Printed::Whole(Line::Refused(refusal))),
                Ok(None) => {}
                Ok(Some(slot)) => return self.show_created(room, slot),
            }
        }
        room.fill(Printed::Creating)
    }

    /// The same, once there is room for its line.
    pub(crate) fn create(&mut self, alloc: Global, most: u32) -> Result<Vec<Printed>, Unfollowed>
        ensures creates { IfOk result (λ lines. Creates most self.old lines.items self.new) }
        ensures put_off { PutsOff self.old result self.new }
    {
        let room = Room::take(alloc)?;
        Ok(self.go_on_creating(room, most))
    }

    /// Begins a creation.
    fn begin(&mut self, name: &Name, kind: Kind) -> Result<(), Refusal>
        ensures { IsBegunOn self.old name.now kind result self.new }
    {
        match self.session.create(name.as_bytes(), kind) {
            Err(refusal) => Err(refusal),
            Ok(()) => {
                self.creation = 0;
                Ok(())
            }
        }
    }

    /// Begins a creation, which makes at most so many steps.
    pub(crate) fn begin_creation(
        &mut self,
        alloc: Global,
        name: &Name,
        kind: Kind,
        most: u32,
    ) -> Result<Vec<Printed>, Unfollowed>
        ensures begins { IfOk result (λ lines. BeginsCreation self.old name.now kind most lines.items self.new) }
        ensures put_off { PutsOff self.old result self.new }
    {
        let room = Room::take(alloc)?;
        match self.begin(name, kind) {
            Ok(()) => Ok(self.go_on_creating(room, most)),
            Err(refusal) => Ok(room.fill(Printed::Whole(Line::Refused(refusal)))),
        }
    }
}
