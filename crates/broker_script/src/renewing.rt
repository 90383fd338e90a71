//! Renewals of a queue of a broker that follows a script.

ghost use Rattle.std.specs.Prelude.{IfOk};
ghost use Rattle.broker_script.specs.PutOff.{PutsOff};
ghost use Rattle.broker_script.specs.Renewing.{RenewsIn, Renews};

use crate::player::Player;
use arena::SlotId;
use broker_lines::{Printed, Room, refused};
use directory::Name;
use playing::{Line, Unfollowed};
use std::alloc::Global;

impl Player {
    /// The queue in a slot is put into fresh records, and everything stops.
    fn renew_in(&mut self, room: Room, slot: SlotId) -> Result<Vec<Printed>, Unfollowed>
        ensures renews { IfOk result (λ lines. RenewsIn self.old slot.0 lines.items self.new) }
        ensures put_off { PutsOff self.old result self.new }
    {
        match self.session.renew(slot) {
            Ok(()) => {
                self.recovery = 0;
                Ok(room.fill(Printed::Renewed))
            }
            Err(refusal) => refused(room, false, refusal),
        }
    }

    /// The queue of this name is put into fresh records, and everything stops.
    pub(crate) fn renew(&mut self, alloc: Global, name: &Name) -> Result<Vec<Printed>, Unfollowed>
        ensures renews { IfOk result (λ lines. Renews self.old name.now lines.items self.new) }
        ensures put_off { PutsOff self.old result self.new }
    {
        let room = Room::take(alloc)?;
        match self.place(name) {
            Ok(slot) => self.renew_in(room, slot),
            Err(refusal) => Ok(room.fill(Printed::Whole(Line::Refused(refusal)))),
        }
    }
}
