//! A rotation of a broker: the histories of all its queues end, and others begin.

ghost use Rattle.std.specs.Prelude.{◌≡◌, ◌<◌, ◌≤◌, ℕ, Ok, Err, OnErr};
ghost use Rattle.interleave.specs.Calls.{is_no_memory};
ghost use Rattle.named.specs.Brokers.{room_at};
ghost use Rattle.named.specs.Promises.{KeepsPromises};
ghost use Rattle.named.specs.Rotating.{IsRotated, rotate_result};

use crate::broker::Broker;
use crate::slots::{begin_each, have_calls, prepare_each};
use words::Refusal;

impl Broker {
    /// The histories of all queues end, and others begin: each one's base is what its kept words hold and tell. Words
    /// and floors of numbers stay. All memory is taken before any history ends. It is refused, in this order, while
    /// recovery is under way (NotReady), where a creation is or a call in any queue (Busy), and for want of memory
    /// (NoMemory), and then nothing changed.
    pub fn rotate(&mut self) -> Result<(), Refusal>
        ensures result { result ≡ rotate_result (is_no_memory result) self.old }
        ensures rotated { result ≡ Ok tt → IsRotated self.old self.new }
        ensures same { OnErr result (self.new ≡ self.old) }
        ensures room { (slot : ℕ) → room_at self.old slot ≤ room_at self.new slot }
        ensures promises { KeepsPromises self.new }
    {
        self.check_ready()?;
        if self.creation.is_some() || have_calls(&self.slots) {
            return Err(Refusal::Busy);
        }
        let bases = prepare_each(&self.slots, &self.memory)?;
        begin_each(&mut self.slots, &self.memory, bases);
        Ok(())
    }
}
