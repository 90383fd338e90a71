//! How the directory is read again after a crash.

ghost use Rattle.std.specs.Prelude.{◌≡◌, ◌<◌, ◌≤◌, length};
ghost use Rattle.arena.specs.Broker.{broker_size};
ghost use Rattle.directory.specs.Step.{after_one, value_found};
ghost use Rattle.directory.specs.Queue.{queue_of};
ghost use Rattle.directory.specs.Recovery.{boot_recovery, slot_at, access_of, past_slot, goes_on_at, gate_found, queue_found, recovered};

use crate::places::load_at;
use crate::queue::{Places, queue_of};
use arena::{BrokerLayout, BrokerPlace, OPEN_GATE, SLOTS, SlotId};
use persist::WordMemory;
use stepper::After;

/// Which word of which slot a recovery is about to load, and what it has loaded of that slot.
#[derive(Clone, Copy)]
pub enum DirectoryPoint {
    LoadGate {
        slot: SlotId,
    },
    LoadFirstName {
        slot: SlotId,
    },
    LoadSecondName {
        slot: SlotId,
        first: u64,
    },
    LoadKind {
        slot: SlotId,
        first: u64,
        second: u64,
    },
}

/// A recovery of the directory under way: what it has found so far, and what it is about to load.
#[derive(Clone, Copy)]
pub struct DirectoryRecovery {
    pub(crate) places: Places,
    pub(crate) at: DirectoryPoint,
}

/// What a step of a directory's recovery did.
#[derive(Clone, Copy)]
pub struct Recovered {
    /// The slot whose gate it found open just now.
    pub opened: Option<SlotId>,
    /// What comes next: it goes on, or answers what each slot has.
    pub after: After<DirectoryRecovery, Places>,
}

impl DirectoryRecovery {
    /// Where the recovery of a directory begins.
    pub fn boot() -> Self
        ensures { result ≡ boot_recovery }
    {
        DirectoryRecovery {
            places: [None; SLOTS],
            at: DirectoryPoint::LoadGate { slot: SlotId(0) },
        }
    }

    /// One step: exactly one access, a load. There are [`crate::MIN_DIRECTORY_STEPS`] to
    /// [`crate::MAX_DIRECTORY_STEPS`].
    pub fn step<M: WordMemory>(self, layout: &BrokerLayout, memory: &mut M) -> Recovered
        requires slot { slot_at self.at < SLOTS }
        requires room { broker_size layout.now ≤ length (M.words memory.old).cached }
        ensures one_access { M.words memory.new ≡ after_one layout.now (access_of self) (M.words memory.old) }
        ensures lent { M.lent memory.new ≡ M.lent memory.old }
        ensures next { result ≡ recovered self (value_found layout.now (access_of self) (M.words memory.old)) }
    {
        match self.at {
            DirectoryPoint::LoadGate { slot } => {
                let gate = load_at(layout, memory, BrokerPlace::Gate(slot));
                self.past_gate(slot, gate)
            }
            DirectoryPoint::LoadFirstName { slot } => {
                let first = load_at(layout, memory, BrokerPlace::FirstName(slot));
                self.going_on(DirectoryPoint::LoadSecondName { slot, first })
            }
            DirectoryPoint::LoadSecondName { slot, first } => {
                let second = load_at(layout, memory, BrokerPlace::SecondName(slot));
                self.going_on(DirectoryPoint::LoadKind {
                    slot,
                    first,
                    second,
                })
            }
            DirectoryPoint::LoadKind {
                slot,
                first,
                second,
            } => {
                let kind = load_at(layout, memory, BrokerPlace::QueueKind(slot));
                self.past_kind(slot, first, second, kind)
            }
        }
    }

    /// What comes once the gate of a slot was loaded.
    fn past_gate(self, slot: SlotId, gate: u64) -> Recovered
        requires { slot.0 < SLOTS }
        ensures { result ≡ gate_found self.places slot gate }
    {
        if gate == OPEN_GATE {
            Recovered {
                opened: Some(slot),
                ..self.going_on(DirectoryPoint::LoadFirstName { slot })
            }
        } else {
            Recovered {
                opened: None,
                after: past_slot(self.places, slot),
            }
        }
    }

    /// What comes once the queue of an open slot was read.
    fn past_kind(self, slot: SlotId, first: u64, second: u64, kind: u64) -> Recovered
        requires { slot.0 < SLOTS }
        ensures { result ≡ queue_found self.places slot (queue_of first second kind) }
    {
        let mut places = self.places;
        places[slot.0 as usize] = queue_of(first, second, kind);
        Recovered {
            opened: None,
            after: past_slot(places, slot),
        }
    }

    /// It goes on with the same slot.
    fn going_on(self, at: DirectoryPoint) -> Recovered
        ensures { result ≡ goes_on_at self.places at }
    {
        Recovered {
            opened: None,
            after: After::More(DirectoryRecovery { at, ..self }),
        }
    }
}

/// What comes once a slot was read: the next one, if there is one.
fn past_slot(places: Places, slot: SlotId) -> After<DirectoryRecovery, Places>
    requires { slot.0 < SLOTS }
    ensures { result ≡ past_slot places slot }
{
    let next = slot.0 + 1;
    if (next as usize) < SLOTS {
        After::More(DirectoryRecovery {
            places,
            at: DirectoryPoint::LoadGate { slot: SlotId(next) },
        })
    } else {
        After::Done(places)
    }
}
