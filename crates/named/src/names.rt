//! The names of a broker's queues, and how a queue comes to be.

ghost use Rattle.std.specs.Prelude.{◌≡◌, ◌≢◌, ◌<◌, ◌≤◌, ℕ, true, length, Ok, Err, IfOk, IfErr, OnOk, OnErr, IfSome, IfNone, IsSome, None, if◌then◌else◌};
ghost use Rattle.directory.specs.Directory.{IsDirectory, IsNamed, HasName};
ghost use Rattle.named.specs.Finding.{IsPlaced};
ghost use Rattle.persist.specs.Memory.{asked_through, seen_whole};
ghost use Rattle.persist.specs.Noted.{answer_in, change_in, IsNoted};
ghost use Rattle.arena.specs.Broker.{broker_size};
ghost use Rattle.directory.specs.Creation.{access_of, successor, IsNextAskedFor};
ghost use Rattle.directory.specs.Step.{after_one, change_by, IsAskedFor};
ghost use Rattle.named.specs.Brokers.{is_creating, is_down, world_at, AreUnopenedQuiet, IsBegun, IsCreationStep, IsNotCreated, MayCreate};
ghost use Rattle.named.specs.GoingOn.{BrokerGoesOn};
ghost use Rattle.named.specs.Promises.{KeepsPromises};

use crate::broker::{Broker, CREATION_PORT};
use crate::slot::Slot;
use arena::{BrokerLayout, SLOTS, SlotId};
use directory::{Creation, Name, Places, Queue};
use persist::{Memory, Noted};
use stepper::After;
use words::{Kind, Refusal};

/// One step of a creation, through the port of creations.
fn step_creation(
    creation: Creation,
    layout: &BrokerLayout,
    memory: &mut Memory,
) -> Noted<After<Creation, SlotId>>
    requires slot { creation.slot.0 < SLOTS }
    requires room { broker_size layout.now ≤ length memory.old.words.cached }
    requires asked { IsAskedFor layout.now (access_of creation) (seen_whole (asked_through memory.old CREATION_PORT)) }
    ensures one_access { memory.new.words ≡ after_one layout.now (access_of creation) memory.old.words }
    ensures next { result.answer ≡ successor creation }
    ensures change { result.change ≡ change_by layout.now (access_of creation) memory.old.words }
    ensures asked { IsNextAskedFor layout.now result.answer (seen_whole (asked_through memory.new CREATION_PORT)) }
    ensures others { (port : ℕ) → port ≢ CREATION_PORT
        → asked_through memory.new port ≡ asked_through memory.old port }
{
    // The ports of a memory are as many as the queues and a creation take.
    let Ok(mut port) = memory.port(CREATION_PORT) else {
        unreachable!();
    };
    creation.step(layout, &mut port)
}

impl Broker {
    /// Refuses while recovery is under way.
    pub(crate) fn check_ready(&self) -> Result<(), Refusal>
        ensures { result ≡ (if is_down self.now then Err Refusal.NotReady else Ok tt) }
    {
        if self.recovery.is_some() {
            return Err(Refusal::NotReady);
        }
        Ok(())
    }

    /// What each slot has: the names and kinds of the queues, in slot order. It is refused while recovery is under way
    /// (NotReady).
    pub fn list(&self) -> Result<&Places, Refusal>
        ensures places { IfOk result (λ places. places.now ≡ self.now.directory) }
        ensures directory { IfOk result (λ places. IsDirectory places.now) }
        ensures ready { OnOk result (self.now.recovery ≡ None) }
        ensures errors { IfErr result (λ e. (e ≡ Refusal.NotReady) × IsSome self.now.recovery) }
    {
        self.check_ready()?;
        Ok(self.directory.queues())
    }

    /// The slot with the queue of this name, if there is one. It is refused while recovery is under way (NotReady).
    pub fn find(&self, name: &Name) -> Result<Option<SlotId>, Refusal>
        ensures found { IfOk result (λ r. IfSome r (λ slot. IsNamed self.now.directory slot.0 name.now)) }
        ensures open { IfOk result (λ r. IfSome r (λ slot. IsSome (world_at self.now slot.0))) }
        ensures none { IfOk result (λ r. IfNone r (HasName self.now.directory name.now → ⊥)) }
        ensures ready { OnOk result (self.now.recovery ≡ None) }
        ensures errors { IfErr result (λ e. (e ≡ Refusal.NotReady) × IsSome self.now.recovery) }
    {
        self.check_ready()?;
        Ok(self.directory.find(name))
    }

    /// The slot with the queue of this name. It is refused while recovery is under way (NotReady), and where there is no
    /// such queue (NoQueue).
    pub fn slot_of(&self, name: &Name) -> Result<SlotId, Refusal>
        ensures { IsPlaced self.now name.now result }
    {
        self.find(name)?.ok_or(Refusal::NoQueue)
    }

    /// Whether a creation is under way. One that a crash ended is not.
    pub fn is_creating(&self) -> bool
        ensures { result ≡ is_creating self.now }
    {
        self.recovery.is_none() && self.creation.is_some()
    }

    /// Begins to create a queue of this name, in the lowest free slot. It is refused, in this order, where these bytes
    /// are no name (BadName), while recovery is under way (NotReady), where another creation is (Busy), where there is
    /// a queue of this name (Exists), and where there are eight queues (DirectoryFull).
    #[tactic(auto, using(crate::proofs::acts::Continuity::broker_stays))]
    pub fn create(&mut self, name: &[u8], kind: Kind) -> Result<(), Refusal>
        ensures may { OnOk result (MayCreate self.old name.now) }
        ensures begun { OnOk result (IfSome self.new.creation (IsBegun self.old name.now kind)) }
        ensures under_way { OnOk result (IsSome self.new.creation) }
        ensures others { self.new ≡ record self.old { creation = self.new.creation } }
        ensures errors { IfErr result (IsNotCreated self.old name.now) }
        ensures same { OnErr result (self.new ≡ self.old) }
        ensures goes_on { BrokerGoesOn self.old self.new }
        ensures promises { OnOk result (KeepsPromises self.new) }
    {
        let name = Name::make(name)?;
        self.check_ready()?;
        if self.creation.is_some() {
            return Err(Refusal::Busy);
        }
        if self.directory.has(&name) {
            return Err(Refusal::Exists);
        }
        let Some(slot) = self.directory.lowest_free() else {
            return Err(Refusal::DirectoryFull);
        };
        self.creation = Some(Creation::begin(slot, Queue { name, kind }));
        Ok(())
    }

    /// One step of the creation: exactly one access. The twelfth opens the slot, and answers it. It is refused, in this
    /// order, while recovery is under way (NotReady), and where no creation is (Idle).
    pub fn create_step(&mut self) -> Result<Option<SlotId>, Refusal>
        ensures down { is_down self.old ≡ true → result ≡ Err Refusal.NotReady }
        ensures idle { self.old.recovery ≡ None → self.old.creation ≡ None → result ≡ Err Refusal.Idle }
        ensures same { OnErr result (self.new ≡ self.old) }
        ensures step { IsCreationStep self.old self.new result }
        ensures others { AreUnopenedQuiet self.old self.new result }
        ensures goes_on { BrokerGoesOn self.old self.new }
        ensures promises { KeepsPromises self.new }
    {
        Ok(self.create_step_noted()?.answer)
    }

    /// As [`Broker::create_step`], with the change of a kept word that the step made.
    pub fn create_step_noted(&mut self) -> Result<Noted<Option<SlotId>>, Refusal>
        ensures down { is_down self.old ≡ true → answer_in result ≡ Err Refusal.NotReady }
        ensures idle { self.old.recovery ≡ None → self.old.creation ≡ None → answer_in result ≡ Err Refusal.Idle }
        ensures same { OnErr (answer_in result) (self.new ≡ self.old) }
        ensures step { IsCreationStep self.old self.new (answer_in result) }
        ensures others { AreUnopenedQuiet self.old self.new (answer_in result) }
        ensures noted { IsNoted (change_in result) self.old.words.kept self.new.words.kept }
        ensures goes_on { BrokerGoesOn self.old self.new }
        ensures promises { KeepsPromises self.new }
    {
        self.check_ready()?;
        let under_way = self.creation;
        let Some(creation) = under_way else {
            return Err(Refusal::Idle);
        };
        let queue = creation.queue;
        let Noted {
            answer: after,
            change,
        } = step_creation(creation, &self.layout, &mut self.memory);
        match after {
            After::More(next) => {
                self.creation = Some(next);
                Ok(Noted {
                    answer: None,
                    change,
                })
            }
            After::Done(slot) => {
                let alloc = *self.slots.allocator();
                let opened = Slot::open(alloc, &self.layout, slot, queue.kind);
                self.creation = None;
                self.directory.open(slot, queue);
                self.slots[slot.0 as usize] = opened;
                Ok(Noted {
                    answer: Some(slot),
                    change,
                })
            }
        }
    }
}
