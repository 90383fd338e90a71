//! The queues of a session's broker.

ghost use Rattle.std.specs.Prelude.{◌≡◌, ◌≢◌, ◌<◌, ◌≤◌, ℕ, true, Err, None, IfErr, IfSome, IsSome, OnErr, OnOk};
ghost use Rattle.persist.specs.Noted.{answer_in, change_in, IsNoted};
ghost use Rattle.interleave.specs.Calls.{is_no_memory};
ghost use Rattle.named.specs.Brokers.{is_down, room_at, world_at, AreUnopenedQuiet, IsBegun, IsCreationStep, IsNotCreated, MayCreate};
ghost use Rattle.named.specs.GoingOn.{BrokerGoesOn};
ghost use Rattle.named.specs.Renewing.{HasRoomInEach, IsRenewedAt, IsWhyNotRenewedAt, MayRenew};
ghost use Rattle.named.specs.Rotating.{rotate_result, IsRotated};
ghost use Rattle.named.specs.Slots.{IsWhyUnread};
ghost use Rattle.session.specs.Acts.{HasNotedAct, IsSameButCreation};
ghost use Rattle.session.specs.Keeping.{SessionGoesOn};
ghost use Rattle.session.specs.Promises.{KeepsNumbers};

use crate::session::Session;
use arena::SlotId;
use notes::Notes;
use persist::Noted;
use words::{Kind, Refusal};

impl Session {
    /// Begins to create a queue, as [`named::Broker::create`] does.
    pub fn create(&mut self, name: &[u8], kind: Kind) -> Result<(), Refusal>
        ensures may { OnOk result (MayCreate self.old.broker name.now) }
        ensures begun { OnOk result (IfSome self.new.broker.creation (IsBegun self.old.broker name.now kind)) }
        ensures under_way { OnOk result (IsSome self.new.broker.creation) }
        ensures others { IsSameButCreation self.old self.new }
        ensures errors { IfErr result (IsNotCreated self.old.broker name.now) }
        ensures same { OnErr result (self.new ≡ self.old) }
        ensures goes_on { SessionGoesOn self.old self.new }
        ensures queues { BrokerGoesOn self.old.broker self.new.broker }
        ensures promises { KeepsNumbers self.new }
    {
        self.broker.create(name, kind)
    }

    /// One step of the creation, as [`named::Broker::create_step`] takes it.
    pub fn create_step(&mut self) -> Result<Option<SlotId>, Refusal>
        ensures down { is_down self.old.broker ≡ true → result ≡ Err Refusal.NotReady }
        ensures idle { self.old.broker.recovery ≡ None → self.old.broker.creation ≡ None → result ≡ Err Refusal.Idle }
        ensures same { OnErr result (self.new ≡ self.old) }
        ensures step { IsCreationStep self.old.broker self.new.broker result }
        ensures others { AreUnopenedQuiet self.old.broker self.new.broker result }
        ensures kept { self.new.kept ≡ self.old.kept }
        ensures goes_on { SessionGoesOn self.old self.new }
        ensures queues { BrokerGoesOn self.old.broker self.new.broker }
        ensures promises { KeepsNumbers self.new }
    {
        Ok(self.create_step_noted()?.answer)
    }

    /// As [`Session::create_step`], with the change of a kept word that the step made.
    pub fn create_step_noted(&mut self) -> Result<Noted<Option<SlotId>>, Refusal>
        ensures down { is_down self.old.broker ≡ true → answer_in result ≡ Err Refusal.NotReady }
        ensures idle { self.old.broker.recovery ≡ None → self.old.broker.creation ≡ None
            → answer_in result ≡ Err Refusal.Idle }
        ensures same { OnErr (answer_in result) (self.new ≡ self.old) }
        ensures step { IsCreationStep self.old.broker self.new.broker (answer_in result) }
        ensures others { AreUnopenedQuiet self.old.broker self.new.broker (answer_in result) }
        ensures kept { self.new.kept ≡ self.old.kept }
        ensures noted { IsNoted (change_in result) self.old.broker.words.kept self.new.broker.words.kept }
        ensures goes_on { SessionGoesOn self.old self.new }
        ensures queues { BrokerGoesOn self.old.broker self.new.broker }
        ensures promises { KeepsNumbers self.new }
    {
        self.broker.create_step_noted()
    }

    /// Makes room in the history of a queue, as [`named::Broker::reserve`] does.
    pub fn reserve(&mut self, queue: SlotId, acts: usize) -> Result<(), Refusal>
        ensures worlds { (at : ℕ) → world_at self.new.broker at ≡ world_at self.old.broker at }
        ensures room { OnOk result (acts ≤ room_at self.new.broker queue.0) }
        ensures rooms { (at : ℕ) → room_at self.old.broker at ≤ room_at self.new.broker at }
        ensures full { result ≡ Err Refusal.NoMemory → room_at self.old.broker queue.0 < acts }
        ensures other_rooms { (other : ℕ) → other ≢ queue.0
            → room_at self.new.broker other ≡ room_at self.old.broker other }
        ensures open { OnOk result (IsSome (world_at self.old.broker queue.0)) }
        ensures errors { IfErr result (IsWhyUnread (world_at self.old.broker queue.0)) }
        ensures directory { self.new.broker.directory ≡ self.old.broker.directory }
        ensures creation { self.new.broker.creation ≡ self.old.broker.creation }
        ensures recovery { self.new.broker.recovery ≡ self.old.broker.recovery }
        ensures words { self.new.broker.words ≡ self.old.broker.words }
        ensures kept { self.new.kept ≡ self.old.kept }
        ensures goes_on { SessionGoesOn self.old self.new }
        ensures queues { BrokerGoesOn self.old.broker self.new.broker }
        ensures promises { KeepsNumbers self.new }
    {
        self.broker.reserve(queue, acts)
    }

    /// The histories of all queues end, and others begin, as [`named::Broker::rotate`] makes them. What is kept of each
    /// client stays: its last number is answered as before.
    pub fn rotate(&mut self) -> Result<(), Refusal>
        ensures result { result ≡ rotate_result (is_no_memory result) self.old.broker }
        ensures rotated { OnOk result (IsRotated self.old.broker self.new.broker) }
        ensures same { OnErr result (self.new ≡ self.old) }
        ensures room { (slot : ℕ) → room_at self.old.broker slot ≤ room_at self.new.broker slot }
        ensures kept { self.new.kept ≡ self.old.kept }
        ensures goes_on { SessionGoesOn self.old self.new }
        ensures promises { KeepsNumbers self.new }
    {
        self.broker.rotate()
    }

    /// The queue in a slot begins in fresh records, as [`named::Broker::renew`] makes it: the broker is down then. What
    /// is kept of each client stays: its last number is answered as before, once the broker is ready.
    pub fn renew(&mut self, queue: SlotId) -> Result<(), Refusal>
        ensures may { OnOk result (MayRenew self.old.broker queue.0) }
        ensures renewed { OnOk result (IsRenewedAt self.old.broker self.new.broker queue.0) }
        ensures room { OnOk result (HasRoomInEach self.new.broker 1) }
        ensures errors { IfErr result (IsWhyNotRenewedAt self.old.broker queue.0) }
        ensures same { OnErr result (self.new ≡ self.old) }
        ensures kept { self.new.kept ≡ self.old.kept }
        ensures goes_on { SessionGoesOn self.old self.new }
        ensures promises { KeepsNumbers self.new }
    {
        self.broker.renew(queue)
    }

    /// As [`Session::renew`], with the changes of kept words that it made, as [`named::Broker::renew_noted`] notes them.
    pub fn renew_noted(
        &mut self,
        queue: SlotId,
        notes: &mut Notes,
        more: usize,
    ) -> Result<(), Refusal>
        ensures may { OnOk result (MayRenew self.old.broker queue.0) }
        ensures renewed { OnOk result (IsRenewedAt self.old.broker self.new.broker queue.0) }
        ensures room { OnOk result (HasRoomInEach self.new.broker 1) }
        ensures noted { OnOk result (HasNotedAct self.old self.new notes.old.changes notes.new.changes) }
        ensures promised { OnOk result (notes.new.promised ≡ more) }
        ensures errors { IfErr result (IsWhyNotRenewedAt self.old.broker queue.0) }
        ensures same { OnErr result (self.new ≡ self.old) }
        ensures unnoted { OnErr result (notes.new ≡ notes.old) }
        ensures kept { self.new.kept ≡ self.old.kept }
        ensures goes_on { SessionGoesOn self.old self.new }
        ensures promises { KeepsNumbers self.new }
    {
        self.broker.renew_noted(queue, notes, more)
    }
}
