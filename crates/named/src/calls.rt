//! Calls in the queues of a broker.

ghost use Rattle.std.specs.Prelude.{◌≡◌, ◌≤◌, Ok, None};
ghost use Rattle.persist.specs.Noted.{answer_in, change_in, IsNoted};
ghost use Rattle.interleave.specs.Rules.{starting, stepping};
ghost use Rattle.named.specs.Acting.{IsActAt, IsAloneAt, IsSameBeside};
ghost use Rattle.named.specs.Brokers.{admission, room_at};
ghost use Rattle.named.specs.GoingOn.{BrokerGoesOn};
ghost use Rattle.named.specs.Promises.{KeepsPromises};
ghost use Rattle.named.specs.Looking.{IsOpenTo};

use crate::broker::Broker;
use arena::SlotId;
use persist::Noted;
use words::{Call, Client, Refusal, Reply};

impl Broker {
    /// Refuses a client that there is not, and any while recovery is under way.
    pub(crate) fn admit(&self, client: Client) -> Result<(), Refusal>
        ensures { result ≡ admission self.now client }
    {
        if client.0 as usize >= self.layout.clients() as usize {
            return Err(Refusal::NoClient);
        }
        self.check_ready()
    }

    /// Starts a call in the queue of a slot. It is refused, in this order, where there is no such client (NoClient),
    /// while the broker recovers (NotReady), where the slot is closed (NoQueue), and as [`interleave::World::start`]
    /// is.
    pub fn start(
        &mut self,
        slot: SlotId,
        client: Client,
        number: u64,
        call: Call,
    ) -> Result<(), Refusal>
        ensures act { IsActAt (starting client number call) slot.0 client self.old result self.new }
        ensures beside { IsSameBeside slot.0 self.old self.new }
        ensures unchanged { self.new.words.kept ≡ self.old.words.kept }
        ensures goes_on { BrokerGoesOn self.old self.new }
        ensures promises { KeepsPromises self.new }
    {
        self.look(slot, client)?;
        self.start_open(slot, client, number, call)
    }

    /// As [`Broker::start`], in a slot that is known to be open to the client: neither is looked at again. It is refused
    /// as [`interleave::World::start`] is.
    pub fn start_open(
        &mut self,
        slot: SlotId,
        client: Client,
        number: u64,
        call: Call,
    ) -> Result<(), Refusal>
        requires { IsOpenTo self.old slot.0 client }
        ensures act { IsActAt (starting client number call) slot.0 client
            self.old result self.new }
        ensures beside { IsSameBeside slot.0 self.old self.new }
        ensures unchanged { self.new.words.kept ≡ self.old.words.kept }
        ensures goes_on { BrokerGoesOn self.old self.new }
        ensures promises { KeepsPromises self.new }
    {
        self.slots[slot.0 as usize].start(&mut self.memory, client, number, call)
    }

    /// One step of a call in the queue of a slot. It is refused as [`Broker::start`] is, and then as
    /// [`interleave::World::step`] is.
    #[inline(always)]
    pub fn step(&mut self, slot: SlotId, client: Client) -> Result<Option<Reply>, Refusal>
        ensures act { IsActAt (stepping client) slot.0 client self.old result self.new }
        ensures stays { result ≡ Ok None → room_at self.old slot.0 ≤ room_at self.new slot.0 }
        ensures beside { IsSameBeside slot.0 self.old self.new }
        ensures goes_on { BrokerGoesOn self.old self.new }
        ensures promises { KeepsPromises self.new }
    {
        Ok(self.step_noted(slot, client)?.answer)
    }

    /// As [`Broker::step`], with the change of a kept word that the step made, by its number in the whole memory.
    #[inline(always)]
    pub fn step_noted(
        &mut self,
        slot: SlotId,
        client: Client,
    ) -> Result<Noted<Option<Reply>>, Refusal>
        ensures act { IsActAt (stepping client) slot.0 client self.old (answer_in result) self.new }
        ensures stays { answer_in result ≡ Ok None → room_at self.old slot.0 ≤ room_at self.new slot.0 }
        ensures beside { IsSameBeside slot.0 self.old self.new }
        ensures noted { IsNoted (change_in result) self.old.words.kept self.new.words.kept }
        ensures goes_on { BrokerGoesOn self.old self.new }
        ensures promises { KeepsPromises self.new }
    {
        self.look(slot, client)?;
        self.step_open(slot, client)
    }

    /// As [`Broker::step_noted`], in a slot that is known to be open to the client. It is refused as
    /// [`interleave::World::step`] is.
    // Each call that stays one copies the answer, some 80 bytes, and each copy waits for the one before it to be stored.
    // So a step is part of its caller, from here to the block.
    #[inline(always)]
    pub fn step_open(
        &mut self,
        slot: SlotId,
        client: Client,
    ) -> Result<Noted<Option<Reply>>, Refusal>
        requires { IsOpenTo self.old slot.0 client }
        ensures act { IsActAt (stepping client) slot.0 client
            self.old (answer_in result) self.new }
        ensures stays { answer_in result ≡ Ok None → room_at self.old slot.0 ≤ room_at self.new slot.0 }
        ensures beside { IsSameBeside slot.0 self.old self.new }
        ensures noted { IsNoted (change_in result) self.old.words.kept self.new.words.kept }
        ensures goes_on { BrokerGoesOn self.old self.new }
        ensures promises { KeepsPromises self.new }
    {
        self.slots[slot.0 as usize].step(&mut self.memory, client)
    }

    /// A call in the queue of a slot goes on alone until it answers: its reply, and how many steps that took, at most
    /// [`MAX_STEPS_ALONE`](words::MAX_STEPS_ALONE). It is refused as [`Broker::step`] is, and for want of memory before its first step.
    pub fn run_alone(&mut self, slot: SlotId, client: Client) -> Result<(Reply, u32), Refusal>
        ensures alone { IsAloneAt slot.0 client self.old result self.new }
        ensures beside { IsSameBeside slot.0 self.old self.new }
        ensures goes_on { BrokerGoesOn self.old self.new }
        ensures promises { KeepsPromises self.new }
    {
        self.look(slot, client)?;
        self.run_open(slot, client)
    }

    /// As [`Broker::run_alone`], in a slot that is known to be open to the client. It is refused as
    /// [`interleave::World::step`] is, and for want of memory before its first step.
    pub fn run_open(&mut self, slot: SlotId, client: Client) -> Result<(Reply, u32), Refusal>
        requires { IsOpenTo self.old slot.0 client }
        ensures alone { IsAloneAt slot.0 client self.old result self.new }
        ensures beside { IsSameBeside slot.0 self.old self.new }
        ensures goes_on { BrokerGoesOn self.old self.new }
        ensures promises { KeepsPromises self.new }
    {
        self.slots[slot.0 as usize].run_alone(&mut self.memory, client)
    }
}
