//! Crashes and recoveries of a broker that follows a script.

ghost use Rattle.std.specs.Prelude.{◌≡◌, ◌<◌, ◌≤◌, Ok, Err, None, Some, true, IsSome, IfOk, IfErr, length};
ghost use Rattle.named.specs.Brokers.{world_at};
ghost use Rattle.named.specs.Lasting.{steps_left};
ghost use Rattle.playing.specs.Transcript.{told_at};
ghost use Rattle.broker_script.specs.Play.{the_world};
ghost use Rattle.broker_script.specs.PutOff.{HadMemory, IsPutOff, PutsOff};
ghost use Rattle.broker_script.specs.Recovering.{ready_lines, told_at_slot, told_below, told_of_slot, IsRecoveredOn, Recovers, RecoversBy};
ghost use Rattle.broker_script.specs.Transcript.{Crashes};

use crate::player::Player;
use arena::{SLOTS, SlotId};
use broker_lines::{Printed, Room, append, labelled, one, refused};
use directory::Queue;
use playing::{Line, Unfollowed, add};
use std::alloc::Global;
use words::{Client, Refusal, Told};

impl Player {
    /// The whole system stops.
    pub(crate) fn crash(&mut self, alloc: Global) -> Result<Vec<Printed>, Unfollowed>
        ensures crashes { IfOk result (λ lines. Crashes self.old lines.items self.new) }
        ensures put_off { PutsOff self.old result self.new }
    {
        let room = Room::take(alloc)?;
        match self.session.crash() {
            Ok(()) => {
                self.recovery = 0;
                Ok(room.fill(Printed::Whole(Line::Crash)))
            }
            Err(_) => Err(Unfollowed::PutOff),
        }
    }

    /// What a client of the queue in a slot is told.
    fn told(&self, slot: SlotId, client: Client) -> Told
        requires ready { self.now.broker.recovery ≡ None }
        requires open { IsSome (world_at self.now.broker slot.0) }
        requires client { client.0 < self.now.broker.counts.clients }
        ensures { result ≡ told_at (the_world self.now.broker slot.0) client.0 }
    {
        match self.session.broker().told(slot, client) {
            Ok(told) => told,
            Err(_) => unreachable!(),
        }
    }

    /// What each client of the queue in a slot is told.
    fn told_of_queue(&self, alloc: Global, slot: SlotId) -> Result<Vec<Line>, Refusal>
        requires ready { self.now.broker.recovery ≡ None }
        requires open { IsSome (world_at self.now.broker slot.0) }
        ensures lines { IfOk result (λ lines. lines.items ≡ told_at_slot self.now slot.0) }
        ensures errors { IfErr result (λ e. e ≡ Refusal.NoMemory) }
    {
        let mut lines = Vec::new(alloc);
        for number in 0..self.session.broker().clients() {
            let client = Client(number as u8);
            let told = self.told(slot, client);
            add(&mut lines, Line::Told { client, told })?;
        }
        Ok(lines)
    }

    /// What each client of the queue in a slot is told, if the slot has one.
    fn told_in_slot(
        &self,
        alloc: Global,
        slot: usize,
        places: &[Option<Queue>],
    ) -> Result<Vec<Printed>, Refusal>
        requires slot { slot < length places.now }
        requires few { length places.now ≤ SLOTS }
        requires places { places.now ≡ self.now.broker.directory }
        requires ready { self.now.broker.recovery ≡ None }
        ensures lines { IfOk result (λ lines. lines.items ≡ told_of_slot self.now slot) }
        ensures errors { IfErr result (λ e. e ≡ Refusal.NoMemory) }
    {
        let _ = &self.session;
        match &places[slot] {
            None => Ok(Vec::new(alloc)),
            Some(queue) => {
                let lines = self.told_of_queue(alloc, SlotId(slot as u8))?;
                labelled(alloc, queue.name, lines)
            }
        }
    }

    /// What each client of each queue is told.
    fn told_of_all(&self, alloc: Global, places: &[Option<Queue>]) -> Result<Vec<Printed>, Refusal>
        requires few { length places.now ≤ SLOTS }
        requires places { places.now ≡ self.now.broker.directory }
        requires ready { self.now.broker.recovery ≡ None }
        ensures lines { IfOk result (λ lines. lines.items ≡ told_below self.now (length self.now.broker.directory)) }
        ensures errors { IfErr result (λ e. e ≡ Refusal.NoMemory) }
    {
        let mut lines = Vec::new(alloc);
        for slot in 0..places.len() {
            append(&mut lines, self.told_in_slot(alloc, slot, places)?)?;
        }
        Ok(lines)
    }

    /// That the broker is ready, and what each client of each queue is told.
    fn told_at_ready(&self, alloc: Global) -> Result<Vec<Printed>, Refusal>
        requires ready { self.now.broker.recovery ≡ None }
        ensures lines { IfOk result (λ lines. lines.items ≡ ready_lines self.now) }
        ensures errors { IfErr result (λ e. e ≡ Refusal.NoMemory) }
    {
        let places = self.session.broker().list().unwrap();
        let mut lines = one(
            alloc,
            Printed::Whole(Line::Ready {
                steps: self.recovery,
            }),
        )?;
        append(&mut lines, self.told_of_all(alloc, places)?)?;
        Ok(lines)
    }

    /// Shows that, once the last step was made.
    fn show_ready(&self, alloc: Global) -> Result<Vec<Printed>, Unfollowed>
        requires ready { self.now.broker.recovery ≡ None }
        ensures lines { IfOk result (λ lines. lines.items ≡ ready_lines self.now) }
        ensures errors { IfErr result (λ e. e ≡ Unfollowed.Halfway) }
    {
        match self.told_at_ready(alloc) {
            Ok(lines) => Ok(lines),
            Err(_) => Err(Unfollowed::Halfway),
        }
    }

    /// One step of recovery. It answers whether the broker is ready now.
    fn recover_step(&mut self) -> Result<bool, Refusal>
        ensures step { HadMemory result → IsRecoveredOn self.old result self.new }
        ensures ready { result ≡ Ok true → self.new.broker.recovery ≡ None }
        ensures put_off { result ≡ Err Refusal.NoMemory → IsPutOff self.old self.new }
        ensures falls { IfOk result (λ ready. steps_left self.new.broker < steps_left self.old.broker) }
    {
        match self.session.recover_step() {
            Err(refusal) => Err(refusal),
            Ok(ready) => {
                self.recovery = self.recovery.saturating_add(1);
                Ok(ready)
            }
        }
    }

    /// Recovery goes on to its end.
    pub(crate) fn recover(&mut self, alloc: Global) -> Result<Vec<Printed>, Unfollowed>
        ensures recovers { IfOk result (λ lines. Recovers self.old lines.items self.new) }
        ensures put_off { PutsOff self.old result self.new }
    {
        let room = Room::take(alloc)?;
        let mut begun = false;
        loop {
            match self.recover_step() {
                Err(refusal) => return refused(room, begun, refusal),
                Ok(true) => return self.show_ready(alloc),
                Ok(false) => begun = true,
            }
        }
    }

    /// Recovery goes on by at most so many steps.
    pub(crate) fn recover_by(
        &mut self,
        alloc: Global,
        most: u32,
    ) -> Result<Vec<Printed>, Unfollowed>
        ensures recovers { IfOk result (λ lines. RecoversBy most self.old lines.items self.new) }
        ensures put_off { PutsOff self.old result self.new }
    {
        let room = Room::take(alloc)?;
        for made in 0..most {
            match self.recover_step() {
                Err(refusal) => return refused(room, made > 0, refusal),
                Ok(true) => return self.show_ready(alloc),
                Ok(false) => {}
            }
        }
        Ok(room.fill(Printed::Whole(Line::Recovering)))
    }
}
