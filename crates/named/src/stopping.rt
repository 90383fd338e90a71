//! A crash of a broker, and the steps of its recovery.

ghost use Rattle.std.specs.Prelude.{◌≡◌, ◌<◌, ◌≤◌, ◌+◌, ℕ, true, is_none, Some, Ok, Err, IfOk, OnErr, IfSome, None};
ghost use Rattle.persist.specs.Noted.{answer_in, change_in, IsNoted};
ghost use Rattle.interleave.specs.Calls.{is_no_memory};
ghost use Rattle.interleave.specs.State.{crash_result};
ghost use Rattle.directory.specs.Queue.{IsOpenSlot};
ghost use Rattle.named.specs.Brokers.{Brokered, IsWell, room_at};
ghost use Rattle.named.specs.Stopping.{HasFullQueue, IsDirectoryRead, IsFound, IsNext, IsQueueRecovered, IsReadOn};
ghost use Rattle.named.specs.Stopping.{IsKnownByKept, IsReadingDirectory, IsRecoveryStep, IsSameButRoom, IsStopped, MayReadOn, creation_after};
ghost use Rattle.named.specs.GoingOn.{BrokerGoesOn, IsDowntime};
ghost use Rattle.named.specs.Lasting.{left_after_read, most_kept, steps_left};
ghost use Rattle.named.specs.Telling.{TellAtReady};
ghost use Rattle.named.specs.Promises.{KeepsPromises};

use crate::broker::Broker;
use crate::recovery::BrokerRecovery;
use crate::slot::Slot;
use crate::slots::{reserve_each, stop_each};
use arena::{SLOTS, SlotId};
use directory::{Creation, Directory, DirectoryRecovery, MAX_DIRECTORY_STEPS, Places};
use persist::Noted;
use stepper::After;
use words::{Kind, Refusal, STEPS_BESIDES, STEPS_PER_CLIENT, STEPS_PER_RECORD};

/// What recovery is about to do once the queues of the slots below this one are ready: the next queue, if there is one.
fn recovery_from(directory: &Directory, from: usize) -> Option<BrokerRecovery>
    ensures { IsNext directory.now from result }
{
    let places = directory.queues();
    for slot in from..SLOTS {
        if places[slot].is_some() {
            let slot = SlotId(slot as u8);
            return Some(BrokerRecovery::RecoverQueue { slot });
        }
    }
    None
}

/// The creation that a crash dropped is kept in mind while recovery is under way, and no longer.
fn creation_left(creation: Option<Creation>, recovery: &Option<BrokerRecovery>) -> Option<Creation>
    ensures { result ≡ creation_after creation recovery.now }
{
    // Forgotten while the directory is read, it would leave a gate that is kept open with no queue to open the slot by.
    if recovery.is_none() {
        return None;
    }
    creation
}

impl Broker {
    /// The whole system stops: what is not kept is lost, calls and a creation under way end, and recovery begins anew,
    /// also where it was under way. It makes room in every queue's history before anything changes. It is refused for
    /// want of memory alone (NoMemory), and then nothing changed.
    pub fn crash(&mut self) -> Result<(), Refusal>
        ensures stopped { result ≡ Ok tt → IsStopped self.old self.new }
        ensures same { OnErr result (IsSameButRoom self.old self.new) }
        ensures result { result ≡ crash_result (is_no_memory result) }
        ensures full { is_no_memory result ≡ true → HasFullQueue self.old }
        ensures room { (slot : ℕ) → room_at self.old slot ≤ room_at self.new slot + 1 }
        ensures spare { OnErr result ((slot : ℕ) → room_at self.old slot ≤ room_at self.new slot) }
        ensures left { result ≡ Ok tt → steps_left self.new ≡ MAX_DIRECTORY_STEPS + most_kept self.new }
        ensures downtime { result ≡ Ok tt → IsDowntime self.old self.new }
        ensures goes_on { BrokerGoesOn self.old self.new }
        ensures promises { KeepsPromises self.new }
    {
        // A queue that had stopped while another's room is refused would have a crash that the other had not.
        reserve_each(&mut self.slots, 1)?;
        stop_each(&mut self.slots);
        self.memory.crash();
        self.recovery = Some(BrokerRecovery::ReadDirectory {
            at: DirectoryRecovery::boot(),
        });
        Ok(())
    }

    /// Where recovery is the first to find the gate of a slot open, the queue is the one whose creation a crash
    /// dropped, and begins here.
    fn open_found(&mut self, opened: Option<SlotId>)
        requires well { IsWell self.old }
        requires reading { IsReadingDirectory self.old.recovery }
        requires open { IfSome opened (λ slot. IsOpenSlot self.old.words.kept slot.0) }
        ensures same { self.new ≡ record self.old { slots = self.new.slots; directory = self.new.directory } }
        ensures found { IsFound self.old self.new opened }
        ensures rooms { (other : ℕ) → room_at self.old other ≤ room_at self.new other }
        ensures known { IfSome opened (IsKnownByKept self.old.words.kept self.new.directory) }
        ensures well { IsWell self.new }
    {
        let Some(slot) = opened else {
            return;
        };
        if !self.slots[slot.0 as usize].is_closed() {
            return;
        }
        let dropped = self.creation;
        let Some(creation) = dropped else {
            // A slot that was closed, and whose gate is kept open, is that of the creation which a crash dropped.
            unreachable!();
        };
        let alloc = *self.slots.allocator();
        let opened = Slot::open_found(alloc, &self.layout, slot, creation.queue.kind);
        self.directory.open(slot, creation.queue);
        self.slots[slot.0 as usize] = opened;
    }

    /// The directory's recovery goes on, or has read the whole directory. It answers whether the broker is ready now.
    fn read_on(&mut self, after: After<DirectoryRecovery, Places>) -> bool
        requires reading { IsReadingDirectory self.old.recovery }
        requires may { MayReadOn self.old after }
        ensures next { IsReadOn self.old self.new after }
        ensures told { TellAtReady self.old self.new }
        ensures left { steps_left self.new ≤ left_after_read self.old after }
        ensures same { self.new ≡ record self.old { creation = self.new.creation; recovery = self.new.recovery } }
        ensures answer { result ≡ is_none self.new.recovery }
        ensures promises { KeepsPromises self.new }
    {
        match after {
            After::More(next) => {
                self.recovery = Some(BrokerRecovery::ReadDirectory { at: next });
                false
            }
            After::Done(places) => {
                self.directory = Directory::of(places);
                self.recovery = recovery_from(&self.directory, 0);
                self.creation = creation_left(self.creation, &self.recovery);
                self.recovery.is_none()
            }
        }
    }

    /// A load of the directory's recovery. It answers whether the broker is ready now.
    fn read_directory(&mut self, at: DirectoryRecovery) -> bool
        requires { self.old.recovery ≡ Some (BrokerRecovery.ReadDirectory at) }
        ensures read { IsDirectoryRead self.old self.new at (Ok result) }
        ensures kept { self.new.words.kept ≡ self.old.words.kept }
        ensures room { (slot : ℕ) → room_at self.old slot ≤ room_at self.new slot + 1 }
        ensures told { TellAtReady self.old self.new }
        ensures falls { steps_left self.new < steps_left self.old }
        ensures promises { KeepsPromises self.new }
    {
        let recovered = at.step(&self.layout, &mut self.memory);
        // Without it recovery would come to a slot that is kept open and has no queue to recover.
        self.open_found(recovered.opened);
        self.read_on(recovered.after)
    }

    /// A step of recovery of the queue in a slot. It answers whether the broker is ready now.
    fn recover_queue(&mut self, slot: SlotId) -> Result<Noted<bool>, Refusal>
        requires { self.old.recovery ≡ Some (BrokerRecovery.RecoverQueue slot) }
        ensures recovered { IsQueueRecovered self.old self.new slot.0 (answer_in result) }
        ensures full { is_no_memory (answer_in result) ≡ true → HasFullQueue self.old }
        ensures room { (other : ℕ) → room_at self.old other ≤ room_at self.new other + 1 }
        ensures spare { OnErr result ((other : ℕ) → room_at self.old other ≤ room_at self.new other) }
        ensures noted { IsNoted (change_in result) self.old.words.kept self.new.words.kept }
        ensures told { TellAtReady self.old self.new }
        ensures falls { IfOk result (λ noted. steps_left self.new < steps_left self.old) }
        ensures promises { KeepsPromises self.new }
    {
        let Noted {
            answer: ready,
            change,
        } = self.slots[slot.0 as usize].recover_step(&mut self.memory)?;
        if !ready {
            return Ok(Noted {
                answer: false,
                change,
            });
        }
        // A queue that is left out here would stay down while the broker says that it is ready.
        self.recovery = recovery_from(&self.directory, slot.0 as usize + 1);
        self.creation = creation_left(self.creation, &self.recovery);
        Ok(Noted {
            answer: self.recovery.is_none(),
            change,
        })
    }

    /// More than the steps that any recovery of a broker with as many clients and records has left.
    pub fn more_than_recovery_steps(&self) -> usize
        ensures { (b : Brokered) → IsWell b → b.counts ≡ self.now.counts → steps_left b < result }
    {
        let clients = self.layout.clients() as usize;
        let records = self.layout.queue(Kind::Log).records() as usize;
        let each = STEPS_PER_RECORD as usize * (clients * records)
            + STEPS_PER_CLIENT as usize * clients
            + STEPS_BESIDES as usize;
        MAX_DIRECTORY_STEPS + SLOTS * each + 1
    }

    /// One step of recovery: exactly one access. The directory is read first, in 8 to 32 steps; then the open queues
    /// recover, in slot order. It answers whether the broker is ready now, and then each client of each queue is told
    /// what became of its last call. It is refused, in this order, where no recovery is under way (AlreadyReady), and
    /// for want of memory (NoMemory).
    pub fn recover_step(&mut self) -> Result<bool, Refusal>
        ensures step { IsRecoveryStep self.old self.new result self.old.recovery }
        ensures full { is_no_memory result ≡ true → HasFullQueue self.old }
        ensures room { (slot : ℕ) → room_at self.old slot ≤ room_at self.new slot + 1 }
        ensures spare { OnErr result ((slot : ℕ) → room_at self.old slot ≤ room_at self.new slot) }
        ensures told { TellAtReady self.old self.new }
        ensures few { steps_left self.old ≤ MAX_DIRECTORY_STEPS + most_kept self.old }
        ensures falls { IfOk result (λ ready. steps_left self.new < steps_left self.old) }
        ensures downtime { IsDowntime self.old self.new }
        ensures promises { KeepsPromises self.new }
    {
        Ok(self.recover_step_noted()?.answer)
    }

    /// As [`Broker::recover_step`], with the change of a kept word that the step made.
    pub fn recover_step_noted(&mut self) -> Result<Noted<bool>, Refusal>
        ensures step { IsRecoveryStep self.old self.new (answer_in result) self.old.recovery }
        ensures full { is_no_memory (answer_in result) ≡ true → HasFullQueue self.old }
        ensures room { (slot : ℕ) → room_at self.old slot ≤ room_at self.new slot + 1 }
        ensures spare { OnErr result ((slot : ℕ) → room_at self.old slot ≤ room_at self.new slot) }
        ensures noted { IsNoted (change_in result) self.old.words.kept self.new.words.kept }
        ensures told { TellAtReady self.old self.new }
        ensures few { steps_left self.old ≤ MAX_DIRECTORY_STEPS + most_kept self.old }
        ensures falls { IfOk result (λ noted. steps_left self.new < steps_left self.old) }
        ensures downtime { IsDowntime self.old self.new }
        ensures promises { KeepsPromises self.new }
    {
        match self.recovery {
            None => Err(Refusal::AlreadyReady),
            Some(BrokerRecovery::ReadDirectory { at }) => Ok(Noted {
                answer: self.read_directory(at),
                change: None,
            }),
            Some(BrokerRecovery::RecoverQueue { slot }) => self.recover_queue(slot),
        }
    }
}
