//! A broker that threads share.

ghost use Rattle.std.specs.Prelude.{◌≡◌, ◌<◌, ◌++◌, ◌∷◌, [], false, IfErr, IfOk, IfSome, IsSome, IsTrue, OnErr, OnOk, true, vec_capacity, vec_len};
ghost use Rattle.workers.specs.Answers.{Finishes, IsListAfter, IsListBegun, Remembers};
ghost use Rattle.workers.specs.Lists.{ends_open};
ghost use Rattle.workers.specs.Looking.{IsCreatedBeside, IsFoundOf, IsListedOf};
ghost use Rattle.workers.specs.Marks.{IsMarkedBy};
ghost use Rattle.workers.specs.Moments.{GoesOnLater};
ghost use Rattle.workers.specs.Refusals.{is_refused, IfNotMade, IsWhyNotTold};
ghost use Rattle.workers.specs.Recovered.{is_ready_after, is_ready_by, told_of_recovery, IsRecoveryRefusal};
ghost use Rattle.workers.specs.Refusals.{IsSettledAnswer, IsSettledStart, IsWhyNoUsage, IsWhyRefused, WasSettled};
ghost use Rattle.workers.specs.Seen.{HadCalled, HasStoppedSince, IfCreationBegun, IfMade, IsCallRefused, IsCreationAt};
ghost use Rattle.workers.specs.Seen.{IsListing, IsRefusedAt, IsTelling, MightBeCreated, WasDown};
ghost use Rattle.workers.specs.Usage.{HasItemsOf, IsUsageOf};
ghost use Rattle.directory.specs.Directory.{HasName};
ghost use Rattle.directory.specs.Name.{IsName};
ghost use Rattle.workers.specs.declared.entry.Answer.{Answer as AnyAnswer};
ghost use Rattle.workers.specs.declared.deeds.Deed.{Deed as AnyDeed};
ghost use Rattle.workers.specs.declared.shared.Created.{Created as AnyCreated};

use crate::deeds::Deed;
use crate::entry::{Answer, Entry, Request, Took};
use crate::gate::Gate;
use crate::locked::Locked;
use crate::looks::Usage;
use crate::marks::Marked;
use crate::naming::Naming;
use crate::operator::Operator;
use crate::seat::Seat;
use arena::SlotId;
use directory::{Name, Places, Queue};
use roll::Roll;
use std::sync::{Mutex, Wait};
use waiting::lock;
use words::{Client, Kind, Refusal, Reply, Told};

/// A session that threads share. Each act takes the lock, makes one step and releases it, so that a client that stands
/// still between two steps of its call holds nobody up: others help its call along where they must. Every call may wait
/// for the lock.
#[derive(Drop)]
pub struct Shared<J: Naming> {
    pub(crate) roll: Roll<Entry>,
    pub(crate) deeds: Roll<Deed>,
    pub(crate) locked: Mutex<Locked<J>>,
    pub(crate) ghost lists: { roll ≡ J.roll.lists },
    pub(crate) ghost done: { deeds ≡ J.roll.deeds },
}

/// What became of a creation.
#[derive(Clone, Copy, Debug, PartialEq, Eq)]
pub enum Created {
    /// The queue is in this slot.
    Queue(SlotId),
    /// It was not begun.
    Refused(Refusal),
    /// A crash came before its last step. Whether the queue is there is known once the broker is ready.
    Interrupted,
}

/// What the caller of a recovery is told once its step answered this, after steps of its own or at its first one.
fn told_of_recovery(begun: bool, step: Result<bool, Refusal>) -> Option<Result<(), Refusal>>
    ensures told { result ≡ told_of_recovery begun step }
    ensures ready { IfSome result (λ told. is_ready_by told ≡ is_ready_after step) }
    ensures errors { IfErr step IsRecoveryRefusal → IfSome result (λ told. IfErr told IsRecoveryRefusal) }
{
    match step {
        Ok(false) => None,
        Ok(true) => Some(Ok(())),
        // Another thread took the last step.
        Err(Refusal::AlreadyReady) if begun => Some(Ok(())),
        Err(refusal) => Some(Err(refusal)),
    }
}

impl<J: Naming> Shared<J> {
    /// Starts a call, in one act.
    fn begin<R: Wait>(
        &self,
        rt: &R,
        seat: Seat<J>,
        request: Request,
        before: Marked<J>,
    ) -> (Seat<J>, Marked<J>, Result<Option<Reply>, Refusal>)
        requires idle { ends_open seat.list.items ≡ false }
        requires room { vec_len seat.list < vec_capacity seat.list }
        ensures client { result.0.client ≡ seat.client }
        ensures begun { IsListBegun seat.list.items request result.2 result.0.list.items }
        ensures errors { IfErr result.2 (IsWhyRefused J.first seat.list.items request) }
        ensures refused { IfErr result.2 (IsRefusedAt result.1 seat.client request) }
        ensures kept { IfOk result.2 (λ began. IfSome began (λ reply.
            IsMarkedBy J.first seat.client result.0.list.items result.1)) }
        ensures settled { (reply : Reply) → WasSettled J.first seat.client request reply
            → IsSettledStart reply result.2 }
        ensures since { HadCalled J.first seat.client seat.list.items before result.1 }
        ensures later { GoesOnLater before result.1 }
    {
        lock(rt, &self.locked).begin(&self.roll, seat, &request, before)
    }

    /// One step of the seat's open call.
    // A step, and what it calls here, stands in its caller: a seat goes through by value, and would be copied at each call.
    #[inline(always)]
    fn step<R: Wait>(&self, rt: &R, seat: Seat<J>) -> (Seat<J>, Took)
        requires { ends_open seat.list.items ≡ true }
        ensures client { result.0.client ≡ seat.client }
        ensures step { IsListAfter seat.list.items result.1 result.0.list.items }
    {
        lock(rt, &self.locked).step(&self.roll, seat)
    }

    /// Goes on with the seat's open call until it is answered, interrupted or refused memory.
    fn go_on<R: Wait, G: Gate>(&self, rt: &R, seat: Seat<J>, gate: &G) -> (Seat<J>, Answer)
        requires { ends_open seat.list.items ≡ true }
        ensures client { result.0.client ≡ seat.client }
        ensures finishes { Finishes seat.list.items result.1 result.0.list.items }
    {
        let mut seat = seat;
        for _ in rt.forever() {
            let (next, took) = self.step(rt, seat);
            seat = next;
            match took {
                Took::More => {
                    seat = seat.with_step();
                    gate.pass(rt, seat.client, u64::from(seat.steps));
                }
                Took::Answered(reply) => return (seat, Answer::Reply(reply)),
                Took::Interrupted => return (seat, Answer::Interrupted),
                Took::NoMemory => return (seat, Answer::Unfinished),
            }
        }
        unreachable!()
    }

    /// Goes on with a call that has begun, as [`Shared::go_on`] does, and marks the session then.
    fn go_on_marked<R: Wait, G: Gate>(
        &self,
        rt: &R,
        seat: Seat<J>,
        gate: &G,
        before: Marked<J>,
    ) -> (Seat<J>, Marked<J>, Answer)
        requires { ends_open seat.list.items ≡ true }
        ensures client { result.0.client ≡ seat.client }
        ensures finishes { Finishes seat.list.items result.2 result.0.list.items }
        ensures marked { IsMarkedBy J.first seat.client result.0.list.items result.1 }
        ensures later { GoesOnLater before result.1 }
    {
        let (seat, answer) = self.go_on(rt, seat, gate);
        let (seat, marked) = self.mark_further(rt, seat, before);
        (seat, marked, answer)
    }

    /// Makes a call of the seat's client in the queue of a name: with a number in a log queue, where it is answered
    /// from what is kept if it is the client's last number, and without one in a durable queue. The seat remembers just
    /// this call, with the answer that is given, in the slot that has the name. It passes the gate after its start and
    /// after each step that does not answer. It is refused, before all else, where the seat has an open call (Busy),
    /// for want of memory for its entry (NoMemory), while the broker recovers (NotReady), where there is no such queue
    /// (NoQueue), and as [`session::Session::begin`] is; then nothing is remembered. A number that was settled when the
    /// seats were given runs no more: it has its reply, or is Old. A step that is refused memory leaves the call under
    /// way (Unfinished), for [`Shared::finish`]. With the answer comes a mark of the session, in the place of an earlier
    /// one: its histories have the seat's list, or it is the session that refuses the call. Behind the earlier mark, and
    /// before the call, the histories had the list without it.
    pub fn call<R: Wait, G: Gate>(
        &self,
        rt: &R,
        seat: Seat<J>,
        request: Request,
        gate: &G,
        before: Marked<J>,
    ) -> (Seat<J>, Marked<J>, Answer)
        ensures client { result.0.client ≡ seat.client }
        ensures entry { Remembers seat.list.items request result.2 result.0.list.items }
        ensures marked { IfMade result.2 (IsMarkedBy J.first seat.client result.0.list.items result.1) }
        ensures since { IfMade result.2 (HadCalled J.first seat.client seat.list.items before result.1) }
        ensures refused { IfNotMade result.2 (IsCallRefused seat.list.items result.1 seat.client request) }
        ensures busy { ends_open seat.list.items ≡ true
            → result ≡ (seat, before, AnyAnswer.Refused Refusal.Busy) }
        ensures errors { IfNotMade result.2 (IsWhyRefused J.first seat.list.items request) }
        ensures settled { (reply : Reply) → WasSettled J.first seat.client request reply
            → IsSettledAnswer reply result.2 }
        ensures later { GoesOnLater before result.1 }
    {
        if seat.is_open() {
            return (seat, before, Answer::Refused(Refusal::Busy));
        }
        let (seat, room) = seat.with_room();
        if !room {
            return (seat, before, Answer::Refused(Refusal::NoMemory));
        }
        let (seat, marked, began) = self.begin(rt, seat, request, before);
        match began {
            Ok(None) => {
                gate.pass(rt, seat.client, 0);
                self.go_on_marked(rt, seat, gate, marked)
            }
            Ok(Some(reply)) => (seat, marked, Answer::Reply(reply)),
            Err(refusal) => (seat, marked, Answer::Refused(refusal)),
        }
    }

    /// Goes on with the seat's open call, which was left Unfinished, and answers as [`Shared::call`] does. It is
    /// Interrupted where a crash came meanwhile, and refused where the seat has no open call (Idle).
    pub fn finish<R: Wait, G: Gate>(&self, rt: &R, seat: Seat<J>, gate: &G) -> (Seat<J>, Answer)
        ensures client { result.0.client ≡ seat.client }
        ensures finishes { ends_open seat.list.items ≡ true → Finishes seat.list.items result.1 result.0.list.items }
        ensures idle { ends_open seat.list.items ≡ false → result ≡ (seat, AnyAnswer.Refused Refusal.Idle) }
    {
        if !seat.is_open() {
            return (seat, Answer::Refused(Refusal::Idle));
        }
        self.go_on(rt, seat, gate)
    }

    /// Creates a queue, one act a step. It is Interrupted where a crash came between, and refused as
    /// [`session::Session::create`] is; Busy also where a crash ended another creation whose caller has not seen that
    /// yet, and, where changes are noted, while memory for all of its own is refused. A name that a queue had when the
    /// seats were given is taken for good, and so is its slot. With the answer comes a mark of the session, in the place
    /// of an earlier one, behind which no queue had the name yet.
    pub fn create<R: Wait>(
        &self,
        rt: &R,
        name: &[u8],
        kind: Kind,
        before: Marked<J>,
    ) -> (Marked<J>, Created)
        ensures there { IsCreationAt result.0.broker (record { name = name.now; kind = kind }) result.1 }
        ensures since { IfCreationBegun result.1 (MightBeCreated before result.0 name.now) }
        ensures bad_name { (IsName name.now → ⊥) → result.1 ≡ AnyCreated.Refused Refusal.BadName }
        ensures taken { HasName J.first.broker.directory name.now → IsTrue (is_refused result.1) }
        ensures free { IsCreatedBeside J.first.broker.directory result.1 }
        ensures later { GoesOnLater before result.0 }
    {
        let queue = match Name::make(name) {
            Ok(name) => Queue { name, kind },
            Err(refusal) => return (before, Created::Refused(refusal)),
        };
        let (mut marked, begun) = lock(rt, &self.locked).begin_creation(&queue, before);
        if let Err(refusal) = begun {
            return (marked, Created::Refused(refusal));
        }
        for _ in rt.forever() {
            let (next, created) = lock(rt, &self.locked).create_step(&queue, marked);
            marked = next;
            if let Some(created) = created {
                return (marked, created);
            }
        }
        unreachable!()
    }

    /// The whole system stops, as its operator wants: each call under way is interrupted, as its seat hears when it goes
    /// on. It is refused for want of memory (NoMemory), and then nothing stopped. With the answer comes a mark of the
    /// session, in the place of an earlier one.
    pub fn crash<R: Wait>(
        &self,
        rt: &R,
        operator: Operator<J>,
        before: Marked<J>,
    ) -> (Operator<J>, Marked<J>, Result<(), Refusal>)
        ensures stopped { OnOk result.2 (HasStoppedSince before result.1) }
        ensures stops { OnOk result.2 (result.0 ≡ operator ++ AnyDeed.Crash ∷ []) }
        ensures same { OnErr result.2 (result.0 ≡ operator) }
        ensures errors { IfErr result.2 (λ refusal. refusal ≡ Refusal.NoMemory) }
        ensures later { GoesOnLater before result.1 }
    {
        lock(rt, &self.locked).crash(&self.deeds, operator, before)
    }

    /// Recovers the broker, one act a step, until it is ready; other threads may take steps too. It is refused where no
    /// recovery is under way at its first step (AlreadyReady), and for want of memory (NoMemory): then the steps that
    /// were made stand, and another `recover` goes on. With the answer comes a mark of the session, in the place of an
    /// earlier one, at which the broker is ready where that is what is said.
    pub fn recover<R: Wait>(&self, rt: &R, before: Marked<J>) -> (Marked<J>, Result<(), Refusal>)
        ensures ready { is_ready_by result.1 ≡ true → result.0.broker.recovery ≡ None }
        ensures down { OnOk result.1 (WasDown before result.0) }
        ensures errors { IfErr result.1 IsRecoveryRefusal }
        ensures later { GoesOnLater before result.0 }
    {
        let mut marked = before;
        let mut begun = false;
        for _ in rt.forever() {
            let (next, step) = lock(rt, &self.locked).recover_step(marked);
            marked = next;
            if let Some(told) = told_of_recovery(begun, step) {
                return (marked, told);
            }
            begun = true;
        }
        unreachable!()
    }

    /// The slot with the queue of this name, if there is one. A queue that there was when the seats were given is found
    /// in its slot for good, and no other name is found there. It is refused as [`named::Broker::find`] is.
    pub fn find<R: Wait>(&self, rt: &R, name: &Name) -> Result<Option<SlotId>, Refusal>
        ensures found { IfOk result (IsFoundOf J.first.broker.directory name.now) }
        ensures errors { IfErr result (λ refusal. refusal ≡ Refusal.NotReady) }
    {
        lock(rt, &self.locked).find(name)
    }

    /// What each slot has, as it is now: a copy. The queues that there were when the seats were given are among them
    /// for good. It is refused as [`named::Broker::list`] is. With the answer comes a mark of the session that lists
    /// them so, in the place of an earlier one.
    pub fn list<R: Wait>(&self, rt: &R, before: Marked<J>) -> (Marked<J>, Result<Places, Refusal>)
        ensures listing { IsListing result.0.broker result.1 }
        ensures queues { IfOk result.1 (IsListedOf J.first.broker.directory) }
        ensures later { GoesOnLater before result.0 }
    {
        lock(rt, &self.locked).list(before)
    }

    /// What the client was last told in the queue of a name. It is refused, in this order, while the broker recovers
    /// (NotReady), where there is no such queue (NoQueue), and where there is no such client (NoClient). With the answer
    /// comes a mark of the session that tells so, in the place of an earlier one.
    pub fn told<R: Wait>(
        &self,
        rt: &R,
        client: Client,
        name: &Name,
        before: Marked<J>,
    ) -> (Marked<J>, Result<Told, Refusal>)
        ensures telling { IsTelling result.0.broker client name.now result.1 }
        ensures errors { IfErr result.1 (IsWhyNotTold J.clients J.first name.now client) }
        ensures later { GoesOnLater before result.0 }
    {
        lock(rt, &self.locked).told(client, name, before)
    }

    /// What the queue of a slot holds, and how many clients and records it has. It walks the queue. It is refused, in this
    /// order, where the slot has no queue (NoQueue), and for want of memory (NoMemory). With the answer comes a mark of the
    /// session whose queue holds so much, in the place of an earlier one.
    pub fn usage<R: Wait>(
        &self,
        rt: &R,
        slot: SlotId,
        before: Marked<J>,
    ) -> (Marked<J>, Result<Usage, Refusal>)
        ensures items { IfOk result.1 (HasItemsOf result.0 slot.0) }
        ensures counts { IfOk result.1 (IsUsageOf J.clients J.first) }
        ensures errors { IfErr result.1 (IsWhyNoUsage J.first slot) }
        ensures later { GoesOnLater before result.0 }
    {
        lock(rt, &self.locked).usage(slot, before)
    }
}
