//! How changes of kept words are handed on from under the lock, and the session marked.

ghost use Rattle.std.specs.Prelude.{◌≡◌, ◌++◌, ◌∷◌, [], true, All, Contains, IfErr, IfNone, IfOk, IfSome, OnErr, OnOk, vec_capacity};
ghost use Rattle.roll.specs.Rule.{IsHolder, row_of};
ghost use Rattle.workers.specs.Marks.{IsMarkedBy};
ghost use Rattle.workers.specs.Moments.{AreHandedWithin, GoesOnLater, IsHandedMoment, IsMadeByHanded, IsMomentOf};
ghost use Rattle.workers.specs.Moments.{OnBatch};
ghost use Rattle.workers.specs.Noting.{OfRoll};

use crate::entry::Entry;
use crate::locked::Locked;
use crate::marks::{Assured, Assuring, Marked};
use crate::naming::Naming;
use crate::seat::{Seat, known};
use crate::shared::Shared;
use directory::CREATION_STEPS;
use persist::Change;
use roll::{Roll, Token};
use std::alloc::Global;
use std::marker::{Model, PhantomData};
use std::sync::Wait;
use waiting::lock;
use words::Refusal;

/// Who takes the changes of kept words from under the lock, to hand them on. There is one, who knows all that were
/// handed on since the seats were given, and has a mark of the session at the last time. While none takes them, they are
/// noted on, and take memory.
#[derive(Drop)]
pub struct Handed<J: Naming> {
    holder: Token<Change>,
    last: Marked<J>,
    assuring: Assuring<J>,
    of: PhantomData<J>,
}

/// A contract sees the changes that were handed on, the first one first, the session as it was at the last time, and the
/// sessions that were assured.
impl<J: Naming> Model for Handed<J> {
    ghost use Rattle.roll.specs.Rule.{IsHolder, row_of};
    ghost use Rattle.workers.specs.Moments.{HandedOn};
    ghost use Rattle.workers.specs.Noting.{OfRoll};

    ghost Value = { HandedOn };

    ghost view = { λ h. record { changes = row_of h.holder; last = h.last; assured = h.assuring } };

    ghost invariant = { λ h. OfRoll J.roll.changes (λ roll. IsHolder roll 0 (row_of h.holder) h.holder) };
}

impl<J: Naming> Handed<J> {
    /// The one of this holder, who has a mark of that session, and has assured these.
    pub(crate) fn new(holder: Token<Change>, last: Marked<J>, assuring: Assuring<J>) -> Self
        requires { OfRoll J.roll.changes (λ roll. IsHolder roll 0 (row_of holder) holder) }
        ensures { result ≡ record { changes = row_of holder; last = last; assured = assuring } }
    {
        Handed {
            holder,
            last,
            assuring,
            of: PhantomData,
        }
    }

    /// Assures the session of a mark. What this means is for his owner to say, who lets nobody else do it.
    pub fn assure(self, marked: &Marked<J>) -> (Self, Assured<J>)
        ensures handed { result.0 ≡ record self { assured = self.assured ++ marked.now ∷ [] } }
        ensures assured { result.1 ≡ marked.now }
    {
        let (holder, last, mut assuring) = self.into_parts();
        let assured = assuring.assure(marked);
        (Handed::new(holder, last, assuring), assured)
    }

    /// Hears a token, whose session is one of those that were assured. Both come back as they were.
    pub fn hears(self, assured: Assured<J>) -> (Self, Assured<J>)
        ensures heard { Contains self.assured assured }
        ensures handed { result.0 ≡ self }
        ensures assured { result.1 ≡ assured }
    {
        let (holder, last, mut assuring) = self.into_parts();
        let assured = assuring.hear(assured);
        (Handed::new(holder, last, assuring), assured)
    }

    /// His holder, his mark, and what he has assured.
    fn into_parts(self) -> (Token<Change>, Marked<J>, Assuring<J>)
        ensures row { row_of result.0 ≡ self.changes }
        ensures holder { OfRoll J.roll.changes (λ roll. IsHolder roll 0 (row_of result.0) result.0) }
        ensures last { result.1 ≡ self.last }
        ensures assured { result.2 ≡ self.assured }
    {
        (self.holder, self.last, self.assuring)
    }
}

impl<J: Naming> Locked<J> {
    /// Hands on all changes that were noted, and notes the next ones in another vector. It is refused for want of memory
    /// for what a creation was promised (NoMemory).
    pub(crate) fn hand_on(
        &mut self,
        handed: Handed<J>,
        fresh: Vec<Change>,
    ) -> (Handed<J>, Result<Vec<Change>, Refusal>)
        requires { fresh.items ≡ [] }
        ensures row { IfOk result.1 (λ batch. result.0.changes ≡ handed.changes ++ batch.items) }
        ensures made { OnOk result.1 (IsMadeByHanded J.first result.0 self.new.session) }
        ensures last { OnOk result.1 (result.0.last ≡ self.new.session) }
        ensures moment { OnOk result.1 (IsHandedMoment J.first result.0) }
        ensures later { OnOk result.1 (GoesOnLater handed.last result.0.last) }
        ensures assured { result.0.assured ≡ handed.assured }
        ensures session { self.new.session ≡ self.old.session }
        ensures same { OnErr result.1 (result.0 ≡ handed) }
        ensures errors { IfErr result.1 (λ e. e ≡ Refusal.NoMemory) }
    {
        self.session.tells_settled();
        let (holder, last, assuring) = handed.into_parts();
        let Some(book) = &mut self.book else {
            // Who has changes to hand on is of a session whose changes are noted.
            unreachable!();
        };
        match book.hand_on(holder, fresh) {
            (holder, Ok(batch)) => {
                let last = self.marks.mark_further(last, &self.session);
                (Handed::new(holder, last, assuring), Ok(batch))
            }
            (holder, Err(_)) => (Handed::new(holder, last, assuring), Err(Refusal::NoMemory)),
        }
    }

    /// Whether the last hand-on goes on from what was marked.
    fn has_handed(&self, handed: Handed<J>, marked: Marked<J>) -> (Handed<J>, Marked<J>, bool)
        ensures handed { result.2 ≡ true → GoesOnLater marked handed.last }
        ensures hander { result.0 ≡ handed }
        ensures mark { result.1 ≡ marked }
    {
        let (holder, last, assuring) = handed.into_parts();
        let (marked, last, has) = self.marks.is_before(marked, last);
        (Handed::new(holder, last, assuring), marked, has)
    }

    /// Hears a mark, from whose session that of now goes on. It is handed back as it was.
    fn hear(&mut self, marked: Marked<J>) -> Marked<J>
        ensures later { GoesOnLater marked self.new.session }
        ensures mark { result ≡ marked }
        ensures same { self.new ≡ self.old }
    {
        self.marks.hear(marked)
    }

    /// Hears these marks.
    pub(crate) fn hear_all(&mut self, marks: Vec<Marked<J>>)
        ensures later { All (λ marked. GoesOnLater marked self.new.session) marks.items }
        ensures same { self.new ≡ self.old }
    {
        for marked in marks {
            self.hear(marked);
        }
    }

    /// Hands on as [`Locked::hand_on`] does, where the last hand-on does not go on from what was marked.
    fn hand_on_to(
        &mut self,
        handed: Handed<J>,
        marked: Marked<J>,
        fresh: Vec<Change>,
    ) -> (Handed<J>, Marked<J>, Result<Option<Vec<Change>>, Refusal>)
        requires { fresh.items ≡ [] }
        ensures row { IfOk result.2 (λ some. IfSome some (λ batch. result.0.changes ≡ handed.changes ++ batch.items)) }
        ensures made { OnBatch result.2 (IsMadeByHanded J.first result.0 self.new.session) }
        ensures moment { OnBatch result.2 (IsHandedMoment J.first result.0) }
        ensures none { IfOk result.2 (λ some. IfNone some (result.0 ≡ handed)) }
        ensures later { OnOk result.2 (GoesOnLater handed.last result.0.last) }
        ensures marked { OnOk result.2 (GoesOnLater marked result.0.last) }
        ensures mark { result.1 ≡ marked }
        ensures assured { result.0.assured ≡ handed.assured }
        ensures same { OnErr result.2 (result.0 ≡ handed) }
        ensures errors { IfErr result.2 (λ e. e ≡ Refusal.NoMemory) }
    {
        let (handed, marked, has) = self.has_handed(handed, marked);
        if has {
            return (handed, marked, Ok(None));
        }
        let marked = self.hear(marked);
        let (handed, batch) = self.hand_on(handed, fresh);
        match batch {
            Ok(batch) => (handed, marked, Ok(Some(batch))),
            Err(refusal) => (handed, marked, Err(refusal)),
        }
    }

    /// Marks the session.
    fn mark_now(&mut self) -> Marked<J>
        ensures moment { IsMomentOf J.first result result.broker.words.kept }
        ensures now { result ≡ self.new.session }
        ensures session { self.new.session ≡ self.old.session }
    {
        self.session.tells_settled();
        self.marks.mark(&self.session)
    }

    /// Marks it, in the place of an earlier mark.
    pub(crate) fn mark_after(&mut self, before: Marked<J>) -> Marked<J>
        ensures before { GoesOnLater before result }
        ensures now { result ≡ self.old.session }
        ensures rest { self.new ≡ record self.old { marked = self.new.marked } }
    {
        let _ = &self.session;
        self.marks.mark_further(before, &self.session)
    }

    /// Marks it twice, in the place of an earlier mark.
    fn mark_twice(&mut self, before: Marked<J>) -> (Marked<J>, Marked<J>)
        ensures before { GoesOnLater before result.0 }
        ensures same { result.1 ≡ result.0 }
    {
        let kept = self.marks.mark_further(before, &self.session);
        let given = self.marks.mark(&self.session);
        (kept, given)
    }

    /// Marks it where a seat is at hand, which is handed back as it was.
    fn mark(&mut self, roll: &Roll<Entry>, seat: Seat<J>) -> (Seat<J>, Marked<J>)
        requires roll { roll.now ≡ J.roll.lists }
        ensures client { result.0.client ≡ seat.client }
        ensures list { result.0.list.items ≡ seat.list.items }
        ensures marked { IsMarkedBy J.first seat.client seat.list.items result.1 }
    {
        self.session.tells_settled();
        let seat = known(roll, &mut self.keeper, seat);
        (seat, self.marks.mark(&self.session))
    }

    /// The same, in the place of an earlier mark.
    pub(crate) fn mark_further(
        &mut self,
        roll: &Roll<Entry>,
        seat: Seat<J>,
        before: Marked<J>,
    ) -> (Seat<J>, Marked<J>)
        requires roll { roll.now ≡ J.roll.lists }
        ensures client { result.0.client ≡ seat.client }
        ensures list { result.0.list.items ≡ seat.list.items }
        ensures room { vec_capacity result.0.list ≡ vec_capacity seat.list }
        ensures marked { IsMarkedBy J.first seat.client seat.list.items result.1 }
        ensures now { (result.1 ≡ self.old.session) × (self.new.session ≡ self.old.session) }
        ensures before { GoesOnLater before result.1 }
    {
        self.session.tells_settled();
        let seat = known(roll, &mut self.keeper, seat);
        (seat, self.marks.mark_further(before, &self.session))
    }
}

impl<J: Naming> Shared<J> {
    /// Hands on all changes of kept words that were noted and not handed on yet, in the order of the acts that made
    /// them. All that were handed on so far make of the kept words that there were when the seats were given those of
    /// a moment, at which the session goes on from what it was at the hand-on before. Where the last hand-on goes on
    /// from the marked session already, nothing is handed on (None); else this one does. The lock is held once, for the
    /// exchange of two vectors alone. It is refused for want of memory (NoMemory), and then nothing is handed on.
    pub fn hand_on_to<R: Wait>(
        &self,
        rt: &R,
        alloc: Global,
        handed: Handed<J>,
        marked: Marked<J>,
    ) -> (Handed<J>, Marked<J>, Result<Option<Vec<Change>>, Refusal>)
        ensures row { IfOk result.2 (λ some. IfSome some (λ batch. result.0.changes ≡ handed.changes ++ batch.items)) }
        ensures within { OnBatch result.2 (AreHandedWithin J.first result.0) }
        ensures moment { OnBatch result.2 (IsHandedMoment J.first result.0) }
        ensures none { IfOk result.2 (λ some. IfNone some (result.0 ≡ handed)) }
        ensures later { OnOk result.2 (GoesOnLater handed.last result.0.last) }
        ensures marked { OnOk result.2 (GoesOnLater marked result.0.last) }
        ensures mark { result.1 ≡ marked }
        ensures assured { result.0.assured ≡ handed.assured }
        ensures same { OnErr result.2 (result.0 ≡ handed) }
        ensures errors { IfErr result.2 (λ e. e ≡ Refusal.NoMemory) }
    {
        let mut fresh = Vec::new(alloc);
        if fresh.reserve(CREATION_STEPS).is_err() {
            return (handed, marked, Err(Refusal::NoMemory));
        }
        lock(rt, &self.locked).hand_on_to(handed, marked, fresh)
    }

    /// Marks the session as it is now, which is at a moment.
    pub fn mark_now<R: Wait>(&self, rt: &R) -> Marked<J>
        ensures moment { IsMomentOf J.first result result.broker.words.kept }
    {
        lock(rt, &self.locked).mark_now()
    }

    /// Marks the session as it is now twice, in the place of an earlier mark, from which it goes on: one mark to keep,
    /// and one to give to who settles.
    pub fn mark_twice<R: Wait>(&self, rt: &R, before: Marked<J>) -> (Marked<J>, Marked<J>)
        ensures before { GoesOnLater before result.0 }
        ensures same { result.1 ≡ result.0 }
    {
        lock(rt, &self.locked).mark_twice(before)
    }

    /// Marks the session where a seat is at hand. The session's histories have the seat's list: so each answer that the
    /// list has is one that the session gave, and a reply may go out once the session lasts. The seat comes back as it was.
    pub fn mark<R: Wait>(&self, rt: &R, seat: Seat<J>) -> (Seat<J>, Marked<J>)
        ensures client { result.0.client ≡ seat.client }
        ensures list { result.0.list.items ≡ seat.list.items }
        ensures marked { IsMarkedBy J.first seat.client seat.list.items result.1 }
    {
        lock(rt, &self.locked).mark(&self.roll, seat)
    }

    /// The same, in the place of an earlier mark: the session goes on from what it was then.
    pub fn mark_further<R: Wait>(
        &self,
        rt: &R,
        seat: Seat<J>,
        before: Marked<J>,
    ) -> (Seat<J>, Marked<J>)
        ensures client { result.0.client ≡ seat.client }
        ensures list { result.0.list.items ≡ seat.list.items }
        ensures marked { IsMarkedBy J.first seat.client seat.list.items result.1 }
        ensures before { GoesOnLater before result.1 }
    {
        lock(rt, &self.locked).mark_further(&self.roll, seat, before)
    }
}
