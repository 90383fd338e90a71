//! What lies under the lock.

ghost use Rattle.std.specs.Prelude.{◌≡◌, ◌≢◌, ◌<◌, ◌∷◌, [], false, length, true, IfErr, IfOk, IfSome, vec_capacity, vec_len};
ghost use Rattle.directory.specs.Directory.{IsNamed};
ghost use Rattle.roll.specs.Rule.{IsKeeper, rows_of};
ghost use Rattle.workers.specs.Answers.{IsBegunAs, IsListAfter, IsListBegun};
ghost use Rattle.workers.specs.Following.{guarded_in, IsBeginning, IsGuardedWell};
ghost use Rattle.workers.specs.Lists.{ends_open, events_at};
ghost use Rattle.workers.specs.Marks.{IsMarkedBy};
ghost use Rattle.workers.specs.Moments.{GoesOnLater};
ghost use Rattle.workers.specs.Noting.{IsBooked};
ghost use Rattle.workers.specs.Refusals.{IsSettledStart, IsWhyRefused, WasSettled};
ghost use Rattle.workers.specs.Seats.{AreEmpty};
ghost use Rattle.workers.specs.Seen.{HadCalled, IsRefusedAt, IsRefusedIn};

use crate::book::{Book, advance, promise};
use crate::deeds::Register;
use crate::entry::{End, Entry, Request, Took, last_queue};
use crate::marks::{Marked, Marks};
use crate::naming::Naming;
use crate::seat::{Seat, known, with_entry, with_last};
use arena::SlotId;
use roll::{Roll, Token};
use session::Session;
use std::marker::{Model, PhantomData};
use words::{Refusal, Reply};

/// The creation that threads know of.
#[derive(Clone, Copy)]
pub(crate) enum Creating {
    /// None, or one that a crash ended before the seats were given.
    Nothing,
    /// Its caller takes its steps.
    UnderWay,
    /// A crash ended it, and its caller has not seen that.
    Interrupted,
}

/// The session, beside the keeper of the seats' lists, each of which is what the histories have of its client, and that
/// of what was done to all of it.
#[derive(Drop)]
pub(crate) struct Locked<J: Naming> {
    pub(crate) session: Session,
    pub(crate) keeper: Token<Entry>,
    pub(crate) register: Register,
    pub(crate) creating: Creating,
    /// Whether the histories have ended since the seats were given.
    pub(crate) rotated: bool,
    /// The changes of kept words, where they are noted.
    pub(crate) book: Option<Book>,
    /// The sessions that were marked.
    pub(crate) marks: Marks<J>,
    of: PhantomData<J>,
}

impl<J: Naming> Model for Locked<J> {
    ghost use Rattle.roll.specs.Rule.{IsKeeper, rows_of};
    ghost use Rattle.workers.specs.Following.{Held, IsGuardedWell};
    ghost use Rattle.workers.specs.Noting.{IsBooked, promised_in};

    ghost Value = { Held };

    ghost view = { λ l. record {
      session = l.session;
      rows = rows_of l.keeper;
      deeds = rows_of l.register.keeper;
      creating = l.creating;
      rotated = l.rotated;
      marked = l.marks;
      promised = promised_in l.book;
    } };

    ghost invariant = { λ l. IsKeeper J.roll.lists (rows_of l.keeper) l.keeper
        × IsGuardedWell J.clients J.first (record {
          session = l.session;
          rows = rows_of l.keeper;
          deeds = rows_of l.register.keeper;
          creating = l.creating;
          rotated = l.rotated;
          marked = l.marks;
        })
        × IsKeeper J.roll.deeds (rows_of l.register.keeper) l.register.keeper
        × IsBooked J.roll.changes J.first.broker.words.kept l.session.broker l.creating l.book };
}

/// How many events the history of a slot has; 0 where the slot is closed.
pub(crate) fn events_in(session: &Session, queue: SlotId) -> usize
    ensures { result ≡ length (events_at session.now.broker queue.0) }
{
    match session.broker().history(queue) {
        Ok(history) => history.events.len(),
        Err(_) => 0,
    }
}

/// Whether a call was refused for want of memory.
fn is_want_of_memory(refusal: Refusal) -> bool
    ensures memory { result ≡ true → refusal ≡ Refusal.NoMemory }
    ensures other { result ≡ false → refusal ≢ Refusal.NoMemory }
{
    matches!(refusal, Refusal::NoMemory)
}

impl<J: Naming> Locked<J> {
    /// What is to lie under the lock, where no seat has been used yet. It is a call of its own: where LLVM puts it into
    /// its caller, the session goes to two places of one answer, and LLVM takes minutes to split it.
    #[inline(never)]
    pub(crate) fn new(
        session: Session,
        keeper: Token<Entry>,
        register: Register,
        book: Option<Book>,
        marks: Marks<J>,
    ) -> Self
        requires keeper { IsKeeper J.roll.lists (rows_of keeper) keeper }
        requires register { IsKeeper J.roll.deeds ([] ∷ []) register.keeper }
        requires clients { length (rows_of keeper) ≡ J.clients }
        requires first { session ≡ J.first }
        requires beginning { IsBeginning J.clients session }
        requires empty { AreEmpty (λ row. row) (rows_of keeper) }
        requires book { IsBooked J.roll.changes J.first.broker.words.kept session.broker Creating.Nothing book }
        requires marks { marks ≡ J.first ∷ [] }
    {
        Locked {
            session,
            keeper,
            register,
            creating: Creating::Nothing,
            rotated: false,
            book,
            marks,
            of: PhantomData,
        }
    }

    /// The session, the keeper of the seats' lists, and what keeps what was done.
    pub(crate) fn into_parts(self) -> (Session, Token<Entry>, Register)
        ensures session { result.0 ≡ self.session }
        ensures keeper { IsKeeper J.roll.lists self.rows result.1 }
        ensures register { IsKeeper J.roll.deeds self.deeds result.2.keeper }
        ensures well { IsGuardedWell J.clients J.first (guarded_in self) }
    {
        (self.session, self.keeper, self.register)
    }

    /// Begins a call of the seat's client in the queue of a slot. Its entry is written in the same event, so that list
    /// and history never part.
    fn begin_in(
        &mut self,
        roll: &Roll<Entry>,
        seat: Seat<J>,
        queue: SlotId,
        request: &Request,
    ) -> (Seat<J>, Result<Option<Reply>, Refusal>)
        requires roll { roll.now ≡ J.roll.lists }
        requires idle { ends_open seat.list.items ≡ false }
        requires room { vec_len seat.list < vec_capacity seat.list }
        requires named { IsNamed self.old.session.broker.directory queue.0 request.now.name }
        ensures client { result.0.client ≡ seat.client }
        ensures begun { IsListBegun seat.list.items request.now result.1 result.0.list.items }
        ensures act { IsBegunAs self.old.session self.new.session queue.0 seat.client request.now result.1 }
        ensures errors { IfErr result.1 (IsWhyRefused J.first seat.list.items request.now) }
        ensures refused { IfErr result.1 (IsRefusedIn self.old.session queue.0 seat.client request.now) }
        ensures settled { (reply : Reply) → WasSettled J.first seat.client request.now reply
            → IsSettledStart reply result.1 }
    {
        let next = events_in(&self.session, queue);
        match self
            .session
            .begin(seat.client, queue, request.number, request.call)
        {
            Ok(began) => {
                let entry = request.entry(queue, next, &began);
                (with_entry(roll, &mut self.keeper, seat, entry), Ok(began))
            }
            Err(refusal) => (known(roll, &mut self.keeper, seat), Err(refusal)),
        }
    }

    /// Finds the queue of a call, and begins it there, in one event.
    fn begin_found(
        &mut self,
        roll: &Roll<Entry>,
        seat: Seat<J>,
        request: &Request,
    ) -> (Seat<J>, Result<Option<Reply>, Refusal>)
        requires roll { roll.now ≡ J.roll.lists }
        requires idle { ends_open seat.list.items ≡ false }
        requires room { vec_len seat.list < vec_capacity seat.list }
        ensures client { result.0.client ≡ seat.client }
        ensures begun { IsListBegun seat.list.items request.now result.1 result.0.list.items }
        ensures errors { IfErr result.1 (IsWhyRefused J.first seat.list.items request.now) }
        ensures refused { IfErr result.1 (IsRefusedAt self.old.session seat.client request.now) }
        ensures settled { (reply : Reply) → WasSettled J.first seat.client request.now reply
            → IsSettledStart reply result.1 }
    {
        let _ = &self.session;
        match self.session.broker().slot_of(&request.name) {
            Ok(queue) => self.begin_in(roll, seat, queue, request),
            Err(refusal) => (seat, Err(refusal)),
        }
    }

    /// The same, and a mark of the session, in the place of an earlier one: as it was before, or, where the call has the
    /// reply that was kept, as it is with the seat's list. Before, the histories had just the seat's list.
    pub(crate) fn begin(
        &mut self,
        roll: &Roll<Entry>,
        seat: Seat<J>,
        request: &Request,
        before: Marked<J>,
    ) -> (Seat<J>, Marked<J>, Result<Option<Reply>, Refusal>)
        requires roll { roll.now ≡ J.roll.lists }
        requires idle { ends_open seat.list.items ≡ false }
        requires room { vec_len seat.list < vec_capacity seat.list }
        ensures client { result.0.client ≡ seat.client }
        ensures begun { IsListBegun seat.list.items request.now result.2 result.0.list.items }
        ensures errors { IfErr result.2 (IsWhyRefused J.first seat.list.items request.now) }
        ensures refused { IfErr result.2 (IsRefusedAt result.1 seat.client request.now) }
        ensures kept { IfOk result.2 (λ began. IfSome began (λ reply.
            IsMarkedBy J.first seat.client result.0.list.items result.1)) }
        ensures settled { (reply : Reply) → WasSettled J.first seat.client request.now reply
            → IsSettledStart reply result.2 }
        ensures since { HadCalled J.first seat.client seat.list.items before result.1 }
        ensures later { GoesOnLater before result.1 }
    {
        let (seat, marked) = self.mark_further(roll, seat, before);
        let (seat, began) = self.begin_found(roll, seat, request);
        match began {
            Ok(Some(reply)) => {
                let (seat, marked) = self.mark_further(roll, seat, marked);
                (seat, marked, Ok(Some(reply)))
            }
            Ok(None) => (seat, marked, Ok(None)),
            Err(refusal) => (seat, marked, Err(refusal)),
        }
    }

    /// One step of the seat's open call.
    // Part of its caller, as `Shared::step` is.
    #[inline(always)]
    pub(crate) fn step(&mut self, roll: &Roll<Entry>, seat: Seat<J>) -> (Seat<J>, Took)
        requires roll { roll.now ≡ J.roll.lists }
        requires open { ends_open seat.list.items ≡ true }
        ensures client { result.0.client ≡ seat.client }
        ensures step { IsListAfter seat.list.items result.1 result.0.list.items }
    {
        if !promise(&mut self.book, 1) {
            return (seat, Took::NoMemory);
        }
        let queue = last_queue(seat.list.as_slice());
        match advance(&mut self.session, &mut self.book, seat.client, queue) {
            Ok(None) => (seat, Took::More),
            Ok(Some(reply)) => {
                let answered = reply;
                let seat = with_last(roll, &mut self.keeper, seat, End::Answered(reply));
                (seat, Took::Answered(answered))
            }
            Err(refusal) => {
                if is_want_of_memory(refusal) {
                    return (seat, Took::NoMemory);
                }
                // No call of the client is under way any more, or the broker recovers: a crash ended it.
                let seat = with_last(roll, &mut self.keeper, seat, End::Interrupted);
                (seat, Took::Interrupted)
            }
        }
    }
}
