//! The changes of kept words, where they are noted.

ghost use Rattle.std.specs.Prelude.{◌≡◌, ◌+◌, ◌++◌, [], ℕ, List, false, true, IfErr, IfOk, None, OnErr, OnOk};
ghost use Rattle.persist.specs.Noted.{answer_in, change_in, IsNoted};
ghost use Rattle.roll.specs.Rule.{IsHolder, row_of};
ghost use Rattle.named.specs.GoingOn.{BrokerGoesOn};
ghost use Rattle.named.specs.Lasting.{steps_left};
ghost use Rattle.named.specs.Renewing.{HasRoomInEach, IsRenewedAt, IsWhyNotRenewedAt, MayRenew};
ghost use Rattle.session.specs.Keeping.{SessionGoesOn};
ghost use Rattle.session.specs.Promises.{KeepsNumbers};
ghost use Rattle.session.specs.Requests.{IsAdvanced};
ghost use Rattle.workers.specs.Noting.{handed_in, HasHandedOn, HasPromised, IsBookOn, promised_in, with_promised};

use arena::SlotId;
use notes::Notes;
use persist::{Change, Noted};
use roll::{Roll, Token};
use session::Session;
use std::alloc::AllocError;
use words::{Client, Refusal, Reply};

/// The changes of kept words: the keeper of those that were handed on, and those that were noted since.
#[derive(Drop)]
pub(crate) struct Book {
    pub(crate) roll: Roll<Change>,
    pub(crate) keeper: Token<Change>,
    pub(crate) notes: Notes,
}

impl Book {
    /// Hands on all that was noted, and notes the next changes in another vector. It fails for want of memory for what
    /// was promised, and then all stays.
    pub(crate) fn hand_on(
        &mut self,
        holder: Token<Change>,
        fresh: Vec<Change>,
    ) -> (Token<Change>, Result<Vec<Change>, AllocError>)
        requires fresh { fresh.items ≡ [] }
        requires keeper { HasHandedOn self.old.roll (handed_in self.old) self.old }
        requires holder { IsHolder self.old.roll 0 (row_of holder) holder }
        ensures batch { IfOk result.1 (λ batch. batch.items ≡ self.old.notes.changes) }
        ensures before { OnOk result.1 (row_of holder ≡ handed_in self.old) }
        ensures roll { OnOk result.1 (self.new.roll ≡ self.old.roll) }
        ensures keeper { IfOk result.1
            (λ batch. HasHandedOn self.old.roll (handed_in self.old ++ batch.items) self.new) }
        ensures notes { OnOk result.1 (self.new.notes ≡ record self.old.notes { changes = [] }) }
        ensures holder { IfOk result.1
            (λ batch. IsHolder self.old.roll 0 (row_of holder ++ batch.items) result.0) }
        ensures same { OnErr result.1 (self.new ≡ self.old) }
        ensures unmoved { OnErr result.1 (result.0 ≡ holder) }
    {
        let Ok(batch) = self.notes.hand_out(fresh) else {
            return (holder, Err(AllocError));
        };
        let holder = self.roll.extend(&mut self.keeper, holder, &batch);
        (holder, Ok(batch))
    }
}

/// Promises room for so many changes more, where changes are noted; if there is memory for it.
// Part of its caller, as `Shared::step` is.
#[inline(always)]
pub(crate) fn promise(book: &mut Option<Book>, changes: usize) -> bool
    ensures on { (words : List ℕ) → IsBookOn book.old book.new words words }
    ensures more { result ≡ true → promised_in book.new ≡ with_promised changes (promised_in book.old) }
    ensures same { result ≡ false → book.new ≡ book.old }
    ensures nothing { book.old ≡ None → result ≡ true }
{
    match book {
        None => true,
        Some(book) => book.notes.promise(changes),
    }
}

/// Takes back what was promised for so many changes.
pub(crate) fn release(book: &mut Option<Book>, changes: usize)
    requires { HasPromised changes (promised_in book.old) }
    ensures on { (words : List ℕ) → IsBookOn book.old book.new words words }
    ensures less { promised_in book.old ≡ with_promised changes (promised_in book.new) }
{
    if let Some(book) = book {
        book.notes.release(changes);
    }
}

/// Takes back all that was promised.
pub(crate) fn release_all(book: &mut Option<Book>)
    ensures on { (words : List ℕ) → IsBookOn book.old book.new words words }
{
    if let Some(book) = book {
        book.notes.release_all();
    }
}

/// Notes the change that an act made, if it made one. An answer is long and seldom there, so it is looked at where it
/// lies and not copied.
// Part of its caller, as `Shared::step` is.
#[inline(always)]
pub(crate) fn note_act<T>(book: &mut Option<Book>, act: &Result<Noted<T>, Refusal>)
    requires { HasPromised 1 (promised_in book.old) }
    ensures on { (was now : List ℕ) → IsNoted (change_in act.now) was now → IsBookOn book.old book.new was now }
    ensures less { promised_in book.old ≡ with_promised 1 (promised_in book.new) }
{
    if let Some(book) = book {
        let change = match act {
            Ok(noted) => noted.change,
            Err(_) => None,
        };
        book.notes.note(change);
    }
}

/// What an act answered, whose change is noted.
pub(crate) fn noted<T>(
    book: &mut Option<Book>,
    act: Result<Noted<T>, Refusal>,
) -> Result<T, Refusal>
    requires { HasPromised 1 (promised_in book.old) }
    ensures answer { result ≡ answer_in act }
    ensures on { (was now : List ℕ) → IsNoted (change_in act) was now → IsBookOn book.old book.new was now }
    ensures less { promised_in book.old ≡ with_promised 1 (promised_in book.new) }
{
    note_act(book, &act);
    Ok(act?.answer)
}

/// One step of a client's call, as [`session::Session::advance`] makes it. Where changes are noted, its change is: room
/// for it was promised. Where none are, none is asked for: to copy a change that nobody reads takes time in each act.
// Part of its caller, as `Shared::step` is.
#[inline(always)]
pub(crate) fn advance(
    session: &mut Session,
    book: &mut Option<Book>,
    client: Client,
    queue: SlotId,
) -> Result<Option<Reply>, Refusal>
    requires { HasPromised 1 (promised_in book.old) }
    ensures advanced { IsAdvanced session.old.broker session.new.broker queue.0 client result }
    ensures on { IsBookOn book.old book.new session.old.broker.words.kept session.new.broker.words.kept }
    ensures less { promised_in book.old ≡ with_promised 1 (promised_in book.new) }
    ensures goes_on { SessionGoesOn session.old session.new }
    ensures queues { BrokerGoesOn session.old.broker session.new.broker }
    ensures promises { KeepsNumbers session.new }
{
    match book {
        None => session.advance(client, queue),
        Some(_) => {
            let act = session.advance_noted(client, queue);
            noted(book, act)
        }
    }
}

/// The queue of a slot begins in fresh records, as [`session::Session::renew`] makes it. Where changes are noted, its
/// changes are, and room is promised for those of the recovery that it begins.
pub(crate) fn renew(
    session: &mut Session,
    book: &mut Option<Book>,
    slot: SlotId,
) -> Result<(), Refusal>
    ensures may { OnOk result (MayRenew session.old.broker slot.0) }
    ensures renewed { OnOk result (IsRenewedAt session.old.broker session.new.broker slot.0) }
    ensures room { OnOk result (HasRoomInEach session.new.broker 1) }
    ensures on { OnOk result
        (IsBookOn book.old book.new session.old.broker.words.kept session.new.broker.words.kept) }
    ensures promised { OnOk result (HasPromised (steps_left session.new.broker + 1) (promised_in book.new)) }
    ensures errors { IfErr result (IsWhyNotRenewedAt session.old.broker slot.0) }
    ensures same { OnErr result (session.new ≡ session.old) }
    ensures unnoted { OnErr result (book.new ≡ book.old) }
    ensures kept { session.new.kept ≡ session.old.kept }
    ensures goes_on { SessionGoesOn session.old session.new }
    ensures promises { KeepsNumbers session.new }
{
    match book {
        None => session.renew(slot),
        Some(book) => {
            let more = session.broker().more_than_recovery_steps();
            session.renew_noted(slot, &mut book.notes, more)
        }
    }
}
