//! The journal of a shared session where its storage has it.

ghost use Rattle.std.specs.Prelude.{◌≡◌, ◌++◌, ◌∷◌, [], false, is_err, true, IfOk, OnErr, OnOk};
ghost use Rattle.persist.specs.Noted.{applied};
ghost use Rattle.lasting.specs.Lasting.{Assures, EndsAtMomentOf, HasMoments, IsKeptBy};
ghost use Rattle.lasting.specs.Settling.{HasSettled};
ghost use Rattle.session.specs.Keeping.{SessionGoesOn};
ghost use Rattle.session.specs.Promises.{KeepsNumbers};
ghost use Rattle.workers.specs.Moments.{GoesOnLater, IsMomentOf};
ghost use Rattle.workers.specs.Seats.{AreAllInOrder, AreSeatsRecorded};

use crate::journaled::Journaled;
use crate::policy::Policy;
use devices::Failed;
use journal_file::{Journal, Storage, Uncompacted};
use session::Session;
use std::alloc::Global;
use std::marker::Model;
use std::sync::Wait;
use words::Refusal;
use workers::{Assured, Handed, Marked, Naming, Seat, Shared};

/// How many bytes of frames a journal has at least when it is compacted.
pub const LEAST_FRAMES: u64 = 0x100_0000;

/// How many times as long as the journal was when it began its frames are then.
pub const FRAMES_BY_HEAD: u64 = 4;

/// The journal of a shared session, which is kept by a policy. Where its storage fails or it has grown long, it goes on by
/// itself as another journal of its words, which takes its place. Where that fails too, it has failed for good.
#[derive(Drop)]
pub struct Settler<J: Naming, S: Storage + Drop> {
    journaled: Journaled<J, S>,
    /// The journal is compacted once it has more bytes than these.
    enough: u64,
    failed: bool,
}

impl<J: Naming, S: Storage + Drop> Model for Settler<J, S> {
    ghost use Rattle.lasting.specs.Settling.{Settled};

    ghost Value = { Settled };

    ghost view = { λ s. record { kept = s.journaled; policy = s.journaled.policy; failed = s.failed } };
}

/// How many bytes are enough for a journal that has so many now.
fn enough_behind(size: u64) -> u64 {
    size.saturating_add(size.saturating_mul(FRAMES_BY_HEAD).max(LEAST_FRAMES))
}

/// What a refusal of a settle leaves to hope for: want of memory may pass, and no other refusal does.
fn may_pass(refusal: Refusal) -> bool {
    matches!(refusal, Refusal::NoMemory)
}

impl<J: Naming, S: Storage + Drop> Settler<J, S> {
    /// The journal of a session that nobody has called yet: it begins on these words, and takes the place of what stands
    /// in the storage. It is refused where the storage fails (WriteFailed), for want of memory (NoMemory), and as
    /// [`Journal::begin`] is.
    pub fn begin(
        alloc: Global,
        handed: Handed<J>,
        words: Vec<u64>,
        storage: S,
        policy: Policy,
    ) -> Result<Self, Refusal>
        requires words { words.items ≡ applied handed.changes J.first.broker.words.kept }
        requires moment { IsMomentOf J.first handed.last words.items }
        requires nothing { handed.assured ≡ [] }
        ensures handed { IfOk result (λ s. s.kept.handed ≡ handed.changes) }
        ensures all { IfOk result (λ s. s.kept.pending ≡ []) }
        ensures policy { IfOk result (λ s. s.policy ≡ policy) }
        ensures settled { IfOk result (HasSettled J.first) }
        ensures going { IfOk result (λ s. s.failed ≡ false) }
    {
        let Ok(key) = storage.draw_key() else {
            return Err(Refusal::WriteFailed);
        };
        let journaled = Journaled::begin(alloc, policy, handed, storage, &key, words)?;
        let enough = enough_behind(journaled.journal().size());
        Ok(Settler {
            journaled,
            enough,
            failed: false,
        })
    }

    /// The policy by which the journal is kept.
    pub fn policy(&self) -> Policy
        ensures { result ≡ self.now.policy }
    {
        self.journaled.policy()
    }

    /// How many bytes the journal has.
    pub fn size(&self) -> u64
        ensures { result ≡ self.now.kept.journal.size }
    {
        self.journaled.journal().size()
    }

    /// How many of its bytes were there when all were last kept.
    pub fn kept(&self) -> u64
        ensures { result ≡ self.now.kept.journal.kept }
    {
        self.journaled.journal().kept()
    }

    /// Whether it has failed for good. Then nothing is settled any more.
    pub fn has_failed(&self) -> bool
        ensures { result ≡ self.now.failed }
    {
        self.failed
    }

    /// The journal goes on as its present words, in place of the one in use. Where it cannot begin so, the one in use goes
    /// on; where it is not known which one has the place, it has failed.
    fn compact(&mut self, alloc: Global) -> Result<(), Refusal>
        ensures handed { self.new.kept.handed ≡ self.old.kept.handed }
        ensures last { self.new.kept.last ≡ self.old.kept.last }
        ensures pending { self.new.kept.pending ≡ self.old.kept.pending }
        ensures words { self.new.kept.journal.words ≡ self.old.kept.journal.words }
        ensures policy { self.new.policy ≡ self.old.policy }
        ensures kept { OnOk result (self.new.kept.journal.kept ≡ self.new.kept.journal.size) }
        ensures going { OnOk result (self.new.kept.journal.failed ≡ false) }
        ensures failed { OnOk result (self.new.failed ≡ self.old.failed) }
        ensures same { OnErr result (self.new.failed ≡ false → self.new.kept ≡ self.old.kept) }
    {
        let Ok(key) = self.journaled.draw_key() else {
            return Err(Refusal::WriteFailed);
        };
        match self.journaled.compact(alloc, &key) {
            Ok(()) => {
                self.enough = enough_behind(self.journaled.journal().size());
                Ok(())
            }
            Err(Uncompacted::NoMemory) => Err(Refusal::NoMemory),
            Err(Uncompacted::WriteFailed) => Err(Refusal::WriteFailed),
            Err(Uncompacted::Unknown) => {
                self.failed = true;
                Err(Refusal::WriteFailed)
            }
        }
    }

    /// Keeps what was appended, as the policy says, in a storage that has not failed.
    fn keep_by_policy(&mut self) -> Result<(), Refusal>
        ensures handed { self.new.kept.handed ≡ self.old.kept.handed }
        ensures last { self.new.kept.last ≡ self.old.kept.last }
        ensures pending { self.new.kept.pending ≡ self.old.kept.pending }
        ensures words { self.new.kept.journal.words ≡ self.old.kept.journal.words }
        ensures policy { self.new.policy ≡ self.old.policy }
        ensures failed { self.new.failed ≡ self.old.failed }
        ensures kept { OnOk result (IsKeptBy self.new.policy self.new.kept.journal) }
        ensures going { OnOk result (self.new.kept.journal.failed ≡ false) }
    {
        if self.journaled.journal().has_failed() {
            return Err(Refusal::WriteFailed);
        }
        match self.journaled.policy() {
            Policy::Always => self.journaled.keep_all(),
            Policy::EachSecond | Policy::Never => Ok(()),
        }
    }

    /// Where a refusal came, the journal goes on as another one in its place. It fails for want of memory, which may pass,
    /// and where that one fails too, or may not have the place: then for good.
    fn go_on_anew(&mut self, alloc: Global, refusal: Refusal) -> Result<(), Failed>
        ensures handed { self.new.kept.handed ≡ self.old.kept.handed }
        ensures pending { self.new.kept.pending ≡ self.old.kept.pending }
        ensures words { self.new.kept.journal.words ≡ self.old.kept.journal.words }
        ensures policy { self.new.policy ≡ self.old.policy }
        ensures kept { OnOk result (self.new.kept.journal.kept ≡ self.new.kept.journal.size) }
        ensures failed { OnOk result (self.new.failed ≡ self.old.failed) }
    {
        if may_pass(refusal) {
            return Err(Failed);
        }
        if let Err(refusal) = self.compact(alloc) {
            self.failed = self.failed || !may_pass(refusal);
            return Err(Failed);
        }
        Ok(())
    }

    /// Compacts the journal where it has grown long. Where that is refused, the one in use goes on, and it is tried
    /// again after as much growth; it fails where it is not known which one has the place.
    fn compact_if_long(&mut self, alloc: Global) -> Result<(), Failed>
        requires going { self.old.failed ≡ false }
        requires settled { HasSettled J.first self.old }
        ensures last { self.new.kept.last ≡ self.old.kept.last }
        ensures policy { self.new.policy ≡ self.old.policy }
        ensures settled { OnOk result (HasSettled J.first self.new) }
        ensures failed { self.new.failed ≡ is_err result }
    {
        let size = self.journaled.journal().size();
        if size <= self.enough {
            return Ok(());
        }
        if self.compact(alloc).is_err() {
            self.enough = enough_behind(size);
        }
        if self.failed { Err(Failed) } else { Ok(()) }
    }

    /// Hands on what the session noted since, if not all that was marked is handed on, appends it behind what is
    /// pending, and keeps it as the policy says.
    fn appended<R: Wait>(
        self,
        rt: &R,
        alloc: Global,
        shared: &Shared<J>,
        marked: Marked<J>,
    ) -> (Self, Marked<J>, Result<(), Refusal>)
        ensures settled { OnOk result.2 (HasSettled J.first result.0) }
        ensures marked { OnOk result.2 (GoesOnLater marked result.0.kept.last) }
        ensures mark { result.1 ≡ marked }
        ensures policy { result.0.policy ≡ self.policy }
        ensures failed { result.0.failed ≡ self.failed }
    {
        let Settler {
            journaled,
            enough,
            failed,
        } = self;
        let (journaled, marked, appended) = journaled.settle(rt, alloc, shared, marked);
        let mut settler = Settler {
            journaled,
            enough,
            failed,
        };
        if appended.is_err() {
            return (settler, marked, appended);
        }
        let kept = settler.keep_by_policy();
        (settler, marked, kept)
    }

    /// The same once more, behind a journal that just began. What it is refused then is for good, but for want of memory.
    fn appended_anew<R: Wait>(
        self,
        rt: &R,
        alloc: Global,
        shared: &Shared<J>,
        marked: Marked<J>,
    ) -> (Self, Marked<J>, Result<(), Failed>)
        ensures settled { OnOk result.2 (HasSettled J.first result.0) }
        ensures marked { OnOk result.2 (GoesOnLater marked result.0.kept.last) }
        ensures mark { result.1 ≡ marked }
        ensures policy { result.0.policy ≡ self.policy }
    {
        let (mut settler, marked, appended) = self.appended(rt, alloc, shared, marked);
        if let Err(refusal) = appended {
            settler.failed = settler.failed || !may_pass(refusal);
            return (settler, marked, Err(Failed));
        }
        (settler, marked, Ok(()))
    }

    /// Hands on all changes that the session noted since, appends them, and keeps them where the policy is to keep
    /// always. Nothing is handed on where all that was marked is. At Ok the journal has every change that was handed on,
    /// and the session of the last hand-on goes on from the marked one. Where its storage fails, it goes on as another
    /// journal in its place, once. It fails for want of memory, which may pass, and where that one fails too, or may not
    /// have the place: then for good. What was handed on and could not be appended is appended first the next time.
    pub fn settle<R: Wait>(
        self,
        rt: &R,
        alloc: Global,
        shared: &Shared<J>,
        marked: Marked<J>,
    ) -> (Self, Marked<J>, Result<(), Failed>)
        ensures settled { OnOk result.2 (HasSettled J.first result.0) }
        ensures marked { OnOk result.2 (GoesOnLater marked result.0.kept.last) }
        ensures mark { result.1 ≡ marked }
        ensures policy { result.0.policy ≡ self.policy }
        ensures over { self.failed ≡ true → (result.0 ≡ self) × (is_err result.2 ≡ true) }
    {
        if self.failed {
            return (self, marked, Err(Failed));
        }
        let (mut settler, marked, appended) = self.appended(rt, alloc, shared, marked);
        if let Err(refusal) = appended {
            if settler.go_on_anew(alloc, refusal).is_err() {
                return (settler, marked, Err(Failed));
            }
            return settler.appended_anew(rt, alloc, shared, marked);
        }
        let settled = settler.compact_if_long(alloc);
        (settler, marked, settled)
    }

    /// Assures a session from which that of the last hand-on goes on, where all is settled.
    fn assure(self, marked: &Marked<J>) -> (Self, Assured<J>)
        requires settled { HasSettled J.first self }
        requires later { GoesOnLater marked.now self.kept.last }
        ensures kept { result.0.kept ≡ record self.kept { assured = self.kept.assured ++ marked.now ∷ [] } }
        ensures policy { result.0.policy ≡ self.policy }
        ensures failed { result.0.failed ≡ self.failed }
        ensures assured { result.1 ≡ marked.now }
    {
        let Settler {
            journaled,
            enough,
            failed,
        } = self;
        let (journaled, assured) = journaled.assure(marked);
        let settler = Settler {
            journaled,
            enough,
            failed,
        };
        (settler, assured)
    }

    /// Settles as [`Settler::settle`] does. At Ok the session of the last hand-on, which the journal ends at, goes on from
    /// the marked one, and the token says for good that the journal assures that one ([`Settler::hears`]).
    pub fn settle_up_to<R: Wait>(
        self,
        rt: &R,
        alloc: Global,
        shared: &Shared<J>,
        marked: Marked<J>,
    ) -> (Self, Result<Assured<J>, Failed>)
        ensures settled { OnOk result.1 (HasSettled J.first result.0) }
        ensures marked { OnOk result.1 (GoesOnLater marked result.0.kept.last) }
        ensures assured { IfOk result.1 (λ assured. assured ≡ marked) }
        ensures policy { result.0.policy ≡ self.policy }
        ensures over { self.failed ≡ true → (result.0 ≡ self) × (is_err result.1 ≡ true) }
    {
        let (settler, marked, settled) = self.settle(rt, alloc, shared, marked);
        if settled.is_err() {
            return (settler, Err(Failed));
        }
        let (settler, assured) = settler.assure(&marked);
        (settler, Ok(assured))
    }

    /// How often the place of the journal told that it is still this one's, as [`Storage::answers`] says.
    pub fn answers(&self) -> u64 {
        self.journaled.journal().storage().answers()
    }

    /// Asks whether the place of the journal is still this one's. Where it is not, it has failed for good.
    pub fn confirm(&mut self) -> Result<(), Failed>
        ensures same { OnOk result (self.new ≡ self.old) }
        ensures policy { self.new.policy ≡ self.old.policy }
        ensures failed { OnErr result (self.new.failed ≡ true) }
    {
        match self.journaled.confirm() {
            Ok(()) => Ok(()),
            Err(_) => {
                self.failed = true;
                Err(Failed)
            }
        }
    }

    /// The same, where that is asked for.
    fn confirm_if(&mut self, asks: bool) -> Result<(), Failed>
        ensures same { OnOk result (self.new ≡ self.old) }
        ensures policy { self.new.policy ≡ self.old.policy }
    {
        if !asks {
            return Ok(());
        }
        self.confirm()
    }

    /// Settles as [`Settler::settle_up_to`] does, and asks then whether the place of the journal is still this one's,
    /// where that is asked for and nothing was put there meanwhile. It fails for good where it is not.
    pub fn settle_current<R: Wait>(
        self,
        rt: &R,
        alloc: Global,
        shared: &Shared<J>,
        marked: Marked<J>,
        asks: bool,
    ) -> (Self, Result<Assured<J>, Failed>)
        ensures settled { OnOk result.1 (HasSettled J.first result.0) }
        ensures assured { IfOk result.1 (λ assured. assured ≡ marked) }
        ensures policy { result.0.policy ≡ self.policy }
    {
        let before = self.answers();
        let (mut settler, settled) = self.settle_up_to(rt, alloc, shared, marked);
        let Ok(assured) = settled else {
            return (settler, Err(Failed));
        };
        let asks = asks && settler.answers() == before;
        if settler.confirm_if(asks).is_err() {
            return (settler, Err(Failed));
        }
        (settler, Ok(assured))
    }

    /// Hears a token of this journal: it assures the token's session. Both come back as they were. It is said of the journal
    /// that stands at the place of the storage.
    pub fn hears(self, assured: Assured<J>) -> (Self, Assured<J>)
        ensures sure { Assures J.first self.policy assured self.kept.journal }
        ensures last { GoesOnLater assured self.kept.last }
        ensures settler { result.0 ≡ self }
        ensures assured { result.1 ≡ assured }
    {
        let Settler {
            journaled,
            enough,
            failed,
        } = self;
        let (journaled, assured) = journaled.hears(assured);
        let settler = Settler {
            journaled,
            enough,
            failed,
        };
        (settler, assured)
    }

    /// Keeps all that was appended, whatever the policy is. Where the storage fails, it goes on as
    /// [`Settler::settle`] does, and fails as that does.
    pub fn keep_up(&mut self, alloc: Global) -> Result<(), Failed>
        ensures handed { self.new.kept.handed ≡ self.old.kept.handed }
        ensures pending { self.new.kept.pending ≡ self.old.kept.pending }
        ensures words { self.new.kept.journal.words ≡ self.old.kept.journal.words }
        ensures policy { self.new.policy ≡ self.old.policy }
        ensures kept { OnOk result (IsKeptBy Policy.Always self.new.kept.journal) }
        ensures over { self.old.failed ≡ true → (self.new ≡ self.old) × (is_err result ≡ true) }
    {
        if self.failed {
            return Err(Failed);
        }
        match self.journaled.keep_all() {
            Ok(()) => Ok(()),
            Err(refusal) => self.go_on_anew(alloc, refusal),
        }
    }

    /// Takes the session back, as [`Journaled::close`] does, once all was settled. It fails where it has failed, and
    /// where the last batch is not appended and kept.
    pub fn close(
        self,
        alloc: Global,
        shared: Shared<J>,
        seats: Vec<Seat<J>>,
    ) -> (Session, Journal<S>, Result<(), Failed>)
        requires { AreAllInOrder (λ seat. seat.client) J.clients seats.items }
        ensures lists { AreSeatsRecorded (λ seat. seat.list.items) J.first seats.items result.0 }
        ensures goes_on { SessionGoesOn J.first result.0 }
        ensures promises { KeepsNumbers result.0 }
        ensures words { OnOk result.2 (result.1.words ≡ result.0.broker.words.kept) }
        ensures kept { OnOk result.2 (result.1.kept ≡ result.1.size) }
        ensures moments { HasMoments J.first result.1 }
        ensures ends { OnOk result.2 (EndsAtMomentOf J.first result.0 result.1) }
        ensures later { OnOk result.2 (GoesOnLater self.kept.last result.0) }
        ensures over { self.failed ≡ true → is_err result.2 ≡ true }
    {
        let failed = self.failed;
        let (session, journal, ended) = self.journaled.close(alloc, shared, seats);
        if failed || ended.is_err() {
            return (session, journal, Err(Failed));
        }
        (session, journal, Ok(()))
    }
}
