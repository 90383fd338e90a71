//! The journal of a shared session.

ghost use Rattle.std.specs.Prelude.{◌≡◌, ◌≢◌, ◌++◌, ◌∷◌, [], Err, false, true, IfErr, IfOk, OnErr, OnOk};
ghost use Rattle.persist.specs.Noted.{applied};
ghost use Rattle.lasting.specs.Lasting.{Assures, EndsAtMomentOf, HasMoments, HasMomentsUntil, IsKept, IsKeptBy};
ghost use Rattle.lasting.specs.Lasting.{kept_with};
ghost use Rattle.session.specs.Keeping.{SessionGoesOn};
ghost use Rattle.session.specs.Promises.{KeepsNumbers};
ghost use Rattle.workers.specs.Moments.{GoesOnLater, IsMomentOf};
ghost use Rattle.workers.specs.Seats.{AreAllInOrder, AreSeatsRecorded};

use crate::policy::Policy;
use devices::Failed;
use journal::KEY_BYTES;
use journal_file::{Journal, Storage, Uncompacted};
use persist::Change;
use session::Session;
use std::alloc::Global;
use std::marker::Model;
use std::sync::Wait;
use words::Refusal;
use workers::{Assured, Handed, Marked, Naming, Seat, Shared};

/// The journal of a shared session, with the one who hands its changes on. Changes that were handed on and could not be
/// appended are pending, and appended first the next time. By the policy it is told what outlasts a stop: it assures a
/// session only once that does.
#[derive(Drop)]
pub struct Journaled<J: Naming, S: Storage + Drop> {
    policy: Policy,
    handed: Handed<J>,
    pending: Vec<Change>,
    journal: Journal<S>,
}

impl<J: Naming, S: Storage + Drop> Model for Journaled<J, S> {
    ghost use Rattle.lasting.specs.Lasting.{IsKept, Kept};

    ghost Value = { Kept };

    ghost view = { λ k. record {
      policy = k.policy;
      handed = k.handed.changes;
      last = k.handed.last;
      pending = k.pending.items;
      journal = k.journal;
      assured = k.handed.assured;
    } };

    ghost invariant = { λ k. IsKept J.first (record {
      policy = k.policy;
      handed = k.handed.changes;
      last = k.handed.last;
      pending = k.pending.items;
      journal = k.journal;
      assured = k.handed.assured;
    }) };
}

impl<J: Naming, S: Storage + Drop> Journaled<J, S> {
    ghost use Rattle.journal_file.specs.OnDevice.{IsOf};

    /// A journal that begins on these words, which are the kept ones that all changes handed on so far make; and nothing
    /// is assured yet. It is refused as [`Journal::begin`] is, and then nobody hands changes on any more.
    pub fn begin(
        alloc: Global,
        policy: Policy,
        handed: Handed<J>,
        storage: S,
        key: &[u8; KEY_BYTES],
        words: Vec<u64>,
    ) -> Result<Self, Refusal>
        requires words { words.items ≡ applied handed.changes J.first.broker.words.kept }
        requires moment { IsMomentOf J.first handed.last words.items }
        requires nothing { handed.assured ≡ [] }
        ensures policy { IfOk result (λ k. k.policy ≡ policy) }
        ensures handed { IfOk result (λ k. k.handed ≡ handed.changes) }
        ensures all { IfOk result (λ k. k.pending ≡ []) }
        ensures words { IfOk result (λ k. k.journal.words ≡ words.items) }
        ensures kept { IfOk result (λ k. k.journal.kept ≡ k.journal.size) }
        ensures going { IfOk result (λ k. k.journal.failed ≡ false) }
    {
        let journal = Journal::begin(alloc, storage, key, words)?;
        Ok(Journaled {
            policy,
            handed,
            pending: Vec::new(alloc),
            journal,
        })
    }

    /// The journal. Each beginning of its batches ends at a moment of the session, which goes on from those before.
    pub fn journal(&self) -> &Journal<S>
        ensures journal { result.now ≡ self.now.journal }
        ensures moments { HasMomentsUntil J.first self.now.last self.now.journal }
    {
        &self.journal
    }

    /// The policy by which it assures.
    pub fn policy(&self) -> Policy
        ensures { result ≡ self.now.policy }
    {
        self.policy
    }

    /// Assures a session from which that of the last hand-on goes on: all of this is appended, and kept as the policy
    /// says.
    pub fn assure(self, marked: &Marked<J>) -> (Self, Assured<J>)
        requires all { self.pending ≡ [] }
        requires kept { IsKeptBy self.policy self.journal }
        requires later { GoesOnLater marked.now self.last }
        ensures journaled { result.0 ≡ record self { assured = self.assured ++ marked.now ∷ [] } }
        ensures assured { result.1 ≡ marked.now }
    {
        let Journaled {
            policy,
            handed,
            pending,
            journal,
        } = self;
        let (handed, assured) = handed.assure(marked);
        let journaled = Journaled {
            policy,
            handed,
            pending,
            journal,
        };
        (journaled, assured)
    }

    /// Hears a token: the journal assures its session, and the last hand-on goes on from it. Both come back as they were.
    pub fn hears(self, assured: Assured<J>) -> (Self, Assured<J>)
        ensures sure { Assures J.first self.policy assured self.journal }
        ensures last { GoesOnLater assured self.last }
        ensures journaled { result.0 ≡ self }
        ensures assured { result.1 ≡ assured }
    {
        let Journaled {
            policy,
            handed,
            pending,
            journal,
        } = self;
        let (handed, assured) = handed.hears(assured);
        let journaled = Journaled {
            policy,
            handed,
            pending,
            journal,
        };
        (journaled, assured)
    }

    /// Whether it is known to keep all that was appended.
    pub fn keeps_all(&self) -> bool
        ensures { result ≡ true → self.now.journal.kept ≡ self.now.journal.size }
    {
        self.journal.kept() == self.journal.size()
    }

    /// Appends what is pending, if anything is. It is refused as [`Journal::append`] is, and then it stays pending.
    pub fn append_pending(&mut self, alloc: Global) -> Result<(), Refusal>
        ensures all { OnOk result (self.new.pending ≡ []) }
        ensures words { OnOk result
            (self.new.journal.words ≡ applied self.new.handed J.first.broker.words.kept) }
        ensures policy { self.new.policy ≡ self.old.policy }
        ensures handed { self.new.handed ≡ self.old.handed }
        ensures last { self.new.last ≡ self.old.last }
        ensures pending { OnErr result (self.new.pending ≡ self.old.pending) }
        ensures same { OnErr result (self.new.journal.words ≡ self.old.journal.words) }
    {
        if self.pending.is_empty() {
            return Ok(());
        }
        self.journal.append(alloc, &self.pending)?;
        self.pending.clear();
        Ok(())
    }

    /// Hands on all changes that the session noted since, and appends them as one batch, behind what is pending. Nothing
    /// is handed on where the last hand-on goes on from the marked session. At Ok this one does, and the journal has
    /// every change that was handed on. It is refused as [`Shared::hand_on_to`] and [`Journal::append`] are. Then those
    /// that were handed on are pending.
    pub fn settle<R: Wait>(
        self,
        rt: &R,
        alloc: Global,
        shared: &Shared<J>,
        marked: Marked<J>,
    ) -> (Self, Marked<J>, Result<(), Refusal>)
        ensures all { OnOk result.2 (result.0.pending ≡ []) }
        ensures words { OnOk result.2
            (result.0.journal.words ≡ applied result.0.handed J.first.broker.words.kept) }
        ensures later { GoesOnLater self.last result.0.last }
        ensures marked { OnOk result.2 (GoesOnLater marked result.0.last) }
        ensures mark { result.1 ≡ marked }
        ensures policy { result.0.policy ≡ self.policy }
    {
        let mut kept = self;
        if let Err(refusal) = kept.append_pending(alloc) {
            return (kept, marked, Err(refusal));
        }
        let (mut kept, marked, handed) = kept.handed_on(rt, alloc, shared, marked);
        if let Err(refusal) = handed {
            return (kept, marked, Err(refusal));
        }
        let appended = kept.append_pending(alloc);
        (kept, marked, appended)
    }

    /// Hands on what was noted, which is pending then, as nothing was before.
    fn handed_on<R: Wait>(
        self,
        rt: &R,
        alloc: Global,
        shared: &Shared<J>,
        marked: Marked<J>,
    ) -> (Self, Marked<J>, Result<(), Refusal>)
        requires { self.pending ≡ [] }
        ensures later { GoesOnLater self.last result.0.last }
        ensures marked { OnOk result.2 (GoesOnLater marked result.0.last) }
        ensures mark { result.1 ≡ marked }
        ensures policy { result.0.policy ≡ self.policy }
    {
        let Journaled {
            policy,
            handed,
            pending,
            journal,
        } = self;
        let (handed, marked, batch) = shared.hand_on_to(rt, alloc, handed, marked);
        match batch {
            Ok(Some(batch)) => (
                Journaled {
                    policy,
                    handed,
                    pending: batch,
                    journal,
                },
                marked,
                Ok(()),
            ),
            Ok(None) => (
                Journaled {
                    policy,
                    handed,
                    pending,
                    journal,
                },
                marked,
                Ok(()),
            ),
            Err(refusal) => (
                Journaled {
                    policy,
                    handed,
                    pending,
                    journal,
                },
                marked,
                Err(refusal),
            ),
        }
    }

    /// Keeps all batches that were appended, as [`Journal::keep`] does, and is refused as that is.
    pub fn keep(&mut self) -> Result<(), Refusal>
        ensures policy { self.new.policy ≡ self.old.policy }
        ensures handed { self.new.handed ≡ self.old.handed }
        ensures last { self.new.last ≡ self.old.last }
        ensures pending { self.new.pending ≡ self.old.pending }
        ensures words { self.new.journal.words ≡ self.old.journal.words }
        ensures size { self.new.journal.size ≡ self.old.journal.size }
        ensures kept { OnOk result (self.new.journal.kept ≡ self.new.journal.size) }
        ensures going { OnOk result (self.new.journal.failed ≡ false) }
    {
        self.journal.keep()
    }

    /// Keeps all that was appended, where some of it is not kept yet, and is refused as [`Journaled::keep`] is.
    pub fn keep_all(&mut self) -> Result<(), Refusal>
        ensures policy { self.new.policy ≡ self.old.policy }
        ensures handed { self.new.handed ≡ self.old.handed }
        ensures last { self.new.last ≡ self.old.last }
        ensures pending { self.new.pending ≡ self.old.pending }
        ensures words { self.new.journal.words ≡ self.old.journal.words }
        ensures kept { OnOk result (self.new.journal.kept ≡ self.new.journal.size) }
        ensures going { OnOk result (self.old.journal.failed ≡ false → self.new.journal.failed ≡ false) }
    {
        if self.keeps_all() {
            return Ok(());
        }
        self.keep()
    }

    /// Asks whether the journal is still this one's, as [`Journal::confirm`] does, and is refused as that is.
    pub fn confirm(&mut self) -> Result<(), Refusal>
        ensures same { OnOk result (self.new ≡ self.old) }
        ensures policy { self.new.policy ≡ self.old.policy }
    {
        self.journal.confirm()
    }

    /// A key that was just drawn.
    pub fn draw_key(&self) -> Result<[u8; KEY_BYTES], Failed> {
        self.journal.storage().draw_key()
    }

    /// Goes on as a journal of its present words and no batch, which takes the place of the one in use. What is pending
    /// stays so. It is refused as [`Journal::compact`] is.
    pub fn compact(&mut self, alloc: Global, key: &[u8; KEY_BYTES]) -> Result<(), Uncompacted>
        ensures policy { self.new.policy ≡ self.old.policy }
        ensures handed { self.new.handed ≡ self.old.handed }
        ensures last { self.new.last ≡ self.old.last }
        ensures pending { self.new.pending ≡ self.old.pending }
        ensures words { self.new.journal.words ≡ self.old.journal.words }
        ensures journal { OnOk result (IsOf key.now self.old.journal.words [] 0 self.new.journal) }
        ensures kept { OnOk result (self.new.journal.kept ≡ self.new.journal.size) }
        ensures going { OnOk result (self.new.journal.failed ≡ false) }
        ensures same { IfErr result (λ e. e ≢ Uncompacted.Unknown → self.new ≡ self.old) }
        ensures over { result ≡ Err Uncompacted.Unknown → self.new.journal.failed ≡ true }
    {
        self.journal.compact(alloc, key)
    }

    /// Takes the session back, as [`Shared::close`] does, with the changes that were not handed on yet, and nothing
    /// follows them. Those are appended as one batch, behind what is pending, and all is kept. At Ok the journal has
    /// exactly the kept words of the session, which is that of its last moment. Else it is refused as
    /// [`Journaled::settle`] and [`Journaled::keep`] are.
    pub fn close(
        self,
        alloc: Global,
        shared: Shared<J>,
        seats: Vec<Seat<J>>,
    ) -> (Session, Journal<S>, Result<(), Refusal>)
        requires { AreAllInOrder (λ seat. seat.client) J.clients seats.items }
        ensures lists { AreSeatsRecorded (λ seat. seat.list.items) J.first seats.items result.0 }
        ensures goes_on { SessionGoesOn J.first result.0 }
        ensures promises { KeepsNumbers result.0 }
        ensures words { OnOk result.2 (result.1.words ≡ result.0.broker.words.kept) }
        ensures kept { OnOk result.2 (result.1.kept ≡ result.1.size) }
        ensures moments { HasMoments J.first result.1 }
        ensures ends { OnOk result.2 (EndsAtMomentOf J.first result.0 result.1) }
        ensures later { OnOk result.2 (GoesOnLater self.last result.0) }
    {
        let mut kept = self;
        let appended = kept.append_pending(alloc);
        let Journaled {
            policy,
            handed,
            pending: _,
            journal,
        } = kept;
        let (session, handed, batch) = shared.close_handing_on(alloc, seats, handed);
        if let Err(refusal) = appended {
            return (session, journal, Err(refusal));
        }
        match batch {
            Err(refusal) => (session, journal, Err(refusal)),
            Ok(batch) => {
                let (journal, ended) = Journaled::ended(alloc, policy, handed, batch, journal);
                (session, journal, ended)
            }
        }
    }

    /// The journal with a last batch, and kept.
    fn ended(
        alloc: Global,
        policy: Policy,
        handed: Handed<J>,
        rest: Vec<Change>,
        journal: Journal<S>,
    ) -> (Journal<S>, Result<(), Refusal>)
        requires { IsKept J.first (kept_with policy handed rest.items journal) }
        ensures words { OnOk result.1 (result.0.words ≡ applied handed.changes J.first.broker.words.kept) }
        ensures kept { OnOk result.1 (result.0.kept ≡ result.0.size) }
        ensures moments { HasMoments J.first result.0 }
        ensures ends { OnOk result.1 (EndsAtMomentOf J.first handed.last result.0) }
    {
        let mut kept = Journaled {
            policy,
            handed,
            pending: rest,
            journal,
        };
        let ended = kept.append_and_keep(alloc);
        (kept.journal, ended)
    }

    /// Appends what is pending, and keeps all.
    fn append_and_keep(&mut self, alloc: Global) -> Result<(), Refusal>
        ensures all { OnOk result (self.new.pending ≡ []) }
        ensures policy { self.new.policy ≡ self.old.policy }
        ensures handed { self.new.handed ≡ self.old.handed }
        ensures last { self.new.last ≡ self.old.last }
        ensures words { OnOk result
            (self.new.journal.words ≡ applied self.new.handed J.first.broker.words.kept) }
        ensures kept { OnOk result (self.new.journal.kept ≡ self.new.journal.size) }
    {
        self.append_pending(alloc)?;
        self.keep_all()
    }
}
