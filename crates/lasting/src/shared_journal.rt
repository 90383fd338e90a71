//! The journal of a shared session, for the threads that share it.

ghost use Rattle.std.specs.Prelude.{◌≡◌, IfOk, IsSome, OnOk};
ghost use Rattle.std.specs.Option.{ForSome};

use crate::counts::{Counts, JournalCounts};
use crate::policy::Policy;
use crate::settler::Settler;
use crate::settling::Settling;
use devices::Failed;
use journal_file::Storage;
use std::alloc::Global;
use std::sync::atomic::{AtomicBool, AtomicU64, Ordering};
use std::sync::{Mutex, MutexGuard, Wait};
use std::thread::sleep;
use std::time::{Clock, Duration};
use waiting::lock;
use workers::{Assured, Marked, Naming, Shared};

/// How long the thread that keeps each second rests at once: a stop waits for it no longer.
const NAP_MILLIS: u64 = 50;

/// How often it rests between two times.
const NAPS: u32 = 20;

/// A call that settles: its number, and how many such calls had begun when it had the settler for itself.
#[derive(Clone, Copy)]
struct Turn {
    ticket: u64,
    begun: u64,
}

/// The place of a settler, who is there but while it settles, and keeps the journal by the policy of the place.
#[derive(Drop)]
struct Place<J: Naming + Settling, S: Storage + Drop> {
    settler: Option<Settler<J, S>>,
    /// The place of the journal told that it is still this one's once so many calls that settle had begun.
    confirmed: u64,
    ghost there: { IsSome settler },
    ghost by: { ForSome settler (λ s. s.policy ≡ J.policy) },
}

impl<J: Naming + Settling, S: Storage + Drop> Place<J, S> {
    ghost use Rattle.lasting.specs.Lasting.{IsKeptBy};
    ghost use Rattle.lasting.specs.Settling.{HasSettled};

    /// Whoever is there.
    fn into_settler(self) -> Settler<J, S>
        ensures { result.policy ≡ J.policy }
    {
        let Place { settler, .. } = self;
        match settler {
            Some(settler) => settler,
            None => unreachable!(),
        }
    }

    /// Whoever is there.
    fn settler(&self) -> &Settler<J, S> {
        match &self.settler {
            Some(settler) => settler,
            None => unreachable!(),
        }
    }

    /// It settles up to a mark: at Ok all that was handed on is appended, and kept as the policy of the place says. What
    /// it answered before may be told: the place of the journal was asked since.
    fn settle_up_to<R: Wait>(
        &mut self,
        rt: &R,
        alloc: Global,
        shared: &Shared<J>,
        marked: Marked<J>,
        turn: Turn,
    ) -> Result<Assured<J>, Failed>
        ensures assured { IfOk result (λ assured. assured ≡ marked) }
        ensures settled { OnOk result (ForSome self.new.settler (λ s. HasSettled J.first s)) }
    {
        let Some(settler) = self.settler.take() else {
            unreachable!()
        };
        let before = settler.answers();
        let asks = turn.ticket >= self.confirmed;
        let (settler, settled) = settler.settle_current(rt, alloc, shared, marked, asks);
        if settled.is_ok() && settler.answers() != before {
            self.confirmed = turn.begun;
        }
        self.settler = Some(settler);
        settled
    }

    /// It keeps all that was appended, whatever the policy is.
    fn keep_up(&mut self, alloc: Global) -> Result<(), Failed>
        ensures { OnOk result (ForSome self.new.settler (λ s. IsKeptBy Policy.Always s.kept.journal)) }
    {
        let Some(mut settler) = self.settler.take() else {
            unreachable!()
        };
        let kept = settler.keep_up(alloc);
        self.settler = Some(settler);
        kept
    }
}

/// The journal of a shared session, for the threads that share it. Who settles appends what all of them have noted: the
/// others, who wait for him, find it done. Nobody appends or keeps under the session's own lock.
#[derive(Drop)]
pub struct SharedJournal<'a, J: Naming + Settling, S: Storage + Drop> {
    alloc: Global,
    shared: &'a Shared<J>,
    policy: Policy,
    failed: AtomicBool,
    counts: Counts,
    /// How many calls that settle have begun.
    tickets: AtomicU64,
    /// This lock is taken before the session's. It is held while the storage works.
    place: Mutex<Place<J, S>>,
    ghost by: { policy ≡ J.policy },
}

impl<'a, J: Naming + Settling, S: Storage + Drop> SharedJournal<'a, J, S> {
    /// This settler's journal, for the session.
    pub fn new(alloc: Global, shared: &'a Shared<J>, settler: Settler<J, S>) -> Self
        requires { settler.policy ≡ J.policy }
        ensures shared { result.shared.now ≡ shared.now }
        ensures policy { result.policy ≡ settler.policy }
    {
        let policy = settler.policy();
        let failed = AtomicBool::new(settler.has_failed());
        let counts = Counts::new(settler.size(), settler.kept());
        let place = Mutex::new(Place {
            settler: Some(settler),
            confirmed: 0,
        });
        SharedJournal {
            alloc,
            shared,
            policy,
            failed,
            counts,
            tickets: AtomicU64::new(0),
            place,
        }
    }

    /// The session.
    pub fn shared(&self) -> &Shared<J>
        ensures { result.now ≡ self.now.shared.now }
    {
        self.shared
    }

    /// The settler's policy.
    pub fn policy(&self) -> Policy
        ensures policy { result ≡ self.now.policy }
        ensures name { result ≡ J.policy }
    {
        self.policy
    }

    /// The settler, once nobody shares it. Its policy is the one that was given.
    pub fn into_settler(self) -> Settler<J, S>
        ensures { result.policy ≡ J.policy }
    {
        self.place.into_inner().into_settler()
    }

    /// The place, once it is free. Where nothing is synced under its lock, that is held for one write: then it is tried
    /// again before a thread sleeps for it.
    fn locked<R: Wait>(&self, rt: &R) -> MutexGuard<'_, Place<J, S>> {
        match self.policy {
            Policy::Always => self.place.lock(rt),
            Policy::EachSecond | Policy::Never => lock(rt, &self.place),
        }
    }

    /// Whether it has failed for good. Then nothing is settled any more.
    pub fn has_failed(&self) -> bool {
        self.failed.load(Ordering::SeqCst)
    }

    /// What was counted of the journal, as far as it is settled. It waits for nobody.
    pub fn counts(&self) -> JournalCounts {
        self.counts.read()
    }

    /// Says to those who do not have the lock how the journal goes, behind a step that may have failed, and whether it has
    /// failed for good.
    fn note(&self, place: &Place<J, S>, failed: bool) {
        let settler = place.settler();
        self.counts.note(settler.size(), settler.kept(), failed);
        if settler.has_failed() {
            self.failed.store(true, Ordering::SeqCst);
        }
    }

    /// Settles as [`Settler::settle_up_to`] does. Where others have settled so much, as they do while it waits for the
    /// lock, it neither appends nor keeps anything. Whoever has the settler back learns what the token says
    /// ([`Settler::hears`]). No answer that was made before it was called is told before the place of the journal was
    /// asked whether it is still this one's: by what this call asks, or by what another one did that began behind it.
    pub fn settle_up_to<R: Wait>(&self, rt: &R, marked: Marked<J>) -> Result<Assured<J>, Failed>
        ensures { IfOk result (λ assured. assured ≡ marked) }
    {
        if self.has_failed() {
            return Err(Failed);
        }
        let ticket = self.tickets.fetch_add(1, Ordering::SeqCst);
        let mut place = self.locked(rt);
        let turn = Turn {
            ticket,
            begun: self.tickets.load(Ordering::SeqCst),
        };
        let settled = place.settle_up_to(rt, self.alloc, self.shared, marked, turn);
        self.note(&place, settled.is_err());
        settled
    }

    /// Keeps all that was appended, as [`Settler::keep_up`] does.
    pub fn keep_up<R: Wait>(&self, rt: &R) -> Result<(), Failed> {
        let mut place = self.locked(rt);
        let kept = place.keep_up(self.alloc);
        self.note(&place, kept.is_err());
        kept
    }

    /// Settles, and keeps all that was appended, whatever the policy is.
    pub fn settle_and_keep<R: Wait>(&self, rt: &R) -> Result<(), Failed> {
        let _assured = self.settle_up_to(rt, self.shared.mark_now(rt))?;
        self.keep_up(rt)
    }

    /// Keeps about once a second what was appended, until `ended` is said, or the journal has failed for good.
    pub fn keep_each_second<R: Wait + Clock>(&self, rt: &R, ended: &AtomicBool) {
        for _ in rt.forever() {
            if !rests_a_second(rt, ended) {
                return;
            }
            if self.keep_up(rt).is_err() && self.has_failed() {
                return;
            }
        }
        unreachable!()
    }
}

/// Rests for a second, or until `ended` is said; whether a second went by.
fn rests_a_second<R: Clock>(rt: &R, ended: &AtomicBool) -> bool {
    for _ in 0..NAPS {
        if ended.load(Ordering::SeqCst) {
            return false;
        }
        sleep(rt, Duration::from_millis(NAP_MILLIS));
    }
    true
}
