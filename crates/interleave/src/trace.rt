//! What a world keeps of what happened: the history, the records that calls took, when calls took effect, and how far
//! recovery is.

ghost use Rattle.std.specs.Prelude.{◌≡◌, ◌<◌, ◌≤◌, ◌+◌, ◌++◌, [], ◌∷◌, length, Some, None, is_some, true, IfSome, OnOk, OnErr};
ghost use Rattle.events.specs.Effects.{with_settled, settled_effects};
ghost use Rattle.events.specs.declared.event.Event.TheVariants.{Return as return_event, Crash as crash_event};
ghost use Rattle.recover.specs.Table.{boot_recovery};
ghost use Rattle.protocol.specs.Rotated.{empty_trace};
ghost use Rattle.interleave.specs.Asked.{IfRecoveryAsked};
ghost use Rattle.interleave.specs.Effects.{AreInSequence};
ghost use Rattle.interleave.specs.Recoveries.{IsChangeByRecovery, IsLeftByRecovery, IsLentByRecovery};
ghost use Rattle.interleave.specs.Recoveries.{IsNextByRecovery, MayRecover, OfRecovery};
ghost use Rattle.interleave.specs.Trace.{effects_once_looked, effects_once_taken, with_effects, AddsCall, AddsIssued, AddsReady, HaveRoom};

use crate::effects::{forget, settle};
use arena::Layout;
use events::{Effect, Event, Events, History, Sequence, copied, keep_settled};
use persist::{Noted, WordMemory};
use protocol::Issued;
use recover::{Recovery, boot};
use std::alloc::{AllocError, Global};
use std::marker::Model;
use stepper::Begun;
use words::{Client, MAX_CLIENTS, Reply, Reports, Told, Value};

/// What happened in a world. Contracts see the history's events, the records that calls took, when calls took
/// effect, the recovery that is under way, and for how many acts more there is room.
#[derive(Drop)]
pub(crate) struct Trace {
    history: History,
    issued: Vec<Issued>,
    effects: Vec<Effect>,
    recovery: Option<Recovery>,
}

impl Model for Trace {
    ghost use Rattle.std.specs.Prelude.{◌≤◌, ◌-◌, min, length, vec_len, vec_capacity};
    ghost use Rattle.interleave.specs.Trace.{Traced};

    ghost Value = { Traced };

    ghost view = { λ t. record {
      base = t.history.base.items;
      told = t.history.told;
      log = record { events = t.history.events.items; issued = t.issued.items; effects = t.effects.items };
      recovery = t.recovery;
      room = min t.history.events.room
          (min (vec_capacity t.issued - vec_len t.issued) (vec_capacity t.effects - length t.history.events.items));
    } };

    ghost invariant = { λ t. length t.history.events.items ≤ vec_capacity t.effects };
}

impl Trace {
    /// Nothing happened yet, to an empty queue of which clients are told this.
    pub(crate) fn new(alloc: Global, told: Reports) -> Self
        ensures base { result.base ≡ [] }
        ensures told { result.told ≡ told }
        ensures log { result.log ≡ record { events = []; issued = []; effects = [] } }
        ensures recovery { result.recovery ≡ None }
    {
        Trace {
            history: History {
                base: Sequence::new(alloc),
                told,
                events: Events::new(alloc),
            },
            issued: Vec::new(alloc),
            effects: Vec::new(alloc),
            recovery: None,
        }
    }

    /// Nothing happened yet to a queue that held and told this, and recovery begins.
    pub(crate) fn booted(alloc: Global, base: Vec<Value>, told: Reports) -> Self
        ensures base { result.base ≡ base.items }
        ensures told { result.told ≡ told }
        ensures log { result.log ≡ record { events = []; issued = []; effects = [] } }
        ensures recovery { result.recovery ≡ Some boot_recovery }
    {
        Trace {
            history: History {
                base: Sequence::from_vec(base),
                told,
                events: Events::new(alloc),
            },
            issued: Vec::new(alloc),
            effects: Vec::new(alloc),
            recovery: Some(boot()),
        }
    }

    /// The history. It takes no memory.
    pub(crate) fn history(&self) -> &History
        ensures base { result.now.base.items ≡ self.now.base }
        ensures told { result.now.told ≡ self.now.told }
        ensures events { result.now.events.items ≡ self.now.log.events }
    {
        &self.history
    }

    /// The allocator that it grows by.
    pub(crate) fn allocator(&self) -> Global {
        *self.effects.allocator()
    }

    /// When calls took effect.
    pub(crate) fn effects(&self) -> &[Effect]
        ensures { result.now ≡ self.now.log.effects }
    {
        self.effects.as_slice()
    }

    /// How many events there are.
    pub(crate) fn moment(&self) -> usize
        ensures { result ≡ length self.now.log.events }
    {
        self.history.events.len()
    }

    /// Makes room for so many more events, each of which may begin a call.
    #[inline(always)]
    pub(crate) fn reserve(&mut self, acts: usize) -> Result<(), AllocError>
        requires { length self.old.log.effects ≤ length self.old.log.events }
        ensures base { self.new.base ≡ self.old.base }
        ensures told { self.new.told ≡ self.old.told }
        ensures log { self.new.log ≡ self.old.log }
        ensures recovery { self.new.recovery ≡ self.old.recovery }
        ensures kept { self.old.room ≤ self.new.room }
        ensures room { OnOk result (acts ≤ self.new.room) }
        ensures full { OnErr result (self.old.room < acts) }
    {
        let pending = self.history.events.len() - self.effects.len();
        let Some(places) = pending.checked_add(acts) else {
            return Err(AllocError);
        };
        self.history.events.reserve(acts)?;
        self.issued.reserve(acts)?;
        self.effects.reserve(places)
    }

    /// A client began a call.
    pub(crate) fn begin(&mut self, begun: &Begun)
        requires { 0 < self.old.room }
        ensures base { self.new.base ≡ self.old.base }
        ensures told { self.new.told ≡ self.old.told }
        ensures events { AddsCall begun.now self.old self.new }
        ensures issued { AddsIssued begun.now self.old self.new }
        ensures effects { self.new.log.effects ≡ self.old.log.effects }
        ensures recovery { self.new.recovery ≡ self.old.recovery }
        ensures room { self.old.room ≤ self.new.room + 1 }
    {
        let place = self.history.events.len();
        self.history.events.push(Event::Call {
            client: begun.client,
            number: begun.number,
            call: begun.call,
        });
        self.issued.push_reserved(Issued {
            place,
            begun: *begun,
        });
    }

    /// A client's call was answered.
    pub(crate) fn answer(&mut self, client: Client, reply: Reply)
        requires { 0 < self.old.room }
        ensures base { self.new.base ≡ self.old.base }
        ensures told { self.new.told ≡ self.old.told }
        ensures events { self.new.log.events ≡ self.old.log.events ++ return_event client reply ∷ [] }
        ensures issued { self.new.log.issued ≡ self.old.log.issued }
        ensures effects { self.new.log.effects ≡ self.old.log.effects }
        ensures recovery { self.new.recovery ≡ self.old.recovery }
        ensures room { self.old.room ≤ self.new.room + 1 }
    {
        self.history.events.push(Event::Return { client, reply });
    }

    /// Whether recovery is under way.
    pub(crate) fn is_down(&self) -> bool
        ensures { result ≡ is_some self.now.recovery }
    {
        self.recovery.is_some()
    }

    /// The whole system stopped: what waited to count does not, and recovery begins.
    pub(crate) fn crash(&mut self)
        requires { 0 < self.old.room }
        ensures base { self.new.base ≡ self.old.base }
        ensures told { self.new.told ≡ self.old.told }
        ensures events { self.new.log.events ≡ self.old.log.events ++ crash_event ∷ [] }
        ensures issued { self.new.log.issued ≡ self.old.log.issued }
        ensures effects { self.new.log.effects ≡ settled_effects self.old.log.effects }
        ensures recovery { self.new.recovery ≡ Some boot_recovery }
        ensures room { self.old.room ≤ self.new.room + 1 }
    {
        self.history.events.push(Event::Crash);
        keep_settled(&mut self.effects);
        self.recovery = Some(boot());
    }

    /// Recovery makes a step. It answers whether it has now told every client, and the change of a kept value.
    #[inline(always)]
    pub(crate) fn recover<M: WordMemory>(&mut self, layout: &Layout, memory: &mut M) -> Noted<bool>
        requires down { is_some self.old.recovery ≡ true }
        requires may { IfSome self.old.recovery (λ r. MayRecover layout.now (M.words memory.old) r) }
        requires asked { IfRecoveryAsked layout.now self.old.recovery (M.lent memory.old).request }
        ensures base { self.new.base ≡ self.old.base }
        ensures told { self.new.told ≡ self.old.told }
        ensures log { self.new.log ≡ self.old.log }
        ensures words { IsLeftByRecovery layout.now self.old.recovery (M.words memory.old) (M.words memory.new) }
        ensures lent { IsLentByRecovery layout.now self.old.recovery (M.lent memory.old) (M.lent memory.new) }
        ensures reached { IsNextByRecovery layout.now self.old.recovery (M.words memory.old)
            result.answer self.new.recovery }
        ensures change { IsChangeByRecovery layout.now self.old.recovery (M.words memory.old) result.change }
        ensures room { self.new.room ≡ self.old.room }
    {
        match self.recovery.as_mut() {
            Some(recovery) => recovery.step(layout, memory),
            None => Noted {
                answer: false,
                change: None,
            },
        }
    }

    /// Recovery has told every client, and ends. It answers what it told.
    pub(crate) fn end_recovery(&mut self) -> Reports
        requires down { is_some self.old.recovery ≡ true }
        requires room { 0 < self.old.room }
        ensures base { self.new.base ≡ self.old.base }
        ensures told { self.new.told ≡ self.old.told }
        ensures issued { self.new.log.issued ≡ self.old.log.issued }
        ensures effects { self.new.log.effects ≡ self.old.log.effects }
        ensures events { AddsReady self.old self.new }
        ensures recovery { self.new.recovery ≡ None }
        ensures answer { OfRecovery self.old.recovery (λ r. result ≡ r.told) }
        ensures room { self.old.room ≤ self.new.room + 1 }
    {
        let told = match &self.recovery {
            Some(recovery) => copied(recovery.told()),
            None => [Told::None; MAX_CLIENTS],
        };
        let answer = copied(&told);
        self.history.events.push(Event::Ready { told });
        self.recovery = None;
        answer
    }

    /// The history ends, and another begins on this. The room that events had stays.
    pub(crate) fn begin_anew(&mut self, base: Vec<Value>, told: Reports)
        ensures base { self.new.base ≡ base.items }
        ensures told { self.new.told ≡ told }
        ensures log { self.new.log ≡ empty_trace }
        ensures recovery { self.new.recovery ≡ self.old.recovery }
        ensures room { self.old.room ≤ self.new.room }
    {
        self.history.base = Sequence::from_vec(base);
        self.history.told = told;
        self.history.events.clear();
        self.issued.clear();
        self.effects.clear();
    }

    /// What another history grew by, emptied, becomes this one's, where it has room for so many events.
    pub(crate) fn take_room(&mut self, other: Trace, acts: usize)
        requires fresh { self.old.log ≡ empty_trace }
        requires room { acts ≤ self.old.room }
        ensures base { self.new.base ≡ self.old.base }
        ensures told { self.new.told ≡ self.old.told }
        ensures log { self.new.log ≡ self.old.log }
        ensures recovery { self.new.recovery ≡ self.old.recovery }
        ensures room { acts ≤ self.new.room }
    {
        let Trace {
            history,
            mut issued,
            mut effects,
            ..
        } = other;
        let mut events = history.events;
        events.clear();
        issued.clear();
        effects.clear();
        let has_room = issued.capacity() >= acts && effects.capacity() >= acts;
        if has_room && events.reserve(acts).is_ok() {
            self.history.events = events;
            self.issued = issued;
            self.effects = effects;
        }
    }

    /// The call at the place takes effect, with this reply.
    pub(crate) fn take(&mut self, place: usize, reply: Reply)
        requires { length self.old.log.effects < length self.old.log.events }
        ensures same { self.new ≡ with_effects self.old (effects_once_taken self.old.log place reply) }
    {
        let moment = self.history.events.len();
        self.effects.push_reserved(Effect {
            place,
            reply,
            moment,
            settled: true,
        });
    }

    /// The call at the place looks, and finds the queue empty or not. What it found before counts no more.
    pub(crate) fn look(&mut self, place: usize, empty: bool)
        requires sequence { AreInSequence self.old.log.effects }
        requires room { HaveRoom self.old.log (effects_once_looked self.old.log place empty) }
        ensures same { self.new ≡ with_effects self.old (effects_once_looked self.old.log place empty) }
    {
        let moment = self.history.events.len();
        forget(&mut self.effects, place);
        if empty {
            self.effects.push_reserved(Effect {
                place,
                reply: Reply::Empty,
                moment,
                settled: false,
            });
        }
    }

    /// What the call at the place found counts.
    pub(crate) fn settle(&mut self, place: usize)
        requires { AreInSequence self.old.log.effects }
        ensures same { self.new ≡ with_effects self.old (with_settled place self.old.log.effects) }
    {
        settle(&mut self.effects, place);
    }
}
