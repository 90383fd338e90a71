//! Facts one after another, and where calls end.

ghost use Rattle.std.specs.Prelude.{◌≡◌, ◌+◌, ◌^◌, ◌<◌, ◌≤◌, ◌++◌, [], ◌∷◌, Some, length, slice_get};
ghost use Rattle.std.specs.Prelude.{IfNone, IfOk, IfSome, OnOk};
ghost use Rattle.words.specs.declared.told.Outcome.{Outcome};
ghost use Rattle.events.specs.Replay.{call_at};
ghost use Rattle.findings.specs.Ends.{AreBelow, IsBelow, AreNextEnds};
ghost use Rattle.findings.specs.Facts.{event_at, AreEnds, HasEnd, HasNone, IsEndOf};
ghost use Rattle.findings.specs.Findings.{IsLearnt};

use crate::fact::Fact;
use std::alloc::{AllocError, Global};
use std::marker::Model;
use words::{Call, Outcome, Reply};

/// A fact, and what was learnt of the call that it begins.
#[derive(Clone, Copy)]
struct Noted {
    fact: Fact,
    learnt: Option<Outcome>,
}

/// Facts, and what was learnt of the calls that they begin.
#[derive(Drop)]
pub struct Facts {
    noted: Vec<Noted>,
}

impl Model for Facts {
    ghost use Rattle.std.specs.Prelude.{map};
    ghost use Rattle.findings.specs.Facts.{Known, events_from};

    ghost Value = { Known };

    ghost view = { λ f. record {
      events = events_from 0 (map (λ n. n.fact) f.noted.items);
      learnt = map (λ n. n.learnt) f.noted.items;
    } };
}

impl Facts {
    /// None, and room for so many.
    pub fn with_room(alloc: Global, count: usize) -> Result<Self, AllocError>
        ensures events { IfOk result (λ facts. facts.events ≡ []) }
        ensures learnt { IfOk result (λ facts. facts.learnt ≡ []) }
    {
        Ok(Facts {
            noted: Vec::with_capacity(alloc, count)?,
        })
    }

    /// One more.
    pub fn push(&mut self, fact: Fact, learnt: Option<Outcome>) -> Result<(), AllocError>
        ensures events { OnOk result
            (self.new.events ≡ self.old.events ++ event_at (length self.old.events) fact ∷ []) }
        ensures learnt { OnOk result (self.new.learnt ≡ self.old.learnt ++ learnt ∷ []) }
    {
        // (the kit's borrow checker knows what an outcome holds only where a reply is named)
        let _none: Option<Reply> = None;
        self.noted.push(Noted { fact, learnt })?;
        Ok(())
    }

    /// How many there are.
    pub fn len(&self) -> usize
        ensures events { result ≡ length self.now.events }
        ensures learnt { result ≡ length self.now.learnt }
    {
        self.noted.len()
    }

    /// The one at a place.
    fn at(&self, place: usize) -> Fact
        requires { place < length self.now.events }
        ensures { slice_get self.now.events place ≡ Some (event_at place result) }
    {
        self.noted[place].fact
    }

    /// What was learnt of the call at a place.
    fn learnt_at(&self, place: usize) -> Option<Outcome>
        requires { place < length self.now.learnt }
        ensures { slice_get self.now.learnt place ≡ Some result }
    {
        self.noted[place].learnt
    }
}

/// The next Return of each client, and the next Crash, from some place on.
#[derive(Drop)]
struct Next {
    returns: Vec<usize>,
    crash: usize,
}

/// At least so many, and more than the number of the fact's client.
fn clients_with(fact: Fact, place: usize, count: usize) -> usize
    ensures more { count ≤ result }
    ensures below { IsBelow result (event_at place fact) }
{
    match fact {
        Fact::Call { client, .. } => count.max(client as usize + 1),
        Fact::Return { client, .. } => count.max(client as usize + 1),
        _ => count,
    }
}

/// One more than the greatest number of a client.
fn client_count(facts: &Facts) -> usize
    ensures { AreBelow result facts.now.events }
{
    let mut count = 0;
    for p in 0..facts.len() {
        count = clients_with(facts.at(p), p, count);
    }
    count
}

/// Goes back to the fact at `p`, and says where its call ended.
fn step_back(facts: &Facts, p: usize, next: &mut Next) -> usize
    requires within { p < length facts.now.events }
    requires below { AreBelow (length next.old.returns.items) facts.now.events }
    requires next { AreNextEnds facts.now.events (p + 1) next.old.returns.items next.old.crash }
    ensures next { AreNextEnds facts.now.events p next.new.returns.items next.new.crash }
    ensures count { length next.new.returns.items ≡ length next.old.returns.items }
    ensures end { IsEndOf facts.now.events p result }
{
    match facts.at(p) {
        Fact::Call { client, .. } => next.returns[client as usize].min(next.crash),
        Fact::Return { client, .. } => {
            next.returns[client as usize] = p;
            facts.len()
        }
        Fact::Crash => {
            next.crash = p;
            facts.len()
        }
        Fact::Ready => facts.len(),
    }
}

/// Where each call ended.
fn ends_of(alloc: Global, facts: &Facts) -> Result<Vec<usize>, AllocError>
    ensures { IfOk result (λ ends. AreEnds facts.now.events ends.items) }
{
    let count = facts.len();
    let mut next = Next {
        returns: vec![in alloc; count; client_count(facts)]?,
        crash: count,
    };
    let mut ends = vec![in alloc; count; count]?;
    for p in (0..count).rev() {
        ends[p] = step_back(facts, p, &mut next);
    }
    Ok(ends)
}

/// Facts, and where the calls end that they begin: so it is seen at once.
#[derive(Drop)]
pub struct Findings {
    facts: Facts,
    ends: Vec<usize>,
}

impl Model for Findings {
    ghost use Rattle.findings.specs.Facts.{Known, AreEnds};

    ghost Value = { Known };

    ghost view = { λ f. f.facts };

    ghost invariant = { λ f. AreEnds f.facts.events f.ends.items };
}

impl Findings {
    /// These facts. The time that it takes grows with them and with their clients.
    pub fn of(alloc: Global, facts: Facts) -> Result<Self, AllocError>
        ensures { IfOk result (λ findings. findings ≡ facts) }
    {
        let ends = ends_of(alloc, &facts)?;
        Ok(Findings { facts, ends })
    }

    /// How many events there are.
    pub fn len(&self) -> usize
        ensures events { result ≡ length self.now.events }
        ensures learnt { result ≡ length self.now.learnt }
    {
        self.facts.len()
    }

    /// One more than the greatest number of a client.
    pub(crate) fn client_count(&self) -> usize
        ensures { AreBelow result self.now.events }
    {
        client_count(&self.facts)
    }

    /// What happened at a place.
    pub(crate) fn at(&self, place: usize) -> Fact
        requires { place < length self.now.events }
        ensures fact { slice_get self.now.events place ≡ Some (event_at place result) }
        ensures few { place + 1 < 2 ^ 64 }
    {
        // (a list is not so long that its length fits no number)
        let _few = self.ends.len();
        self.facts.at(place)
    }

    /// The call at a place, if there is one.
    pub fn call_at(&self, place: usize) -> Option<Call>
        ensures { result ≡ call_at self.now.events place }
    {
        if place >= self.facts.len() {
            return None;
        }
        match self.facts.at(place) {
            Fact::Call { call, .. } => Some(call.call()),
            _ => None,
        }
    }

    /// What was learnt of the call at a place, if something was.
    pub fn learnt_at(&self, place: usize) -> Option<Outcome>
        ensures some { IfSome result (λ outcome. IsLearnt self.now.learnt place outcome) }
        ensures none { IfNone result ((outcome : Outcome) → IsLearnt self.now.learnt place outcome → ⊥) }
    {
        if place >= self.facts.len() {
            return None;
        }
        self.facts.learnt_at(place)
    }

    /// Where the call at a place ended, if one did.
    pub fn end(&self, place: usize) -> Option<usize>
        ensures some { IfSome result (λ end. HasEnd self.now.events place end) }
        ensures within { IfSome result (λ end. end < length self.now.events) }
        ensures none { IfNone result (HasNone self.now.events place) }
    {
        if place >= self.ends.len() {
            return None;
        }
        let end = self.ends[place];
        if end < self.facts.len() {
            return Some(end);
        }
        None
    }
}
