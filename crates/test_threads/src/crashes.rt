//! Crashes that come between two steps of a call, from another thread.

ghost use Rattle.std.specs.Prelude.{IfOk};
ghost use Rattle.workers.specs.Opening.{IsNameOf};
ghost use Rattle.workers.specs.Seats.{AreAllInOrder};

use crate::asking::{
    Hold, asked, cut_off as entry_cut_off, held_over_a_crash, numbered, ran, repeated,
};
use crate::lists::{Lengths, lengths};
use crate::seats::{alone, only};
use crate::staging::{Played, begun, ended, opened};
use session::Session;
use std::alloc::Global;
use std::marker::Brand;
use std::process::Abort;
use std::sync::Wait;
use std::test::*;
use std::thread::Threads;
use std::time::Clock;
use test_support::item;
use test_support::sessions::{A, with_queue};
use test_support::steps::{LOG_ENQUEUE_ANNOUNCED, LOG_LINK_KEPT};
use test_support::told::{not_taken, taken};
use words::{Call, Client, Kind, Refusal, Reply, Told, Value};
use workers::{Answer, Naming, OpenGate, Opened, Operator, Request, Seat, Shared};

/// A crash, and recovery, while the only client's call stands still after so many steps. Then the client is told this.
#[derive(Clone, Copy)]
struct CutOff {
    ask: Request,
    steps: u64,
    told: Told,
}

/// The crash, and what the client is answered and told then. It has no call to finish, and its list has the one that
/// was cut off.
fn stopped<J: Naming + Send + Sync, R: Threads + Wait + Clock + Abort + Sync>(
    rt: &R,
    alloc: Global,
    shared: &Shared<J>,
    operator: Operator<J>,
    seats: Vec<Seat<J>>,
    case: CutOff,
) -> Result<Vec<Seat<J>>, Fail>
    requires { AreAllInOrder (λ seat. seat.client) J.clients seats.items }
    ensures { IfOk result (λ seats. AreAllInOrder (λ seat. seat.client) J.clients seats.items) }
{
    let (ask, steps) = (case.ask, case.steps);
    let seat = only(seats).ok_or("one seat")?;
    let hold = Hold { ask, steps };
    let ((seat, answer), in_time) = held_over_a_crash(rt, shared, operator, seat, hold);
    let told = shared.told(rt, Client(0), &ask.name, shared.mark_now(rt)).1;
    let (seat, none) = shared.finish(rt, seat, &OpenGate);
    let right = in_time
        && answer == Answer::Interrupted
        && told == Ok(case.told)
        && none == Answer::Refused(Refusal::Idle)
        && seat.list.as_slice() == [entry_cut_off(ask, 0)].as_slice();
    assert!(rt;
        right,
        "after {steps} steps: {answer:?}, {told:?}, {none:?}"
    );
    Ok(alone(alloc, seat)?)
}

fn cut_off<J: Naming + Send + Sync, R: Threads + Wait + Clock + Abort + Sync>(
    rt: &R,
    alloc: Global,
    opened: Opened,
    since: &Lengths,
    case: CutOff,
) -> Result<Played, Fail>
    requires { IsNameOf J.roll J.clients J.first opened }
{
    let (shared, seats, operator) = begun::<J>(alloc, opened)?;
    let seats = stopped(rt, alloc, &shared, operator, seats, case)?;
    ended(alloc, shared, seats, since)
}

/// The only client makes this call, which is answered so: it runs, or is answered from what is kept.
#[derive(Clone, Copy)]
struct Next {
    ask: Request,
    reply: Reply,
    runs: bool,
}

/// The call, and what the client's list has of it.
fn sent<J: Naming, R: Wait + Abort>(
    rt: &R,
    alloc: Global,
    shared: &Shared<J>,
    seats: Vec<Seat<J>>,
    next: Next,
) -> Result<Vec<Seat<J>>, Fail>
    requires { AreAllInOrder (λ seat. seat.client) J.clients seats.items }
    ensures { IfOk result (λ seats. AreAllInOrder (λ seat. seat.client) J.clients seats.items) }
{
    let seat = only(seats).ok_or("one seat")?;
    let (seat, answer) = asked(rt, shared, seat, next.ask);
    // Three events came before: the call that was cut off, the crash and the recovery.
    let entry = if next.runs {
        ran(next.ask, 3, next.reply)
    } else {
        repeated(next.ask, next.reply)
    };
    let right = answer == Answer::Reply(next.reply) && seat.list.as_slice() == [entry].as_slice();
    assert!(rt; right, "{answer:?}");
    Ok(alone(alloc, seat)?)
}

fn goes_on<J: Naming + Send + Sync, R: Threads + Wait + Clock + Abort + Sync>(
    rt: &R,
    alloc: Global,
    opened: Opened,
    since: &Lengths,
    next: Next,
) -> Result<Played, Fail>
    requires { IsNameOf J.roll J.clients J.first opened }
{
    let (shared, seats, _operator) = begun::<J>(alloc, opened)?;
    let seats = sent(rt, alloc, &shared, seats, next)?;
    ended(alloc, shared, seats, since)
}

/// That on this session.
fn cut_off_in<R: Threads + Wait + Clock + Abort + Sync>(
    rt: &R,
    alloc: Global,
    session: Session,
    case: CutOff,
) -> Result<Session, Fail> {
    let since = lengths(&session);
    let opened = opened(alloc, session)?;
    Ok(cut_off::<Brand, R>(rt, alloc, opened, &since, case)?.session)
}

/// The next call on this session.
fn gone_on<R: Threads + Wait + Clock + Abort + Sync>(
    rt: &R,
    alloc: Global,
    session: Session,
    next: Next,
) -> Result<Session, Fail> {
    let since = lengths(&session);
    let opened = opened(alloc, session)?;
    Ok(goes_on::<Brand, R>(rt, alloc, opened, &since, next)?.session)
}

/// Whether the queue `a` holds these values.
fn holds(session: &Session, values: &[Value]) -> Result<bool, Refusal> {
    Ok(session.broker().content(A)?.as_slice() == values)
}

/// What a client is told whose number 1, the put of 9, was cut off after so many steps.
fn wanted(steps: u32) -> Told {
    if steps < LOG_ENQUEUE_ANNOUNCED {
        Told::None
    } else if steps < LOG_LINK_KEPT {
        Told::Verdict(not_taken(1))
    } else {
        Told::Verdict(taken(1, Reply::Done))
    }
}

/// Number 1 is cut off after so many steps, and sent again.
fn number_cut_off<R: Threads + Wait + Clock + Abort + Sync>(
    rt: &R,
    alloc: Global,
    steps: u32,
) -> Result<(), Fail> {
    let ask = numbered(1, Call::Enq(item(9)))?;
    let is_taken = steps >= LOG_LINK_KEPT;
    let cut_off = CutOff {
        ask,
        steps: u64::from(steps),
        told: wanted(steps),
    };
    let nine = [item(9)];
    let values: &[Value] = if is_taken { &nine } else { &[] };
    let next = Next {
        ask,
        reply: Reply::Done,
        runs: !is_taken,
    };
    let session = with_queue(alloc, Kind::Log, 1, 2)?;
    let session = cut_off_in(rt, alloc, session, cut_off)?;
    let held = holds(&session, values)?;
    let session = gone_on(rt, alloc, session, next)?;
    assert!(rt; held && holds(&session, &nine)?, "after {steps} steps");
    Ok(())
}

#[test]
fn a_number_that_is_cut_off_takes_effect_once(rt: HostRuntime) -> Result<(), Fail> {
    for steps in 0..=LOG_LINK_KEPT {
        number_cut_off(&rt, rt.alloc(), steps)?;
    }
    Ok(())
}
