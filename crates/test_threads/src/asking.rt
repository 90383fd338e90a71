//! What the tests ask of a shared session.

ghost use Rattle.std.specs.Prelude.{◌≡◌};

use crate::gates::{Held, tell, wait_for};
use directory::Name;
use std::sync::Wait;
use std::sync::atomic::{AtomicU64, Ordering};
use std::thread::{Threads, join};
use std::time::Clock;
use test_support::sessions::A;
use words::{Call, Refusal, Reply};
use workers::{Answer, End, Entry, Gate, Naming, OpenGate, Operator, Request, Seat, Shared};

/// A call in the queue `a`, which is durable.
pub(crate) fn plain(call: Call) -> Result<Request, Refusal> {
    let name = Name::make(b"a")?;
    Ok(Request {
        name,
        number: None,
        call,
    })
}

/// A call in the queue `a`, which is a log queue.
pub(crate) fn numbered(number: u64, call: Call) -> Result<Request, Refusal> {
    let name = Name::make(b"a")?;
    Ok(Request {
        name,
        number: Some(number),
        call,
    })
}

/// What a seat remembers of a call in the queue `a`.
fn entry(ask: Request, place: Option<usize>, end: End) -> Entry {
    let Request { name, number, call } = ask;
    Entry {
        name,
        queue: A,
        number,
        call,
        place,
        end,
    }
}

/// What it remembers, where the call ran from this place and was answered.
pub(crate) fn ran(ask: Request, place: usize, reply: Reply) -> Entry {
    entry(ask, Some(place), End::Answered(reply))
}

/// What it remembers, where the call ran from this place until a crash.
pub(crate) fn cut_off(ask: Request, place: usize) -> Entry {
    entry(ask, Some(place), End::Interrupted)
}

/// What it remembers, where the call was answered from what is kept.
pub(crate) fn repeated(ask: Request, reply: Reply) -> Entry {
    entry(ask, None, End::Answered(reply))
}

/// A call that passes this gate.
fn asked_at<J: Naming, R: Wait, G: Gate>(
    rt: &R,
    shared: &Shared<J>,
    seat: Seat<J>,
    ask: Request,
    gate: &G,
) -> (Seat<J>, Answer)
    ensures { result.0.client ≡ seat.client }
{
    let mark = shared.mark_now(rt);
    let (seat, _mark, answer) = shared.call(rt, seat, ask, gate, mark);
    (seat, answer)
}

/// A call that no gate holds back.
pub(crate) fn asked<J: Naming, R: Wait>(
    rt: &R,
    shared: &Shared<J>,
    seat: Seat<J>,
    ask: Request,
) -> (Seat<J>, Answer)
    ensures { result.0.client ≡ seat.client }
{
    asked_at(rt, shared, seat, ask, &OpenGate)
}

/// A call that a gate holds back after so many steps.
#[derive(Clone, Copy)]
pub(crate) struct Hold {
    pub(crate) ask: Request,
    pub(crate) steps: u64,
}

/// One seat's call is held back until another seat's is answered: both seats with their answers, and whether it was
/// held back in time.
pub(crate) fn held_beside<J: Naming + Send + Sync, R: Threads + Wait + Clock + Sync>(
    rt: &R,
    shared: &Shared<J>,
    zero: Seat<J>,
    hold: Hold,
    one: Seat<J>,
    other: Request,
) -> ((Seat<J>, Answer), (Seat<J>, Answer), bool)
    ensures zero { result.0.0.client ≡ zero.client }
    ensures one { result.1.0.client ≡ one.client }
{
    let (there, done, late) = (AtomicU64::new(0), AtomicU64::new(0), AtomicU64::new(0));
    let gate = Held {
        clock: rt,
        steps: hold.steps,
        there: &there,
        done: &done,
        late: &late,
    };
    let Hold { ask, steps: _ } = hold;
    let (first, second) = join(
        rt,
        || asked_at(rt, shared, zero, ask, &gate),
        || {
            wait_for(rt, &there);
            let (one, answer) = asked(rt, shared, one, other);
            tell(&done);
            (one, answer)
        },
    );
    let in_time = there.load(Ordering::SeqCst) == 1 && late.load(Ordering::SeqCst) == 0;
    (first, second, in_time)
}

/// The system stops, and recovers: the operator, and how either went.
pub(crate) fn stopped_and_recovered<J: Naming, R: Wait>(
    rt: &R,
    shared: &Shared<J>,
    operator: Operator<J>,
) -> (Operator<J>, Result<(), Refusal>, Result<(), Refusal>) {
    let mark = shared.mark_now(rt);
    let (operator, mark, stopped) = shared.crash(rt, operator, mark);
    let (_mark, recovered) = shared.recover(rt, mark);
    (operator, stopped, recovered)
}

/// The system stops, and recovers.
pub(crate) fn restarted<J: Naming, R: Wait>(
    rt: &R,
    shared: &Shared<J>,
    operator: Operator<J>,
) -> Result<(), Refusal> {
    let (_operator, stopped, recovered) = stopped_and_recovered(rt, shared, operator);
    stopped?;
    recovered
}

/// A seat's call is held back until the system has stopped and recovered: the seat with its answer, and whether it was
/// held back in time and the system did.
pub(crate) fn held_over_a_crash<J: Naming + Send + Sync, R: Threads + Wait + Clock + Sync>(
    rt: &R,
    shared: &Shared<J>,
    operator: Operator<J>,
    seat: Seat<J>,
    hold: Hold,
) -> ((Seat<J>, Answer), bool)
    ensures { result.0.0.client ≡ seat.client }
{
    let (there, done, late) = (AtomicU64::new(0), AtomicU64::new(0), AtomicU64::new(0));
    let gate = Held {
        clock: rt,
        steps: hold.steps,
        there: &there,
        done: &done,
        late: &late,
    };
    let Hold { ask, steps: _ } = hold;
    let (first, restart) = join(
        rt,
        || asked_at(rt, shared, seat, ask, &gate),
        || {
            wait_for(rt, &there);
            let restart = restarted(rt, shared, operator);
            tell(&done);
            restart
        },
    );
    let in_time = there.load(Ordering::SeqCst) == 1 && late.load(Ordering::SeqCst) == 0;
    (first, in_time && restart.is_ok())
}
