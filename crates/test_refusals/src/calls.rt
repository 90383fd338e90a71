//! Calls of a shared session that are made again where they were refused memory, and gone on with where a step of them
//! was.

ghost use Rattle.std.specs.Prelude.{◌≡◌, IfOk};

use crate::again::{MOST_TRIES, say_again};
use crate::seats::{all, only, seen_beside};
use std::sync::Wait;
use words::Refusal;
use workers::{Answer, Gate, Naming, OpenGate, Request, Seat, Shared};

/// Prints what a call came to.
fn show<R: Print>(rt: &R, asked: &Request, answer: Answer) {
    let _ = println!(rt;
        "{} {:?} {:?}: {answer:?}",
        asked.name, asked.number, asked.call
    );
}

/// Tries to end the histories while the call is under way. That must be refused, and leave the seat's list as it is.
fn rotate_too_early<J: Naming, R: Wait + Print + AllocGlobal>(
    rt: &R,
    shared: &Shared<J>,
    seat: Seat<J>,
) -> Result<Seat<J>, Refusal>
    requires client { seat.client ≡ record { 0 = 0 } }
    requires clients { J.clients ≡ 1 }
    ensures { IfOk result (λ next. next.client ≡ seat.client) }
{
    let before = seen_beside(rt, shared, &seat.list)?;
    let (seats, _mark, rotated) = shared.rotate(rt, all(rt, seat)?, shared.mark_now(rt));
    let seat = only(seats).ok_or(Refusal::NoClient)?;
    let after = seen_beside(rt, shared, &seat.list)?;
    if matches!(rotated, Err(Refusal::Busy)) && before.as_str() == after.as_str() {
        let _ = println!(rt; "busy");
    } else {
        let _ = println!(rt; "changed: Shared::rotate");
    }
    Ok(seat)
}

/// Goes on with a call that was left unfinished, until it is answered.
fn finish<J: Naming, R: Wait + Print + AllocGlobal>(
    rt: &R,
    shared: &Shared<J>,
    seat: Seat<J>,
    asked: &Request,
) -> Result<Seat<J>, Refusal>
    requires client { seat.client ≡ record { 0 = 0 } }
    requires clients { J.clients ≡ 1 }
    ensures { IfOk result (λ next. next.client ≡ seat.client) }
{
    let mut seat = seat;
    for _ in 0..MOST_TRIES {
        seat = rotate_too_early(rt, shared, seat)?;
        let (next, answer) = shared.finish(rt, seat, &OpenGate);
        seat = next;
        if answer != Answer::Unfinished {
            show(rt, asked, answer);
            return Ok(seat);
        }
    }
    Err(Refusal::NoMemory)
}

/// Makes a call.
pub(crate) fn call<J: Naming, G: Gate, R: Wait + Print + AllocGlobal>(
    rt: &R,
    shared: &Shared<J>,
    seat: Seat<J>,
    asked: &Request,
    gate: &G,
) -> Result<Seat<J>, Refusal>
    requires client { seat.client ≡ record { 0 = 0 } }
    requires clients { J.clients ≡ 1 }
    ensures { IfOk result (λ next. next.client ≡ seat.client) }
{
    let mut seat = seat;
    for _ in 0..MOST_TRIES {
        let before = seen_beside(rt, shared, &seat.list)?;
        let (next, _mark, answer) = shared.call(rt, seat, *asked, gate, shared.mark_now(rt));
        seat = next;
        match answer {
            Answer::Refused(Refusal::NoMemory) => {
                let after = seen_beside(rt, shared, &seat.list)?;
                say_again(rt, "Shared::call", before.as_str() == after.as_str());
            }
            Answer::Unfinished => {
                let _ = println!(rt; "unfinished: Shared::call");
                return finish(rt, shared, seat, asked);
            }
            _ => {
                show(rt, asked, answer);
                return Ok(seat);
            }
        }
    }
    Err(Refusal::NoMemory)
}
