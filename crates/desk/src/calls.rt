//! Puts and takes, each with its client's seat.

ghost use Rattle.std.specs.Prelude.{◌≡◌, IfErr, IfNone, IfSome, OnErr, OnOk, true};
ghost use Rattle.desk.specs.Answering.{IsCallAnswer, IsWhyNameless};
ghost use Rattle.desk.specs.Calls.{answer_on_wire, asked_in, AnswersAsked, AnswersCall, AnswersSettled};
ghost use Rattle.desk.specs.Calls.{IsSettled, why_nameless};
ghost use Rattle.wire.specs.declared.answer.Answer.{Answer as AnyAnswer};
ghost use Rattle.workers.specs.Lists.{ends_open};
ghost use Rattle.workers.specs.Moments.{GoesOnLater};

use directory::{Name, Places};
use std::sync::Wait;
use wire::{Answer, Request};
use words::{Call, Refusal};
use workers::{Marked, Naming, OpenGate, Seat, Shared};

/// A put or a take, as it is asked for: in the queue of this name, and with a number in a log queue. A queue that is
/// none is a text that is no name.
#[derive(Clone, Copy)]
pub struct Asked {
    pub queue: Option<Name>,
    pub number: Option<u64>,
    pub call: Call,
}

/// What a put or a take asks for. Another request asks for no call.
pub(crate) fn asked_in(request: Request) -> Option<Asked>
    ensures { result ≡ asked_in request }
{
    match request {
        Request::Put {
            queue,
            value,
            number,
            ..
        } => Some(Asked {
            queue,
            number,
            call: Call::Enq(value),
        }),
        Request::Take { queue, number, .. } => Some(Asked {
            queue,
            number,
            call: Call::Deq,
        }),
        _ => None,
    }
}

/// What a connection is told of what its seat was answered.
fn on_wire(answer: workers::Answer) -> Answer
    ensures { result ≡ answer_on_wire answer }
{
    match answer {
        workers::Answer::Reply(reply) => Answer::Reply(reply),
        workers::Answer::Refused(refusal) => Answer::Refused(refusal),
        workers::Answer::Interrupted => Answer::Interrupted,
        workers::Answer::Unfinished => Answer::Unfinished,
    }
}

/// Why a queue of no name is not found, where a list of the queues was answered so: it is not there, which is said once
/// the broker is ready.
fn why_nameless(listed: Result<Places, Refusal>) -> Refusal
    ensures { result ≡ why_nameless listed }
{
    match listed {
        Ok(_) => Refusal::NoQueue,
        Err(refusal) => refusal,
    }
}

/// Why a queue of no name is not found: it is not there (NoQueue), or the broker recovers (NotReady).
pub(crate) fn nameless<J: Naming, R: Wait>(
    rt: &R,
    shared: &Shared<J>,
    before: Marked<J>,
) -> (Marked<J>, Refusal)
    ensures why { IsWhyNameless result.0.broker result.1 }
    ensures later { GoesOnLater before result.0 }
{
    let (marked, listed) = shared.list(rt, before);
    (marked, why_nameless(listed))
}

/// The seat with no open call: one that was left Unfinished is finished first. It is refused where that was refused
/// memory once more (Busy).
fn settled<J: Naming, R: Wait>(
    rt: &R,
    shared: &Shared<J>,
    seat: Seat<J>,
) -> (Seat<J>, Result<(), Refusal>)
    ensures client { result.0.client ≡ seat.client }
    ensures settled { OnOk result.1 (IsSettled seat.list.items result.0.list.items) }
    ensures same { OnErr result.1 (result.0.list.items ≡ seat.list.items) }
    ensures open { OnErr result.1 (ends_open seat.list.items ≡ true) }
    ensures errors { IfErr result.1 (λ e. e ≡ Refusal.Busy) }
{
    if !seat.is_open() {
        return (seat, Ok(()));
    }
    let (seat, answer) = shared.finish(rt, seat, &OpenGate);
    match answer {
        workers::Answer::Unfinished => (seat, Err(Refusal::Busy)),
        _ => (seat, Ok(())),
    }
}

/// Makes a call with its client's seat, and answers what it was answered.
fn call_at_seat<J: Naming, R: Wait>(
    rt: &R,
    shared: &Shared<J>,
    before: Marked<J>,
    seat: Seat<J>,
    asked: Asked,
) -> (Seat<J>, Marked<J>, Answer)
    ensures client { result.0.client ≡ seat.client }
    ensures entry { AnswersCall J.first seat.list.items asked result.2 result.0.list.items }
    ensures settled { AnswersSettled J.first seat.client asked result.2 }
    ensures is { IsCallAnswer J.first before result.1 seat.client asked result.2 }
    ensures later { GoesOnLater before result.1 }
{
    let (seat, finished) = settled(rt, shared, seat);
    if let Err(refusal) = finished {
        return (seat, before, Answer::Refused(refusal));
    }
    let Some(name) = asked.queue else {
        let (marked, refusal) = nameless(rt, shared, before);
        return (seat, marked, Answer::Refused(refusal));
    };
    let Asked { number, call, .. } = asked;
    let request = workers::Request { name, number, call };
    let (seat, marked, answer) = shared.call(rt, seat, request, &OpenGate, before);
    (seat, marked, on_wire(answer))
}

/// Answers a put or a take with its client's seat. A call of the client that was left Unfinished is finished first. It
/// is refused where that was refused memory once more (Busy), and as [`Shared::call`] is; then the seat remembers none
/// more. A number that was settled when the seats were given has its reply, or is Old. Another request is none that a
/// seat answers (BadRequest). With the answer comes a mark of the session that says so, in the place of an earlier one.
pub fn answer_at_seat<J: Naming, R: Wait>(
    rt: &R,
    shared: &Shared<J>,
    before: Marked<J>,
    seat: Seat<J>,
    request: Request,
) -> (Seat<J>, Marked<J>, Answer)
    ensures client { result.0.client ≡ seat.client }
    ensures entry { AnswersAsked J.first seat.list.items request result.2 result.0.list.items }
    ensures settled { IfSome (asked_in request) (λ asked. AnswersSettled J.first seat.client asked result.2) }
    ensures is { IfSome (asked_in request) (λ asked. IsCallAnswer J.first before result.1 seat.client asked result.2) }
    ensures later { GoesOnLater before result.1 }
    ensures other { IfNone (asked_in request) (result.2 ≡ AnyAnswer.Refused Refusal.BadRequest) }
    ensures other_list { IfNone (asked_in request) (result.0.list.items ≡ seat.list.items) }
{
    match asked_in(request) {
        Some(asked) => call_at_seat(rt, shared, before, seat, asked),
        None => (seat, before, Answer::Refused(Refusal::BadRequest)),
    }
}
