//! A shared session with one client, and queues of both kinds: its acts in their order, with crashes between two calls
//! and in the middle of one.

ghost use Rattle.std.specs.Prelude.{◌≡◌, IfOk};
ghost use Rattle.workers.specs.Opening.{IsNameOf};
ghost use Rattle.workers.specs.Seats.{AreAllInOrder};

use crate::again::{MOST_TRIES, say_again, seen};
use crate::calls::call;
use crate::seats::{CLIENT, DURABLE, LOG, all, only, seen_beside};
use arena::SlotId;
use directory::Name;
use session::Session;
use std::alloc::Global;
use std::marker::Brand;
use std::sync::{Mutex, Wait};
use test_support::Wish;
use test_support::sessions::{create, new_session};
use test_support::steps::LOG_CLAIM_KEPT;
use words::{Client, Kind, Refusal};
use workers::{Gate, Naming, OpenGate, Opened, Operator, Request, Seat, Shared};

/// A part of the story.
#[derive(Clone, Copy)]
enum Part {
    /// The client's call of the log queue with this number, or of the durable one without.
    Call(Option<u64>, Wish),
    /// The same, but everything stops in its middle, once it has made so many steps.
    CutOff(Option<u64>, Wish, u32),
    Crash,
    Recover,
    /// The histories end, and the queue of a slot begins in fresh records, if one is named.
    BeginAnew(Option<SlotId>),
    /// What the seat remembers is printed.
    List,
    /// How full the log queue is, is printed.
    Usage,
}

/// The story.
static PARTS: [Part; 26] = [
    Part::Call(Some(1), Wish::Enq(7)),
    Part::Call(Some(2), Wish::Enq(8)),
    Part::Call(None, Wish::Enq(5)),
    Part::Crash,
    Part::Recover,
    Part::CutOff(Some(3), Wish::Deq, LOG_CLAIM_KEPT),
    Part::Recover,
    Part::Call(Some(3), Wish::Deq),
    Part::Call(Some(4), Wish::Enq(9)),
    Part::CutOff(None, Wish::Deq, 7),
    Part::Recover,
    Part::Call(None, Wish::Deq),
    Part::List,
    Part::BeginAnew(None),
    Part::Call(Some(4), Wish::Enq(9)),
    Part::Call(Some(5), Wish::Deq),
    Part::List,
    Part::BeginAnew(Some(SlotId(3))),
    Part::BeginAnew(Some(SlotId(0))),
    Part::Call(Some(5), Wish::Deq),
    Part::Call(Some(6), Wish::Enq(6)),
    Part::Crash,
    Part::BeginAnew(Some(SlotId(0))),
    Part::Recover,
    Part::List,
    Part::Usage,
];

/// A call of the log queue with this number, or of the durable one without.
fn request(number: Option<u64>, wish: Wish) -> Result<Request, Refusal> {
    let name = Name::make(if number.is_some() { LOG } else { DURABLE })?;
    Ok(Request {
        name,
        number,
        call: wish.call(),
    })
}

/// The operator, where calls and gates find him.
type Post<J> = Mutex<Option<Operator<J>>>;

/// Whether everything stopped.
fn has_stopped<J: Naming, R: Wait>(rt: &R, shared: &Shared<J>, post: &Post<J>) -> bool {
    let mut post = post.lock(rt);
    let Some(operator) = post.take() else {
        return false;
    };
    let (operator, _mark, stopped) = shared.crash(rt, operator, shared.mark_now(rt));
    *post = Some(operator);
    stopped.is_ok()
}

/// Stops everything.
fn crash<J: Naming, R: Wait + Print + AllocGlobal>(
    rt: &R,
    shared: &Shared<J>,
    post: &Post<J>,
) -> Result<(), Refusal> {
    for _ in 0..MOST_TRIES {
        let before = seen_beside(rt, shared, &[])?;
        if has_stopped(rt, shared, post) {
            let _ = println!(rt; "everything stops");
            return Ok(());
        }
        let after = seen_beside(rt, shared, &[])?;
        say_again(rt, "Shared::crash", before.as_str() == after.as_str());
    }
    Err(Refusal::NoMemory)
}

/// Recovers, and prints what the client is told. Where that is refused memory the steps that were made stand: the
/// broker is still not ready, and the next recovery goes on.
fn recover<J: Naming, R: Wait + Print + AllocGlobal>(
    rt: &R,
    shared: &Shared<J>,
) -> Result<(), Refusal> {
    for _ in 0..MOST_TRIES {
        let (mark, recovered) = shared.recover(rt, shared.mark_now(rt));
        if recovered.is_ok() {
            let (mark, numbered) = shared.told(rt, CLIENT, &Name::make(LOG)?, mark);
            let (_mark, plain) = shared.told(rt, CLIENT, &Name::make(DURABLE)?, mark);
            let (numbered, plain) = (numbered?, plain?);
            let _ = println!(rt; "the client is told: {numbered}, {plain}");
            return Ok(());
        }
        let is_down = shared.list(rt, mark).1 == Err(Refusal::NotReady);
        say_again(rt, "Shared::recover", is_down);
    }
    Err(Refusal::NoMemory)
}

/// The histories end, and the queue of a slot begins in fresh records, if one is named.
fn ended<J: Naming, R: Wait>(
    rt: &R,
    shared: &Shared<J>,
    seats: Vec<Seat<J>>,
    slot: Option<SlotId>,
) -> (Vec<Seat<J>>, Result<(), Refusal>)
    requires { AreAllInOrder (λ seat. seat.client) J.clients seats.items }
    ensures { AreAllInOrder (λ seat. seat.client) J.clients result.0.items }
{
    let mark = shared.mark_now(rt);
    let (seats, _mark, ended) = match slot {
        Some(slot) => shared.renew(rt, seats, slot, mark),
        None => shared.rotate(rt, seats, mark),
    };
    (seats, ended)
}

/// Ends the histories, with fresh records or without, and prints whether they ended.
fn begin_anew<J: Naming, R: Wait + Print + AllocGlobal>(
    rt: &R,
    shared: &Shared<J>,
    seat: Seat<J>,
    slot: Option<SlotId>,
) -> Result<Seat<J>, Refusal>
    requires client { seat.client ≡ record { 0 = 0 } }
    requires clients { J.clients ≡ 1 }
    ensures { IfOk result (λ next. next.client ≡ seat.client) }
{
    let mut seat = seat;
    let call = slot.map_or("Shared::rotate", |_| "Shared::renew");
    for _ in 0..MOST_TRIES {
        let before = seen_beside(rt, shared, &seat.list)?;
        let (seats, outcome) = ended(rt, shared, all(rt, seat)?, slot);
        seat = only(seats).ok_or(Refusal::NoClient)?;
        if outcome != Err(Refusal::NoMemory) {
            let _ = println!(rt; "{call} {slot:?}: {outcome:?}");
            return Ok(seat);
        }
        let after = seen_beside(rt, shared, &seat.list)?;
        say_again(rt, call, before.as_str() == after.as_str());
    }
    Err(Refusal::NoMemory)
}

/// A gate that stops everything in the middle of a call, once it has made so many steps.
#[derive(Drop)]
struct Stopping<'a, J: Naming> {
    shared: &'a Shared<J>,
    post: &'a Post<J>,
    steps: u64,
}

impl<'a, J: Naming> Gate for Stopping<'a, J> {
    fn pass<R: Wait>(&self, rt: &R, _client: Client, steps: u64) {
        if steps != self.steps {
            return;
        }
        for _ in 0..MOST_TRIES {
            if has_stopped(rt, self.shared, self.post) {
                return;
            }
        }
    }
}

/// Prints what the seat remembers.
fn show_list<J: Naming, R: Print>(rt: &R, seat: &Seat<J>) {
    for entry in seat.list.iter() {
        let _ = println!(rt; "  {entry:?}");
    }
}

/// Prints how full the log queue is.
fn show_usage<J: Naming, R: Wait + Print>(rt: &R, shared: &Shared<J>) -> Result<(), Refusal> {
    for _ in 0..MOST_TRIES {
        let (_marked, held) = shared.usage(rt, SlotId(0), shared.mark_now(rt));
        match held {
            Ok(usage) => {
                let _ = println!(rt; "{} items, {} records", usage.items, usage.records);
                return Ok(());
            }
            Err(Refusal::NoMemory) => say_again(rt, "Shared::usage", true),
            Err(refusal) => return Err(refusal),
        }
    }
    Err(Refusal::NoMemory)
}

/// The seat, once this is done.
fn kept<J: Naming>(seat: Seat<J>, done: Result<(), Refusal>) -> Result<Seat<J>, Refusal>
    ensures { IfOk result (λ next. next.client ≡ seat.client) }
{
    done?;
    Ok(seat)
}

/// A part of the story.
fn play_part<J: Naming, R: Wait + Print + AllocGlobal>(
    rt: &R,
    shared: &Shared<J>,
    post: &Post<J>,
    seat: Seat<J>,
    part: Part,
) -> Result<Seat<J>, Refusal>
    requires client { seat.client ≡ record { 0 = 0 } }
    requires clients { J.clients ≡ 1 }
    ensures { IfOk result (λ next. next.client ≡ seat.client) }
{
    match part {
        Part::Call(number, wish) => call(rt, shared, seat, &request(number, wish)?, &OpenGate),
        Part::CutOff(number, wish, steps) => {
            let gate = Stopping {
                shared,
                post,
                steps: u64::from(steps),
            };
            call(rt, shared, seat, &request(number, wish)?, &gate)
        }
        Part::Crash => kept(seat, crash(rt, shared, post)),
        Part::Recover => kept(seat, recover(rt, shared)),
        Part::BeginAnew(slot) => begin_anew(rt, shared, seat, slot),
        Part::List => {
            show_list(rt, &seat);
            Ok(seat)
        }
        Part::Usage => kept(seat, show_usage(rt, shared)),
    }
}

/// The story, and all seats at its end.
fn play_parts<J: Naming, R: Wait + Print + AllocGlobal>(
    rt: &R,
    shared: &Shared<J>,
    post: &Post<J>,
    seat: Seat<J>,
) -> Result<Vec<Seat<J>>, Refusal>
    requires client { seat.client ≡ record { 0 = 0 } }
    requires clients { J.clients ≡ 1 }
    ensures { IfOk result (λ seats. AreAllInOrder (λ seat. seat.client) J.clients seats.items) }
{
    let mut seat = seat;
    for part in &PARTS {
        seat = play_part(rt, shared, post, seat, *part)?;
    }
    all(rt, seat)
}

/// Closes the session, and prints what can be seen of it.
fn close<J: Naming, R: Wait + Print + AllocGlobal>(
    rt: &R,
    shared: Shared<J>,
    seats: Vec<Seat<J>>,
) -> Result<(), Refusal>
    requires { AreAllInOrder (λ seat. seat.client) J.clients seats.items }
{
    let session = shared.close(seats);
    let text = seen(rt.alloc(), &session)?;
    let _ = println!(rt; "{text}");
    Ok(())
}

/// The acts, once the session has its name. Where memory for the seats was refused it is handed back.
fn acts<J: Naming, R: Wait + Print + AllocGlobal>(
    rt: &R,
    opened: Opened,
) -> Result<Option<Session>, Refusal>
    requires { IsNameOf J.roll J.clients J.first opened }
{
    let (shared, seats, operator) = match opened.named::<J>(rt.alloc()) {
        Ok(named) => named,
        Err(not) => return Ok(Some(not.session)),
    };
    let Some(seat) = only(seats) else {
        return Err(Refusal::NoClient);
    };
    let seats = play_parts(rt, &shared, &Mutex::new(Some(operator)), seat)?;
    close(rt, shared, seats)?;
    Ok(None)
}

/// This session, about to be shared.
fn opened<R: Print + AllocGlobal>(rt: &R, session: Session) -> Result<Opened, Refusal> {
    let mut session = session;
    let before = seen(rt.alloc(), &session)?;
    for _ in 0..MOST_TRIES {
        match Opened::new(rt.alloc(), session) {
            Ok(opened) => return Ok(opened),
            Err(not) => {
                session = not.session;
                let after = seen(rt.alloc(), &session)?;
                say_again(rt, "Opened::new", before.as_str() == after.as_str());
            }
        }
    }
    Err(Refusal::NoMemory)
}

/// A session with queues of both kinds. Making it is no call of the story: it is made again unsaid.
fn with_queues(alloc: Global) -> Result<Session, Refusal> {
    for _ in 0..MOST_TRIES {
        if let Ok(mut session) = new_session(alloc, 1, 6) {
            create(&mut session, LOG, Kind::Log)?;
            create(&mut session, DURABLE, Kind::Durable)?;
            return Ok(session);
        }
    }
    Err(Refusal::NoMemory)
}

/// A shared session.
pub(crate) fn tell<R: Wait + Print + AllocGlobal>(rt: &R) -> Result<(), Refusal> {
    let mut session = with_queues(rt.alloc())?;
    let before = seen(rt.alloc(), &session)?;
    for _ in 0..MOST_TRIES {
        let opened = opened(rt, session)?;
        match acts::<Brand, R>(rt, opened)? {
            None => return Ok(()),
            Some(back) => {
                session = back;
                let after = seen(rt.alloc(), &session)?;
                say_again(rt, "Opened::named", before.as_str() == after.as_str());
            }
        }
    }
    Err(Refusal::NoMemory)
}
