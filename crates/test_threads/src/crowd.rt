//! Many clients in threads of their own, beside a thread that crashes the broker and recovers it.

ghost use Rattle.std.specs.Prelude.{◌≡◌, ◌<◌, ℕ, length, true, IfSome};
ghost use Rattle.workers.specs.Opening.{IsNameOf};
ghost use Rattle.test_threads.specs.Orders.{IsClientAt};
ghost use Rattle.workers.specs.Seats.{AreAllInOrder};

use crate::asking::{asked, stopped_and_recovered};
use crate::gates::{TURNS, rest};
use crate::lists::{Lengths, lengths};
use crate::staging::{Played, begun, ended, opened};
use crate::taken::are_once;
use arena::{SLOTS, SlotId};
use directory::Name;
use rand_pcg::Pcg32;
use session::Session;
use std::alloc::Global;
use std::marker::Brand;
use std::process::Abort;
use std::sync::Wait;
use std::sync::atomic::{AtomicU64, Ordering};
use std::test::*;
use std::thread::{Threads, join, map_vec};
use std::time::Clock;
use test_support::sessions::{create, new_session};
use test_support::{below, item};
use words::{Call, Kind, MAX_CLIENTS, Refusal};
use workers::{Answer, End, Entry, Naming, Opened, Operator, Request, Seat, Shared};

/// How many calls each client makes.
const CALLS: u32 = 2_000;

/// The values that clients put are below this.
const VALUES: u32 = CALLS * MAX_CLIENTS as u32;

/// How many records each client has in each queue.
const RECORDS: u32 = 1_024;

/// The queues of the slots below this one are log queues, and the others durable ones.
const LOGS: usize = 4;

/// The names of the queues, of a letter each.
const NAMES: [u8; SLOTS] = *b"abcdefgh";

/// A session with eight queues, four of each kind.
fn with_all_queues(alloc: Global) -> Result<Session, Refusal> {
    let mut session = new_session(alloc, MAX_CLIENTS as u32, RECORDS)?;
    for slot in 0..SLOTS {
        let kind = if slot < LOGS {
            Kind::Log
        } else {
            Kind::Durable
        };
        create(&mut session, &[NAMES[slot]], kind)?;
    }
    Ok(session)
}

/// A drawn call in a drawn queue, with the client's next number in a log queue: it puts this value, or takes one.
fn drawn(rng: &mut Pcg32, numbers: &mut [u64; LOGS], value: u32) -> Result<Request, Refusal> {
    let slot = below(rng, SLOTS as u32) as usize;
    let call = match below(rng, 2) {
        0 => Call::Enq(item(value)),
        _ => Call::Deq,
    };
    let number = match numbers.get_mut(slot) {
        Some(number) => {
            *number = number.saturating_add(1);
            Some(*number)
        }
        None => None,
    };
    let name = Name::make(&[NAMES[slot % SLOTS]])?;
    Ok(Request { name, number, call })
}

/// The call in a durable queue, which is sent once: whether it was answered, or a crash or a recovery came between.
fn sent_once<J: Naming, R: Wait + Clock>(
    rt: &R,
    shared: &Shared<J>,
    seat: Seat<J>,
    ask: Request,
) -> (Seat<J>, bool)
    ensures { result.0.client ≡ seat.client }
{
    let (seat, answer) = asked(rt, shared, seat, ask);
    if answer == Answer::Refused(Refusal::NotReady) {
        rest(rt, 1);
        return (seat, true);
    }
    (
        seat,
        matches!(answer, Answer::Reply(_) | Answer::Interrupted),
    )
}

/// The call in a log queue, which is sent again until it is answered: whether it was, and was refused for nothing but a
/// recovery.
fn sent_until_answered<J: Naming, R: Wait + Clock>(
    rt: &R,
    shared: &Shared<J>,
    seat: Seat<J>,
    ask: &Request,
) -> (Seat<J>, bool)
    ensures { result.0.client ≡ seat.client }
{
    let mut seat = seat;
    for _ in 0..TURNS {
        let (after, answer) = asked(rt, shared, seat, *ask);
        seat = after;
        match answer {
            Answer::Reply(_) => return (seat, true),
            Answer::Interrupted | Answer::Refused(Refusal::NotReady) => rest(rt, 1),
            Answer::Refused(_) | Answer::Unfinished => return (seat, false),
        }
    }
    (seat, false)
}

/// The call, as it is sent in a queue of its kind: whether it was answered as it may be.
fn sent<J: Naming, R: Wait + Clock>(
    rt: &R,
    shared: &Shared<J>,
    seat: Seat<J>,
    ask: Request,
) -> (Seat<J>, bool)
    ensures { result.0.client ≡ seat.client }
{
    match ask.number {
        Some(_) => sent_until_answered(rt, shared, seat, &ask),
        None => sent_once(rt, shared, seat, ask),
    }
}

/// All calls of a client, drawn from a seed of its own: whether each was answered as it may be.
fn all_sent<J: Naming, R: Wait + Clock>(
    rt: &R,
    shared: &Shared<J>,
    seat: Seat<J>,
) -> (Seat<J>, bool)
    ensures { result.0.client ≡ seat.client }
{
    let client = u32::from(seat.client.0);
    let mut rng = Pcg32::new(u64::from(client), 31);
    let (mut seat, mut right, mut numbers) = (seat, true, [0u64; LOGS]);
    for call in 0..CALLS {
        let value = client.saturating_mul(CALLS).saturating_add(call);
        let Ok(ask) = drawn(&mut rng, &mut numbers, value) else {
            return (seat, false);
        };
        let (after, was_right) = sent(rt, shared, seat, ask);
        seat = after;
        right &= was_right;
    }
    (seat, right)
}

/// The system stops and recovers at drawn moments, until so many clients are done; whether it always could.
fn restarts<J: Naming, R: Wait + Clock>(
    rt: &R,
    shared: &Shared<J>,
    operator: Operator<J>,
    done: &AtomicU64,
    clients: u64,
) -> bool {
    let (mut rng, mut right, mut operator) = (Pcg32::new(1, 32), true, operator);
    for _ in 0..TURNS {
        rest(rt, below(&mut rng, 20).saturating_add(5));
        if done.load(Ordering::SeqCst) == clients {
            return right;
        }
        let (after, stopped, recovered) = stopped_and_recovered(rt, shared, operator);
        operator = after;
        right &= stopped.is_ok() && recovered == Ok(());
    }
    false
}

/// Whether these seats are in the order of their clients.
fn are_in_order<J: Naming>(seats: &[Seat<J>]) -> bool
    ensures { result ≡ true → (k : ℕ) → k < length seats.now → IsClientAt (λ seat. seat.client) seats.now k }
{
    for k in 0..seats.len() {
        if seats[k].client.0 as usize != k {
            return false;
        }
    }
    true
}

/// Each client makes its calls in a thread of its own. How many were answered as they may not be, and how many clients
/// are done, is counted.
fn all_play<J: Naming + Send + Sync, R: Threads + Wait + Clock + Sync>(
    rt: &R,
    shared: &Shared<J>,
    seats: Vec<Seat<J>>,
    done: &AtomicU64,
    wrong: &AtomicU64,
) -> Option<Vec<Seat<J>>>
    requires { AreAllInOrder (λ seat. seat.client) J.clients seats.items }
    ensures { IfSome result (λ seats. AreAllInOrder (λ seat. seat.client) J.clients seats.items) }
{
    let clients = seats.len();
    let seats = map_vec(
        rt,
        seats,
        &|seat: Seat<J>| {
            let (seat, right) = all_sent(rt, shared, seat);
            if !right {
                wrong.fetch_add(1, Ordering::SeqCst);
            }
            done.fetch_add(1, Ordering::SeqCst);
            seat
        },
    )
    .ok()?;
    if seats.len() != clients || !are_in_order(seats.as_slice()) {
        return None;
    }
    Some(seats)
}

/// The clients play, while the system stops again and again.
fn crowded<J: Naming + Send + Sync, R: Threads + Wait + Clock + Abort + Sync>(
    rt: &R,
    alloc: Global,
    opened: Opened,
    since: &Lengths,
) -> Result<Played, Fail>
    requires { IsNameOf J.roll J.clients J.first opened }
{
    let (shared, seats, operator) = begun::<J>(alloc, opened)?;
    let (done, wrong) = (AtomicU64::new(0), AtomicU64::new(0));
    let clients = seats.len() as u64;
    let (seats, right) = join(
        rt,
        || -> Option<Vec<Seat<J>>>
            requires { AreAllInOrder (λ seat. seat.client) J.clients seats.items }
            ensures { IfSome result (λ seats. AreAllInOrder (λ seat. seat.client) J.clients seats.items) }
        { all_play(rt, &shared, seats, &done, &wrong) },
        || restarts(rt, &shared, operator, &done, clients),
    );
    assert!(rt; right, "restarts");
    assert_eq!(rt; wrong.load(Ordering::SeqCst), 0, "clients");
    let seats = seats.ok_or("seats in order")?;
    ended(alloc, shared, seats, since)
}

#[test]
fn a_crowd_of_clients_takes_effect_once_beside_crashes(rt: HostRuntime) -> Result<(), Fail> {
    let alloc = rt.alloc();
    let session = with_all_queues(alloc)?;
    let since = lengths(&session);
    let opened = opened(alloc, session)?;
    let left = crowded::<Brand, _>(&rt, alloc, opened, &since)?;
    let lists = left.lists.as_slice();
    let was_cut_off = |list: &Vec<Entry>| list.iter().any(|entry| entry.end == End::Interrupted);
    assert!(rt; lists.iter().any(was_cut_off), "no crash came between");
    for slot in 0..LOGS as u8 {
        let right = are_once(alloc, &left.session, lists, SlotId(slot), VALUES)?;
        assert!(rt; right, "{slot}");
    }
    Ok(())
}
