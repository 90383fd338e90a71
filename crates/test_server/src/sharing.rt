//! Connections that use one client's seat at the same time.

ghost use Rattle.workers.specs.Opening.{IsNameOf};

use desk::BrokerDesk;
use directory::Name;
use engine::Desk;
use opening::opened;
use seating::Seating;
use session::Session;
use std::alloc::Global;
use std::marker::Brand;
use std::process::Abort;
use std::sync::Wait;
use std::sync::atomic::{AtomicU64, Ordering};
use std::test::*;
use std::thread::{Threads, map_indices, sleep};
use std::time::{Clock, Duration};
use test_support::item;
use wire::{Answer, Request};
use words::{Kind, Refusal, Reply};
use workers::{Naming, Opened, Shared};

/// How many connections there are.
const CONNECTIONS: usize = 4;

/// How many puts each makes, all of one client.
const PUTS: u32 = 1_000;

/// How many rounds are played at most until a connection finds the seat in use: on one processor the connections of a
/// round may happen to put one after another.
const ROUNDS: u32 = 100;

/// How many records the client has.
const RECORDS: u32 = 4_096;

/// How many turns of a millisecond a connection waits at most.
const TURNS: u32 = 10_000;

/// How many connections are there, and how the puts of all were answered.
#[derive(Drop)]
struct Tally {
    there: AtomicU64,
    done: AtomicU64,
    busy: AtomicU64,
    other: AtomicU64,
}

/// Counts one more.
fn count(word: &AtomicU64) {
    word.fetch_add(1, Ordering::SeqCst);
}

/// Waits for the other connections, at most for the turns of a test.
fn wait_for_all<C: Clock>(clock: &C, there: &AtomicU64) {
    count(there);
    for _ in 0..TURNS {
        if there.load(Ordering::SeqCst) == CONNECTIONS as u64 {
            return;
        }
        sleep(clock, Duration::from_millis(1));
    }
}

/// Puts values of client 0 in queue `a` over a connection of its own, once all connections are there.
fn put_all<J: Naming, R: Wait + Clock>(
    rt: &R,
    alloc: Global,
    shared: &Shared<J>,
    seats: &Seating<J>,
    tally: &Tally,
) {
    let Ok(mut desk) = BrokerDesk::new(rt, alloc, shared, seats) else {
        return count(&tally.other);
    };
    wait_for_all(rt, &tally.there);
    for value in 0..PUTS {
        let put = Request::Put {
            client: 0,
            queue: Name::make(b"a").ok(),
            value: item(value),
            number: None,
        };
        match desk.answer(rt, put) {
            Answer::Reply(Reply::Done) => count(&tally.done),
            Answer::Refused(Refusal::Busy) => count(&tally.busy),
            _ => count(&tally.other),
        }
    }
}

/// A queue is created, all connections put in it at once, and one more then takes what is there: how many values these
/// are.
fn put_and_taken<J: Naming + Send + Sync, R: Threads + Wait + Clock + Abort + Sync>(
    rt: &R,
    alloc: Global,
    shared: &Shared<J>,
    seats: &Seating<J>,
    tally: &Tally,
) -> Result<u64, Fail> {
    let mut desk = BrokerDesk::new(rt, alloc, shared, seats)?;
    let create = Request::Create {
        queue: Name::make(b"a").ok(),
        kind: Kind::Durable,
    };
    assert!(rt; matches!(desk.answer(rt, create), Answer::Created(_)));
    map_indices(
        rt,
        alloc,
        CONNECTIONS,
        &|_: usize| { put_all(rt, alloc, shared, seats, tally) },
    )?;
    taken(rt, &mut desk)
}

/// The same, once the broker has its name.
fn shared_by_all<J: Naming + Send + Sync, R: Threads + Wait + Clock + Abort + Sync>(
    rt: &R,
    alloc: Global,
    opened: Opened,
    tally: &Tally,
) -> Result<u64, Fail>
    requires { IsNameOf J.roll J.clients J.first opened }
{
    let (shared, seats, operator) = match opened.named::<J>(alloc) {
        Ok(named) => named,
        Err(not) => return Err(Fail::new(not.refusal)),
    };
    match Seating::new(alloc, seats, operator) {
        Ok(seats) => put_and_taken(rt, alloc, &shared, &seats, tally),
        Err(refusal) => Err(Fail::new(refusal)),
    }
}

/// How many values client 1 takes until the queue is empty.
fn taken<J: Naming, R: Wait>(rt: &R, desk: &mut BrokerDesk<'_, J>) -> Result<u64, Fail> {
    for count in 0..=u64::from(RECORDS) {
        let take = Request::Take {
            client: 1,
            queue: Name::make(b"a").ok(),
            number: None,
        };
        match desk.answer(rt, take) {
            Answer::Reply(Reply::Got(_)) => {}
            Answer::Reply(Reply::Empty) => return Ok(count),
            _ => return Err(Fail::new("another answer")),
        }
    }
    Err(Fail::new("more values than there may be"))
}

/// How many values the queue has is how many were told Done. Whether a connection found the seat in use.
fn is_in_use<R: Abort>(rt: &R, tally: &Tally, values: u64) -> Result<bool, Fail> {
    let done = tally.done.load(Ordering::SeqCst);
    let busy = tally.busy.load(Ordering::SeqCst);
    assert_eq!(rt; tally.other.load(Ordering::SeqCst), 0, "other answers");
    assert_eq!(rt; done.saturating_add(busy), 4_000, "answers");
    assert_eq!(rt; values, done, "values");
    Ok(busy > 0)
}

/// All connections put at once in a new broker. Whether one of them found the seat in use.
fn is_found_in_use<R: Threads + Wait + Clock + Abort + Sync>(
    rt: &R,
    alloc: Global,
) -> Result<bool, Fail> {
    let tally = Tally {
        there: AtomicU64::new(0),
        done: AtomicU64::new(0),
        busy: AtomicU64::new(0),
        other: AtomicU64::new(0),
    };
    let session = Session::open(opened(alloc, 2, RECORDS, None)?);
    let Ok(opened) = Opened::new(alloc, session) else {
        return Err(Fail::new("it is in use"));
    };
    let values = shared_by_all::<Brand, _>(rt, alloc, opened, &tally)?;
    is_in_use(rt, &tally, values)
}

#[test]
fn a_seat_is_used_by_one_connection_at_a_time(rt: HostRuntime) -> Result<(), Fail> {
    for _ in 0..ROUNDS {
        if is_found_in_use(&rt, rt.alloc())? {
            return Ok(());
        }
    }
    Err(Fail::new("no connection found the seat in use"))
}
