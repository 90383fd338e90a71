//! Creations of queues beside another thread's and crashes.

ghost use Rattle.workers.specs.Opening.{IsNameOf};

use crate::gates::{TURNS, rest, tell, wait_for};
use crate::lists::{Lengths, lengths};
use crate::staging::{Played, begun, ended, opened};
use arena::SlotId;
use directory::{Name, Places};
use std::alloc::Global;
use std::marker::Brand;
use std::process::Abort;
use std::sync::Wait;
use std::sync::atomic::{AtomicU64, Ordering};
use std::test::*;
use std::thread::{Threads, join};
use std::time::Clock;
use test_support::sessions::with_queue;
use words::{Kind, Refusal};
use workers::{Created, Naming, Opened, Operator, Shared};

/// The slot of the queue whose name is this letter, if it is there.
fn found<J: Naming, R: Wait>(
    rt: &R,
    shared: &Shared<J>,
    letter: u8,
) -> Result<Option<SlotId>, Refusal> {
    shared.find(rt, &Name::make(&[letter])?)
}

/// How many queues there are.
fn count(places: &Places) -> usize {
    places.iter().filter(|place| place.is_some()).count()
}

/// The names, of a letter each, that a thread gives to new queues. Two threads have one name more than there are slots.
const FIRST: [u8; 4] = [b'b', b'c', b'd', b'e'];

const SECOND: [u8; 4] = [b'f', b'g', b'h', b'i'];

/// What the creation of a queue came to at last: it was sent again as long as a crash, a recovery or another creation
/// came between.
fn created<J: Naming, R: Wait + Clock>(rt: &R, shared: &Shared<J>, letter: u8) -> Option<Created> {
    for turn in 0..TURNS {
        let (_mark, created) = shared.create(rt, &[letter], Kind::Log, shared.mark_now(rt));
        match created {
            Created::Interrupted | Created::Refused(Refusal::NotReady | Refusal::Busy) => {
                if turn % 4 == 3 {
                    rest(rt, 1);
                }
            }
            Created::Queue(_) | Created::Refused(_) => return Some(created),
        }
    }
    None
}

/// What the creations of some queues came to.
fn all_created<J: Naming, R: Wait + Clock>(
    rt: &R,
    shared: &Shared<J>,
    letters: &[u8; 4],
) -> [Option<Created>; 4] {
    let mut made = [None; 4];
    for place in 0..4 {
        made[place] = created(rt, shared, letters[place]);
    }
    made
}

/// What the threads of a scene tell one another.
#[derive(Drop)]
struct Signals {
    /// Whether the first crash came.
    begun: AtomicU64,
    /// How many threads made their queues.
    over: AtomicU64,
}

/// What the creations of some queues came to, from the first crash on.
fn created_beside<J: Naming, R: Wait + Clock>(
    rt: &R,
    shared: &Shared<J>,
    signals: &Signals,
    letters: &[u8; 4],
) -> [Option<Created>; 4] {
    wait_for(rt, &signals.begun);
    let made = all_created(rt, shared, letters);
    signals.over.fetch_add(1, Ordering::SeqCst);
    made
}

/// The system stops and recovers again and again, until both threads have made their queues; whether it always could.
/// Mostly it stops again at once, so that few creations come to their end.
fn restarts<J: Naming, R: Wait + Clock>(
    rt: &R,
    shared: &Shared<J>,
    operator: Operator<J>,
    signals: &Signals,
) -> bool {
    let (mut right, mut operator) = (true, operator);
    for turn in 0..TURNS {
        if signals.over.load(Ordering::SeqCst) == 2 {
            return right;
        }
        let (after, mark, stopped) = shared.crash(rt, operator, shared.mark_now(rt));
        operator = after;
        right &= stopped.is_ok();
        tell(&signals.begun);
        right &= shared.recover(rt, mark).1 == Ok(());
        if turn % 64 == 63 {
            rest(rt, 1);
        }
    }
    false
}

/// Whether what a creation came to is so: a queue that was created is in its slot, one that was there is found, and
/// where the directory is full there is none.
fn is_so<J: Naming, R: Wait>(
    rt: &R,
    shared: &Shared<J>,
    letter: u8,
    made: Option<Created>,
) -> Result<bool, Refusal> {
    let found = found(rt, shared, letter)?;
    Ok(match made {
        Some(Created::Queue(slot)) => found == Some(slot),
        Some(Created::Refused(Refusal::Exists)) => found.is_some(),
        Some(Created::Refused(Refusal::DirectoryFull)) => found.is_none(),
        Some(Created::Refused(_) | Created::Interrupted) | None => false,
    })
}

/// Whether all that creations came to is so, and all eight slots have a queue.
fn are_so<J: Naming, R: Wait>(
    rt: &R,
    shared: &Shared<J>,
    first: &[Option<Created>; 4],
    second: &[Option<Created>; 4],
) -> Result<bool, Refusal> {
    let mut right = count(&shared.list(rt, shared.mark_now(rt)).1?) == 8;
    for place in 0..4 {
        right &= is_so(rt, shared, FIRST[place], first[place])?;
        right &= is_so(rt, shared, SECOND[place], second[place])?;
    }
    Ok(right)
}

/// Two threads create queues, while a third crashes the broker and recovers it. Whether it always could, and what they
/// came to is so.
fn created_by_two<J: Naming + Send + Sync, R: Threads + Wait + Clock + Sync>(
    rt: &R,
    shared: &Shared<J>,
    operator: Operator<J>,
) -> Result<bool, Refusal> {
    let signals = Signals {
        begun: AtomicU64::new(0),
        over: AtomicU64::new(0),
    };
    let ((first, second), right) = join(
        rt,
        || {
            join(
                rt,
                || created_beside(rt, shared, &signals, &FIRST),
                || created_beside(rt, shared, &signals, &SECOND),
            )
        },
        || restarts(rt, shared, operator, &signals),
    );
    Ok(right && are_so(rt, shared, &first, &second)?)
}

/// That on a shared session.
fn created_beside_crashes<J: Naming + Send + Sync, R: Threads + Wait + Clock + Abort + Sync>(
    rt: &R,
    alloc: Global,
    opened: Opened,
    since: &Lengths,
) -> Result<Played, Fail>
    requires { IsNameOf J.roll J.clients J.first opened }
{
    let (shared, seats, operator) = begun::<J>(alloc, opened)?;
    assert!(rt; created_by_two(rt, &shared, operator)?, "creations");
    ended(alloc, shared, seats, since)
}

#[test]
fn creations_are_whole_or_not_at_all_beside_crashes(rt: HostRuntime) -> Result<(), Fail> {
    let alloc = rt.alloc();
    let session = with_queue(alloc, Kind::Durable, 1, 1)?;
    let since = lengths(&session);
    let opened = opened(alloc, session)?;
    created_beside_crashes::<Brand, _>(&rt, alloc, opened, &since)?;
    Ok(())
}
