//! Calls that a gate holds back while others are answered: no lock is held between two steps.

ghost use Rattle.std.specs.Prelude.{IfOk};
ghost use Rattle.workers.specs.Opening.{IsNameOf};
ghost use Rattle.workers.specs.Seats.{AreAllInOrder};

use crate::asking::{Hold, held_beside, plain, ran};
use crate::lists::{Lengths, lengths};
use crate::seats::{put_together, taken_apart};
use crate::staging::{Played, begun, ended, opened};
use session::Session;
use std::alloc::Global;
use std::marker::Brand;
use std::process::Abort;
use std::sync::Wait;
use std::test::*;
use std::thread::Threads;
use std::time::Clock;
use test_support::sessions::{A, with_queue};
use test_support::steps::{DURABLE_CLAIMED, DURABLE_LINKED};
use test_support::{Said, Wish, are_items, item};
use words::{Call, Client, Kind};
use workers::{Answer, Naming, Opened, Seat, Shared};

/// In a durable queue that holds some values client 0's call stands still after so many steps until client 1's of the
/// same kind is answered. Which replies both get, and what the queue holds then.
#[derive(Clone, Copy)]
struct Story {
    values: &'static [u32],
    calls: (Wish, Wish),
    steps: u32,
    replies: (Said, Said),
    left: &'static [u32],
}

/// The other helps the enqueue that is linked, and passes by the dequeue that has claimed its node.
static STORIES: [Story; 2] = [
    Story {
        values: &[],
        calls: (Wish::Enq(5), Wish::Enq(7)),
        steps: DURABLE_LINKED,
        replies: (Said::Done, Said::Done),
        left: &[5, 7],
    },
    Story {
        values: &[7, 8],
        calls: (Wish::Deq, Wish::Deq),
        steps: DURABLE_CLAIMED,
        replies: (Said::Got(7), Said::Got(8)),
        left: &[],
    },
];

/// Both calls, of which the held one begins at this place of the history.
fn beside<J: Naming + Send + Sync, R: Threads + Wait + Clock + Abort + Sync>(
    rt: &R,
    alloc: Global,
    shared: &Shared<J>,
    seats: Vec<Seat<J>>,
    place: usize,
    story: Story,
) -> Result<Vec<Seat<J>>, Fail>
    requires { AreAllInOrder (λ seat. seat.client) J.clients seats.items }
    ensures { IfOk result (λ seats. AreAllInOrder (λ seat. seat.client) J.clients seats.items) }
{
    let (zero, one) = taken_apart(seats).ok_or("two seats")?;
    let (ask, other) = (plain(story.calls.0.call())?, plain(story.calls.1.call())?);
    let steps = u64::from(story.steps);
    let hold = Hold { ask, steps };
    let ((zero, first), (one, second), in_time) = held_beside(rt, shared, zero, hold, one, other);
    let (held, whole) = (story.replies.0.reply(), story.replies.1.reply());
    let right = in_time
        && second == Answer::Reply(whole)
        && first == Answer::Reply(held)
        && zero.list.as_slice() == [ran(ask, place, held)].as_slice()
        && one.list.as_slice() == [ran(other, place.saturating_add(1), whole)].as_slice();
    assert!(rt; right, "{first:?}, {second:?}");
    Ok(put_together(alloc, zero, one)?)
}

fn held<J: Naming + Send + Sync, R: Threads + Wait + Clock + Abort + Sync>(
    rt: &R,
    alloc: Global,
    opened: Opened,
    since: &Lengths,
    story: Story,
) -> Result<Played, Fail>
    requires { IsNameOf J.roll J.clients J.first opened }
{
    let (shared, seats, _operator) = begun::<J>(alloc, opened)?;
    let seats = beside(rt, alloc, &shared, seats, since[0], story)?;
    ended(alloc, shared, seats, since)
}

/// That on this session.
fn held_in<R: Threads + Wait + Clock + Abort + Sync>(
    rt: &R,
    alloc: Global,
    session: Session,
    story: Story,
) -> Result<Session, Fail> {
    let since = lengths(&session);
    let opened = opened(alloc, session)?;
    Ok(held::<Brand, R>(rt, alloc, opened, &since, story)?.session)
}

/// A session whose durable queue holds these values.
fn holding(alloc: Global, values: &[u32]) -> Result<Session, Fail> {
    let mut session = with_queue(alloc, Kind::Durable, 2, 3)?;
    for value in values {
        session.plain(Client(0), A, Call::Enq(item(*value)))?;
    }
    Ok(session)
}

#[test]
fn a_call_that_stands_still_holds_nobody_up(rt: HostRuntime) -> Result<(), Fail> {
    for story in STORIES {
        let session = holding(rt.alloc(), story.values)?;
        let session = held_in(&rt, rt.alloc(), session, story)?;
        let left = session.broker().content(A)?;
        assert!(rt; are_items(left.as_slice(), story.left), "{left:?}");
    }
    Ok(())
}
