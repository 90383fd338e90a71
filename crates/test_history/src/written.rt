//! Histories written out, with the orders that explain them and some that do not: what the definition means.

use crate::rows::{Case, HISTORIES, Left, Placed, REPLAYED, REPLAYS, Seen, Telling};
use history::{Entry, Event, Events, History, Order, Sequence, check, replay};
use std::alloc::{AllocError, Global};
use std::test::Fail;
use test_support::{are_items, item};
use words::{Call, Client, Outcome, Row, Told, Value, Verdict};

impl Telling {
    fn told(self) -> Told {
        let verdict = |number, outcome| Told::Verdict(Verdict { number, outcome });
        match self {
            Telling::Nothing => Told::None,
            Telling::NotTaken(number) => verdict(number, Outcome::NotTaken),
            Telling::Taken(number, said) => verdict(number, Outcome::Taken(said.reply())),
            Telling::NoCall => Told::Row(Row::NoCall),
            Telling::Open => Told::Row(Row::Open),
            Telling::Empty => Told::Row(Row::Empty),
            Telling::Got(value) => Told::Row(Row::Got(item(value))),
        }
    }
}

/// What clients 0 and 1 are told; the others are told nothing.
fn told_by(tellings: (Telling, Telling)) -> [Told; 16] {
    let mut told = [Told::None; 16];
    told[0] = tellings.0.told();
    told[1] = tellings.1.told();
    told
}

fn call(client: u8, number: u64, call: Call) -> Event {
    Event::Call {
        client: Client(client),
        number,
        call,
    }
}

impl Seen {
    fn event(&self) -> Event {
        match *self {
            Seen::Put(client, number, value) => call(client, number, Call::Enq(item(value))),
            Seen::Take(client, number) => call(client, number, Call::Deq),
            Seen::Return(client, said) => Event::Return {
                client: Client(client),
                reply: said.reply(),
            },
            Seen::Crash => Event::Crash,
            Seen::Ready(zero, one) => Event::Ready {
                told: told_by((zero, one)),
            },
        }
    }
}

fn history(
    alloc: Global,
    base: &[u32],
    first: Telling,
    seen: &[Seen],
) -> Result<History, AllocError> {
    let mut values: Vec<Value> = Vec::new(alloc);
    for value in base {
        values.push(item(*value))?;
    }
    let mut events = Events::new(alloc);
    for one in seen {
        events.reserve(1)?;
        events.push(one.event());
    }
    Ok(History {
        base: Sequence::from_vec(values),
        told: told_by((first, Telling::Nothing)),
        events,
    })
}

fn order(alloc: Global, placed: &[Placed]) -> Result<Order, AllocError> {
    let mut entries = Vec::new(alloc);
    for (place, said) in placed {
        entries.push(Entry {
            place: *place,
            reply: said.reply(),
        })?;
    }
    Ok(Order {
        entries: Sequence::from_vec(entries),
    })
}

/// Whether the checker answers this of each order.
fn are_all(
    alloc: Global,
    history: &History,
    orders: &[&[Placed]],
    wanted: bool,
) -> Result<bool, AllocError> {
    let mut all = true;
    for placed in orders {
        let order = order(alloc, placed)?;
        all &= check(history, &order) == wanted;
    }
    Ok(all)
}

/// Whether each order that is right explains the history, and none that is wrong does.
fn is_judged(alloc: Global, case: &Case) -> Result<bool, AllocError> {
    let history = history(alloc, case.base, case.first, case.seen)?;
    Ok(are_all(alloc, &history, case.right, true)? && are_all(alloc, &history, case.wrong, false)?)
}

#[test]
fn orders_explain_histories(rt: HostRuntime) -> Result<(), Fail> {
    for case in &HISTORIES {
        assert!(rt; is_judged(rt.alloc(), case)?, "{}", case.what);
    }
    Ok(())
}

/// Whether the replay of an order leaves this.
fn is_left(alloc: Global, history: &History, placed: &[Placed], left: &Left) -> Result<bool, Fail> {
    let order = order(alloc, placed)?;
    let replayed = replay(alloc, history, &order)?;
    Ok(match (&replayed, left) {
        (Ok(values), Left::Values(wanted)) => are_items(values.as_slice(), wanted),
        (Err(entry), Left::WrongAt(wanted)) => entry == wanted,
        (Ok(_), Left::WrongAt(_)) | (Err(_), Left::Values(_)) => false,
    })
}

#[test]
fn a_replay_leaves_the_queue(rt: HostRuntime) -> Result<(), Fail> {
    let history = history(rt.alloc(), &[8, 9], Telling::Nothing, &REPLAYED)?;
    for (placed, left) in &REPLAYS {
        assert!(rt; is_left(rt.alloc(), &history, placed, left)?);
    }
    Ok(())
}
