//! Whether seats' lists fit the histories of a session that was taken back.

use arena::{SLOTS, SlotId};
use directory::Name;
use history::{Event, Events};
use session::Session;
use std::alloc::{AllocError, Global};
use words::{Client, Refusal};
use workers::{End, Entry, Naming, Seat};

/// How many events the history of each slot has; 0 where the slot is closed.
pub(crate) type Lengths = [usize; SLOTS];

/// How long all histories are.
pub(crate) fn lengths(session: &Session) -> Lengths {
    let mut lengths = [0; SLOTS];
    for slot in 0..SLOTS {
        lengths[slot] = events_of(session, SlotId(slot as u8)).map_or(0, |events| events.len());
    }
    lengths
}

/// A list that no seat holds.
fn copy(alloc: Global, list: &[Entry]) -> Result<Vec<Entry>, AllocError> {
    let mut copy = Vec::new(alloc);
    for entry in list {
        copy.push(*entry)?;
    }
    Ok(copy)
}

/// The lists of all seats.
pub(crate) fn copied<J: Naming>(
    alloc: Global,
    seats: &[Seat<J>],
) -> Result<Vec<Vec<Entry>>, AllocError> {
    let mut lists = Vec::new(alloc);
    for seat in seats {
        lists.push(copy(alloc, seat.list.as_slice())?)?;
    }
    Ok(lists)
}

/// Writes what became of a client's last call, where that was open.
fn end_last(calls: &mut Vec<Entry>, end: End) {
    if let Some(last) = calls.last_mut() {
        if last.end == End::Open {
            last.end = end;
        }
    }
}

/// The client's calls that a history has from this place on, as a seat remembers them.
fn remembered(
    alloc: Global,
    events: Option<&Events>,
    client: Client,
    queue: SlotId,
    name: Option<Name>,
    since: usize,
) -> Result<Vec<Entry>, AllocError> {
    let mut calls = Vec::new(alloc);
    let (Some(events), Some(name)) = (events, name) else {
        return Ok(calls);
    };
    for place in 0..events.len() {
        match events.at(place) {
            Event::Call {
                client: who,
                number,
                call,
            } => {
                if who == client && place >= since {
                    calls.push(Entry {
                        name,
                        queue,
                        number: if number == 0 { None } else { Some(number) },
                        call,
                        place: Some(place),
                        end: End::Open,
                    })?;
                }
            }
            Event::Return { client: who, reply } => {
                if who == client {
                    end_last(&mut calls, End::Answered(reply));
                }
            }
            Event::Crash => end_last(&mut calls, End::Interrupted),
            Event::Ready { .. } => {}
        }
    }
    Ok(calls)
}

/// The calls of a list that ran in one queue; nothing, where one that did not run has no number or no answer.
fn ran(alloc: Global, list: &[Entry], queue: SlotId) -> Result<Option<Vec<Entry>>, AllocError> {
    let mut calls = Vec::new(alloc);
    for entry in list.iter().filter(|entry| entry.queue == queue) {
        if entry.place.is_some() {
            calls.push(*entry)?;
        } else if entry.number.is_none() || !matches!(entry.end, End::Answered(_)) {
            return Ok(None);
        }
    }
    Ok(Some(calls))
}

/// What happened in the queue of a slot; in a closed slot, nothing.
fn events_of(session: &Session, queue: SlotId) -> Option<&Events> {
    match session.broker().history(queue) {
        Ok(history) => Some(&history.events),
        Err(_) => None,
    }
}

/// The name of the queue in a slot, if it has one.
fn name_of(session: &Session, slot: usize) -> Option<Name> {
    let place = session.broker().list().ok()?.get(slot)?;
    place.map(|queue| queue.name)
}

/// Whether a client's list has just what the histories of all queues have of it, each from its place on.
fn fits(
    alloc: Global,
    session: &Session,
    client: Client,
    list: &[Entry],
    since: &Lengths,
) -> Result<bool, AllocError> {
    let mut right = true;
    for slot in 0..SLOTS {
        let queue = SlotId(slot as u8);
        let events = events_of(session, queue);
        let name = name_of(session, slot);
        let calls = remembered(alloc, events, client, queue, name, since[slot])?;
        right &= match ran(alloc, list, queue)? {
            Some(ran) => ran.as_slice() == calls.as_slice(),
            None => false,
        };
    }
    Ok(right)
}

/// Whether each client's list is what the histories have of it, each from its place on.
pub(crate) fn are_accounted_for(
    alloc: Global,
    session: &Session,
    lists: &[Vec<Entry>],
    since: &Lengths,
) -> Result<bool, AllocError> {
    let (mut client, mut right) = (0u8, true);
    for list in lists {
        right &= fits(alloc, session, Client(client), list.as_slice(), since)?;
        client = client.saturating_add(1);
    }
    Ok(right)
}
