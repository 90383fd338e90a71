//! Waiting for a log that another server has. Nothing is safe by it: whoever takes a log may do so at any time.

use crate::Fault;
use etcd_log::{Exchange, ask_tail};
use etcd_net::{is_place, is_reached};
use etcd_text::tail_in;
use journal_store::Fault as Unused;
use options::Taking;
use std::str;
use std::thread::sleep;
use std::time::Duration;
use words::Refusal;

/// How long it rests before it looks again whether the server that has the log is there.
const LOOK_MILLIS: u64 = 500;

/// How many looks in a row have to be in vain before that one is taken to be gone.
const VAIN_LOOKS: u32 = 3;

/// Where an owner of this name is to be found, if anywhere: its name is that place, a slash and what was drawn.
fn place_of(owner: &[u8]) -> Option<&str> {
    let text = str::from_utf8(owner).ok()?;
    let (place, _drawn) = text.split_once('/')?;
    if is_place(place) { Some(place) } else { None }
}

/// Where the owner of the log is to be found, if it has one who is.
fn owner_of<X: Exchange>(rt: &HostRuntime, exchange: &mut X) -> Result<Option<String>, Fault> {
    let Some(text) = ask_tail(exchange)? else {
        return Ok(None);
    };
    let Some(tail) = tail_in(&text) else {
        return Err(Fault::BadLog);
    };
    let Some(place) = place_of(tail.owner) else {
        return Ok(None);
    };
    match place.to_string(rt.alloc()) {
        Ok(place) => Ok(Some(place)),
        Err(_) => Err(Fault::Refused(Refusal::NoMemory)),
    }
}

/// Says which server has the log.
fn tell_owner(rt: &HostRuntime, place: &str) -> Result<(), Fault> {
    match eprintln!(rt; "pqd: {place} serves") {
        Ok(()) => Ok(()),
        Err(_) => Err(Fault::Refused(Refusal::WriteFailed)),
    }
}

/// Refuses where the server that has the log takes connections (InUse).
fn find_free<X: Exchange>(rt: &HostRuntime, exchange: &mut X) -> Result<(), Fault> {
    let Some(place) = owner_of(rt, exchange)? else {
        return Ok(());
    };
    if !is_reached(rt, rt.alloc(), &place) {
        return Ok(());
    }
    tell_owner(rt, &place)?;
    Err(Fault::Journal(Unused::InUse))
}

/// Waits until the server that has the log takes no connections, and says whose it is whenever that changes.
fn stand_by<X: Exchange>(rt: &HostRuntime, exchange: &mut X) -> Result<(), Fault> {
    let mut told = String::new(rt.alloc());
    let mut vain: u32 = 0;
    for _ in 0..u64::MAX {
        let Some(place) = owner_of(rt, exchange)? else {
            return Ok(());
        };
        if told != place {
            tell_owner(rt, &place)?;
            vain = 0;
        }
        told = place;
        vain = if is_reached(rt, rt.alloc(), &told) {
            0
        } else {
            vain.saturating_add(1)
        };
        if vain >= VAIN_LOOKS {
            return Ok(());
        }
        sleep(rt, Duration::from_millis(LOOK_MILLIS));
    }
    Ok(())
}

/// Waits until the log may be taken that is to be taken so.
pub(crate) fn wait_for<X: Exchange>(
    rt: &HostRuntime,
    exchange: &mut X,
    taking: Taking,
) -> Result<(), Fault> {
    match taking {
        Taking::AtOnce => Ok(()),
        Taking::IfFree => find_free(rt, exchange),
        Taking::OnceFree => stand_by(rt, exchange),
    }
}
