//! Answering who asks, one connection at a time.

use crate::answers::{Answer, metrics, not_allowed, not_found, page, stats, unread};
use crate::asked::Asked;
use crate::exchange::{Heard, Unanswered, first_server, hear, send};
use gauges::Gauges;
use log::{Log, warn};
use std::alloc::{AllocError, Global};
use std::net::{TcpListener, TcpStream};
use std::sync::Wait;
use std::sync::atomic::{AtomicBool, Ordering};
use std::thread::sleep;
use std::time::{Clock, Duration};

/// For how long a connection may be silent.
const SILENT_SECONDS: u64 = 1;

/// How long it rests after a connection that it could not take.
const REST_MILLIS: u64 = 100;

/// A broker whose numbers are told.
pub trait Watched {
    /// Its numbers, as they are now. At an `Err` there was no memory to count.
    fn gauges<R: Wait + Clock>(&self, rt: &R) -> Result<Gauges, AllocError>;
}

/// The answer to what came over a connection. Numbers are counted where they are asked for.
fn answer_to<W: Watched, R: Wait + Clock>(
    rt: &R,
    alloc: Global,
    watched: &W,
    heard: Heard,
) -> Result<Answer, AllocError> {
    match heard {
        Heard::Asked(Asked::Metrics) => metrics(alloc, &watched.gauges(rt)?),
        Heard::Asked(Asked::Stats) => stats(alloc, &watched.gauges(rt)?),
        Heard::Asked(Asked::Page) => page(alloc),
        Heard::Asked(Asked::Nothing) => not_found(alloc),
        Heard::Asked(Asked::NotAllowed) => not_allowed(alloc),
        Heard::Unread(code) => unread(alloc, code),
    }
}

/// Answers the first request of a connection, and closes it.
fn answer_one<W: Watched, R: Wait + Clock>(
    rt: &R,
    alloc: Global,
    watched: &W,
    mut stream: TcpStream,
) -> Result<(), Unanswered> {
    let most = Some(Duration::from_secs(SILENT_SECONDS));
    if stream.set_read_timeout(most).is_err() || stream.set_write_timeout(most).is_err() {
        return Err(Unanswered);
    }
    let mut server = first_server();
    let heard = hear(alloc, &mut server, &mut stream)?;
    match answer_to(rt, alloc, watched, heard) {
        Ok(answer) => send(alloc, &mut server, &mut stream, &answer),
        Err(_) => Err(Unanswered),
    }
}

/// Answers one request of each connection to the listener, one after the other, until `ended` is said and one more
/// connection has come. A connection that is silent for a second is closed unanswered, and so is one whose request is
/// not whole after a few reads, or that takes no answer.
pub fn answer_scrapes<W: Watched, R: Wait + Clock + Log>(
    rt: &R,
    alloc: Global,
    watched: &W,
    listener: &TcpListener,
    ended: &AtomicBool,
) {
    for connection in listener.incoming() {
        if ended.load(Ordering::SeqCst) {
            return;
        }
        match connection {
            // Whoever is not answered asks again, or has gone.
            Ok(connection) => {
                let _ = answer_one(rt, alloc, watched, connection);
            }
            Err(error) => {
                warn!(rt; "a scrape could not be taken: {error}");
                sleep(rt, Duration::from_millis(REST_MILLIS));
            }
        }
    }
}
