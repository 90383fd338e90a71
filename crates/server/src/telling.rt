//! Telling the numbers of a broker that is served, beside the thread that takes its connections.

use crate::inbox::Inbox;
use crate::listening::accept_to_end;
use crate::rounds::Serving;
use crate::seen::Seen;
use gauges::Gauges;
use log::Log;
use scraping::{Watched, answer_scrapes};
use std::alloc::{AllocError, Global};
use std::net::TcpListener;
use std::sync::Wait;
use std::thread::{Threads, join};
use std::time::{Clock, Instant};

/// A broker that is served, with those who serve it.
#[derive(Drop)]
struct Watch<'a, D> {
    desks: &'a D,
    inboxes: &'a [Inbox],
    /// When connections were first taken, where the clock told.
    since: Option<Instant>,
}

impl<'a, D: Seen> Watched for Watch<'a, D> {
    fn gauges<R: Wait + Clock>(&self, rt: &R) -> Result<Gauges, AllocError> {
        let broker = self.desks.broker(rt)?;
        let mut connections: u64 = 0;
        let mut replies: u64 = 0;
        for inbox in self.inboxes {
            connections = connections.saturating_add(inbox.count() as u64);
            replies = replies.saturating_add(inbox.replies());
        }
        let uptime = match self.since {
            Some(since) => match since.elapsed(rt) {
                Ok(uptime) => uptime.as_secs(),
                Err(_) => 0,
            },
            None => 0,
        };
        Ok(Gauges {
            uptime,
            connections,
            workers: self.inboxes.len() as u64,
            replies,
            broker,
            journal: self.desks.journal(),
        })
    }
}

/// Answers who asks for numbers, until no more connections are served.
fn tell<D: Seen, R: Wait + Clock + Log>(
    rt: &R,
    alloc: Global,
    serving: &Serving<'_, '_, D>,
    metrics: &TcpListener,
    inboxes: &[Inbox],
) {
    let watch = Watch {
        desks: serving.desks,
        inboxes,
        since: Instant::now(rt).ok(),
    };
    answer_scrapes(rt, alloc, &watch, metrics, serving.stopping.said());
}

/// Takes the connections that are served, as [`accept_to_end`] does, and beside that answers who asks for numbers, until
/// a stop is said and one more has come.
pub(crate) fn accept_beside<D: Seen + Sync, R: Threads + Wait + Clock + Log + Sync>(
    rt: &R,
    alloc: Global,
    serving: &Serving<'_, '_, D>,
    inboxes: &[Inbox],
) {
    let entrance = &serving.entrance;
    let stopping = serving.stopping;
    let Some(metrics) = entrance.metrics else {
        return accept_to_end(rt, entrance, stopping, inboxes);
    };
    let ((), ()) = join(
        rt,
        || tell(rt, alloc, serving, metrics, inboxes),
        || accept_to_end(rt, entrance, stopping, inboxes),
    );
}
