//! Where a worker is handed its connections.

use crossbeam_channel::{Receiver, Sender, bounded};
use log::{Log, warn};
use mio::{Events, Poll, Token, Waker};
use std::alloc::{AllocError, Global};
use std::io;
use std::net::{Net, TcpStream};
use std::sync::Wait;
use std::sync::atomic::{AtomicU64, AtomicUsize, Ordering};

/// How many events a worker takes at once.
const EVENTS: usize = 128;

/// How many connections wait in an inbox at most.
const WAITING: usize = 64;

/// The token of what wakes a worker. The connection in a place has the place's number and one.
pub(crate) const WAKES: usize = 0;

/// Where a worker is handed its connections.
#[derive(Drop)]
pub(crate) struct Inbox {
    given: Sender<TcpStream>,
    waker: Waker,
    /// How many connections the worker was given and has not closed.
    open: AtomicUsize,
    /// How many replies the worker has sent.
    replies: AtomicU64,
}

/// Where the worker of an inbox waits, and finds its connections.
#[derive(Drop)]
pub(crate) struct Post {
    pub(crate) poll: Poll,
    pub(crate) events: Events,
    pub(crate) taken: Receiver<TcpStream>,
}

impl Inbox {
    /// An inbox, and its worker's post. It fails where the system has no descriptors for it, or there is no memory.
    pub(crate) fn open<R: Net>(rt: &R, alloc: Global) -> Result<(Inbox, Post), io::Error> {
        let poll = Poll::new(rt)?;
        let waker = Waker::new(poll.registry(), Token(WAKES))?;
        let events = Events::with_capacity(alloc, EVENTS)?;
        let (given, taken) = bounded(alloc, WAITING)?;
        let inbox = Inbox {
            given,
            waker,
            open: AtomicUsize::new(0),
            replies: AtomicU64::new(0),
        };
        Ok((
            inbox,
            Post {
                poll,
                events,
                taken,
            },
        ))
    }

    /// How many connections are open there.
    pub(crate) fn count(&self) -> usize {
        self.open.load(Ordering::SeqCst)
    }

    /// How many replies were sent there.
    pub(crate) fn replies(&self) -> u64 {
        self.replies.load(Ordering::SeqCst)
    }

    /// The worker has sent so many replies more.
    pub(crate) fn replied(&self, count: u64) {
        self.replies.fetch_add(count, Ordering::SeqCst);
    }

    /// Hands a connection to the worker.
    pub(crate) fn give<R: Wait + Log>(&self, rt: &R, connection: TcpStream) {
        self.open.fetch_add(1, Ordering::SeqCst);
        if self.given.send(rt, connection).is_err() {
            warn!(rt; "a connection is not served");
        }
        self.wake(rt);
    }

    /// Wakes the worker, to look for what is new.
    pub(crate) fn wake<R: Log>(&self, rt: &R) {
        if let Err(error) = self.waker.wake() {
            warn!(rt; "a worker is not woken: {error}");
        }
    }

    /// The worker has closed a connection.
    pub(crate) fn closed(&self) {
        self.open.fetch_sub(1, Ordering::SeqCst);
    }
}
