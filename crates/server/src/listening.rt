//! Serving connections.

ghost use Rattle.std.specs.Prelude.{◌≡◌, max, IfErr, IfOk, length, vec_len};
ghost use Rattle.session.specs.Sessions.{IsUncalled};
ghost use Rattle.workers.specs.Opening.{IsNameOf};
ghost use Rattle.serving.specs.Image.{IsBusyOrNoMemory, IsOpenedOver};
ghost use Rattle.server.specs.Worked.{AreKnown, IsImageServed, all_told};

use crate::connections::{BrokerWorker, Desks, InMemory, Worker};
use crate::ending::{image_left, shareable, shared_seats};
use crate::inbox::{Inbox, Post};
use crate::rounds::{Serving, Station, serve_connections};
use crate::seen::Seen;
use crate::stopping::Stopping;
use crate::telling::accept_beside;
use door::Secret;
use log::{Log, warn};
use named::Broker;
use seating::Seating;
use std::alloc::{AllocError, Global};
use std::io::{self, Write};
use std::marker::Brand;
use std::net::{Net, TcpListener, TcpStream};
use std::sync::Wait;
use std::thread::{Threads, join, map_vec, sleep};
use std::time::{Clock, Duration};
use words::Refusal;
use workers::{Marked, Naming, Opened, Shared};

/// How long the thread that takes connections rests after one that it could not take. Where there are no descriptors
/// left, each fails at once.
const REST_MILLIS: u64 = 10;

/// How long a connection that wakes this thread waits to be taken.
const WAKE_SECONDS: u64 = 1;

/// How connections are served.
#[derive(Clone, Copy)]
pub struct Service {
    /// How many threads serve, each the connections that it was given. One serves at least.
    pub workers: u32,
    /// Whether a queue begins in fresh records for a put or a take that finds no room, where that is worth it.
    pub renew: bool,
}

/// Where connections come in, and which are served.
#[derive(Clone, Copy)]
pub struct Entrance<'a> {
    pub listener: &'a TcpListener,
    /// How many are open at most.
    pub connections: u32,
    /// For how many seconds no line comes over one before it is closed, if any is closed so.
    pub idle: Option<u32>,
    /// What the first line of each has to say, if anything.
    pub secret: Option<&'a Secret>,
    /// Where others come in, who are told the broker's numbers, if any do.
    pub metrics: Option<&'a TcpListener>,
}

/// What a connection is told that is one too many.
const FULL: &[u8] = b"{\"error\":31,\"name\":\"Full\"}\n";

/// Tells a connection that there are too many, and closes it.
fn refuse<R: Log>(rt: &R, mut connection: TcpStream) {
    if connection.write(FULL).is_err() {
        warn!(rt; "a connection is closed unserved");
    }
}

/// Hands a connection to the worker that has the fewest, or refuses it where as many are open as may be.
fn hand_over<R: Wait + Log>(rt: &R, inboxes: &[Inbox], most: usize, connection: TcpStream) {
    let mut open: usize = 0;
    let mut least = None;
    for inbox in inboxes {
        let count = inbox.count();
        open = open.saturating_add(count);
        least = match least {
            Some((few, other)) if few <= count => Some((few, other)),
            _ => Some((count, inbox)),
        };
    }
    // Otherwise a reply would wait for the next one, to go out with it.
    if connection.set_nodelay(true).is_err() {
        warn!(rt; "a connection delays its replies");
    }
    match least {
        Some((_, inbox)) if open < most && connection.set_nonblocking(true).is_ok() => inbox.give(
            rt, connection,
        ),
        _ => refuse(rt, connection),
    }
}

/// Takes connections and hands them to the workers, until no more are to be taken.
fn accept<R: Wait + Clock + Log>(
    rt: &R,
    entrance: &Entrance<'_>,
    stopping: &Stopping,
    inboxes: &[Inbox],
) {
    let most = entrance.connections as usize;
    let mut failing = false;
    for connection in entrance.listener.incoming() {
        if stopping.is_said() {
            return;
        }
        match connection {
            Ok(connection) => {
                failing = false;
                hand_over(rt, inboxes, most, connection);
            }
            Err(error) => {
                // Told each time, it would fill a disk with lines as long as nothing can be taken.
                if !failing {
                    warn!(rt; "a connection could not be taken: {error}");
                }
                failing = true;
                sleep(rt, Duration::from_millis(REST_MILLIS));
            }
        }
    }
}

/// The same, and says at the end that no more are taken.
pub(crate) fn accept_to_end<R: Wait + Clock + Log>(
    rt: &R,
    entrance: &Entrance<'_>,
    stopping: &Stopping,
    inboxes: &[Inbox],
) {
    accept(rt, entrance, stopping, inboxes);
    stopping.close();
    for inbox in inboxes {
        inbox.wake(rt);
    }
}

/// Wakes the thread that takes connections from a listener, by one more.
fn wake<R: Net + Log>(rt: &R, listener: &TcpListener) {
    let Ok(address) = listener.local_addr() else {
        warn!(rt; "the next connection is waited for");
        return;
    };
    // Where nobody takes it in time, others are waiting to be taken, and these wake the thread as well.
    let second = Duration::from_secs(WAKE_SECONDS);
    if TcpStream::connect_timeout(rt, &address, second).is_err() {
        warn!(rt; "the next connection is waited for");
    }
}

/// Wakes the threads that take connections once no more are to be taken, by a connection to their own ports.
fn wake_at_stop<R: Wait + Net + Log>(rt: &R, stopping: &Stopping, entrance: &Entrance<'_>) {
    if !stopping.is_told(rt) {
        return;
    }
    wake(rt, entrance.listener);
    if let Some(metrics) = entrance.metrics {
        wake(rt, metrics);
    }
}

/// The workers serve the connections that are taken, until no more are, and are answered; that they have is said. At an
/// `Err` there was no memory for their threads.
fn serve_all<W: Worker + Send + Drop, D: Desks<W> + Sync, R: Threads + Wait + Clock + Log + Sync>(
    rt: &R,
    alloc: Global,
    serving: &Serving<'_, '_, D>,
    stations: Vec<Station<'_, W>>,
) -> Result<Vec<W>, AllocError>
    ensures { IfOk result (λ workers. vec_len workers ≡ vec_len stations.entry) }
{
    let workers = map_vec(
        rt,
        stations,
        &|station: Station<'_, W>| { serve_connections(rt, alloc, serving, station) },
    );
    serving.stopping.end();
    workers
}

/// The same, and beside them it is seen to that what they do lasts.
fn serve_keeping<
    W: Worker + Send + Drop,
    D: Desks<W> + Sync,
    R: Threads + Wait + Clock + Log + Sync,
>(
    rt: &R,
    alloc: Global,
    serving: &Serving<'_, '_, D>,
    stations: Vec<Station<'_, W>>,
) -> Result<Vec<W>, AllocError>
    ensures { IfOk result (λ workers. vec_len workers ≡ vec_len stations.entry) }
{
    let (worked, ()) = join(
        rt,
        || serve_all(rt, alloc, serving, stations),
        || serving.desks.keep(rt),
    );
    worked
}

/// The same, and beside them this thread waits for a stop.
fn serve_until_stopped<
    W: Worker + Send + Drop,
    D: Desks<W> + Sync,
    R: Threads + Wait + Net + Clock + Log + Sync,
>(
    rt: &R,
    alloc: Global,
    serving: &Serving<'_, '_, D>,
    stations: Vec<Station<'_, W>>,
) -> Result<Vec<W>, AllocError>
    ensures { IfOk result (λ workers. vec_len workers ≡ vec_len stations.entry) }
{
    let (worked, ()) = join(
        rt,
        || serve_keeping(rt, alloc, serving, stations),
        || wake_at_stop(rt, serving.stopping, &serving.entrance),
    );
    worked
}

/// An inbox for each of so many workers, and their posts.
fn open_all<R: Net>(
    rt: &R,
    alloc: Global,
    workers: u32,
) -> Result<(Vec<Inbox>, Vec<Post>), io::Error>
    ensures inboxes { IfOk result (λ both. vec_len both.0 ≡ workers) }
    ensures posts { IfOk result (λ both. vec_len both.1 ≡ workers) }
{
    let mut inboxes = Vec::new(alloc);
    let mut posts = Vec::new(alloc);
    for _ in 0..workers {
        let (inbox, post) = Inbox::open(rt, alloc)?;
        inboxes.push(inbox)?;
        posts.push(post)?;
    }
    Ok((inboxes, posts))
}

/// A worker at each post.
fn stations_of<'a, W: Worker + Drop, D: Desks<W>, R: Wait>(
    rt: &R,
    alloc: Global,
    desks: &D,
    inboxes: &'a [Inbox],
    posts: Vec<Post>,
) -> Result<Vec<Station<'a, W>>, AllocError>
    requires { length inboxes.now ≡ vec_len posts }
    ensures { IfOk result (λ stations. vec_len stations ≡ vec_len posts) }
{
    let mut stations = Vec::new(alloc);
    for post in posts {
        let inbox = &inboxes[stations.len()];
        let worker = desks.worker(rt, alloc)?;
        stations.push(Station {
            worker,
            inbox,
            post,
        })?;
    }
    Ok(stations)
}

/// Takes connections for so many workers, until a stop is accepted, or what was done lasts no more, and all connections
/// have ended. It answers those workers. At an `Err` there was no memory, or the system had no descriptors to wait with.
pub(crate) fn work<
    W: Worker + Send + Drop,
    D: Desks<W> + Seen + Sync,
    R: Threads + Wait + Net + Clock + Log + Sync,
>(
    rt: &R,
    alloc: Global,
    desks: &D,
    stopping: &Stopping,
    workers: u32,
    entrance: &Entrance<'_>,
) -> Result<Vec<W>, AllocError>
    ensures { IfOk result (λ worked. vec_len worked ≡ workers) }
{
    let Ok((inboxes, posts)) = open_all(rt, alloc, workers) else {
        return Err(AllocError);
    };
    let stations = stations_of(rt, alloc, desks, &inboxes, posts)?;
    let serving = Serving {
        desks,
        stopping,
        entrance: *entrance,
    };
    let ((), worked) = join(
        rt,
        || accept_beside(rt, alloc, &serving, &inboxes),
        || serve_until_stopped(rt, alloc, &serving, stations),
    );
    worked
}

/// The last mark of each worker.
fn marks_of<J: Naming>(
    alloc: Global,
    workers: Vec<BrokerWorker<'_, J>>,
) -> Result<Vec<Marked<J>>, AllocError>
    ensures { IfOk result (λ marks. AreKnown all_told J.clients J.first (vec_len workers.entry) marks.items) }
{
    let mut marks = Vec::new(alloc);
    marks.reserve(workers.len())?;
    for worker in workers {
        marks.push_reserved(worker.into_mark());
    }
    Ok(marks)
}

/// Serves connections at these seats, to the end, by so many workers, and answers their marks.
fn serve_seats<J: Naming + Send + Sync, R: Threads + Wait + Net + Clock + Log + Sync>(
    rt: &R,
    alloc: Global,
    shared: &Shared<J>,
    seats: &Seating<J>,
    workers: u32,
    entrance: &Entrance<'_>,
) -> Result<Vec<Marked<J>>, AllocError>
    ensures { IfOk result (λ marks. AreKnown all_told J.clients J.first workers marks.items) }
{
    let stopping = Stopping::new(alloc)?;
    let desks = InMemory {
        shared,
        seats,
        stopping: &stopping,
    };
    let workers = work(rt, alloc, &desks, &stopping, workers, entrance)?;
    marks_of(alloc, workers)
}

/// Serves, once the broker has its name.
fn served<J: Naming + Send + Sync, R: Threads + Wait + Net + Clock + Log + Sync>(
    rt: &R,
    alloc: Global,
    opened: Opened,
    service: Service,
    entrance: &Entrance<'_>,
) -> Result<Vec<u8>, Refusal>
    requires name { IsNameOf J.roll J.clients J.first opened }
    requires opened { IsOpenedOver J.first.broker J.first }
    ensures image { IfOk result (λ bytes. IsImageServed J.first.broker (max service.workers 1) bytes.items) }
    ensures errors { IfErr result IsBusyOrNoMemory }
{
    let (shared, seats) = shared_seats::<J>(alloc, opened, service.renew)?;
    let workers = service.workers.max(1);
    match serve_seats(rt, alloc, &shared, &seats, workers, entrance) {
        Ok(marks) => image_left(alloc, shared, seats, workers, marks),
        Err(_) => Err(Refusal::NoMemory),
    }
}

/// Serves the connections of an entrance by worker threads, until a stop is accepted and all connections have ended; it
/// answers the image of the broker as it is then. Each connection is given to the worker that has the fewest; one too many
/// is told Full, and closed. Those that come after an accepted stop are closed unserved. It is refused before
/// any is taken where a call or a creation is under way (Busy), and for want of memory, or of descriptors to wait with
/// (NoMemory); for want of memory also after all have ended. Where the threads to take connections and to serve them
/// cannot be made, it does not return. Who connects for numbers is answered by a thread of its own meanwhile.
pub fn net<R: Threads + Wait + Net + Clock + Log + Sync>(
    rt: &R,
    alloc: Global,
    broker: Broker,
    service: Service,
    entrance: &Entrance<'_>,
) -> Result<Vec<u8>, Refusal>
    requires { IsUncalled broker }
    // The session whose image is left goes on from what as many workers answered, each request in turn.
    ensures image { IfOk result (λ bytes. IsImageServed broker (max service.workers 1) bytes.items) }
    ensures errors { IfErr result IsBusyOrNoMemory }
{
    let opened = shareable(alloc, broker)?;
    served::<Brand, R>(rt, alloc, opened, service, entrance)
}
