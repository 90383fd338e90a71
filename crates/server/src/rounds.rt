//! Rounds of a worker over its connections: those that are ready have their turns.

ghost use Rattle.std.specs.Prelude.{◌≡◌};

use crate::connections::{Desks, Worker, ended, unserved};
use crate::greeting::{Caller, at_door};
use crate::inbox::{Inbox, Post, WAKES};
use crate::listening::Entrance;
use crate::stopping::Stopping;
use door::{Standing, Welcome};
use engine::Failure;
use log::{Log, warn};
use mio::{Interest, Token};
use sockets::{Connection, Flow, Incoming, Outgoing, Quiet};
use std::alloc::{AllocError, Global};
use std::net::TcpStream;
use std::sync::Wait;
use std::thread::sleep;
use std::time::{Clock, Duration};

/// How long a worker rests that cannot wait for its connections.
const REST_MILLIS: u64 = 10;

/// What the workers share: their desks, whether more connections are taken, and which of them are served.
#[derive(Drop)]
pub(crate) struct Serving<'a, 's, D> {
    pub(crate) desks: &'a D,
    /// Once it is said, connections that are not handed over yet will not be served.
    pub(crate) stopping: &'a Stopping,
    pub(crate) entrance: Entrance<'s>,
}

/// A worker, and where it is handed its connections and waits for them.
#[derive(Drop)]
pub(crate) struct Station<'a, W> {
    pub(crate) worker: W,
    pub(crate) inbox: &'a Inbox,
    pub(crate) post: Post,
}

/// A worker and its connections.
#[derive(Drop)]
struct Round<'a, 's, W> {
    worker: W,
    inbox: &'a Inbox,
    places: Vec<Option<Caller<'s>>>,
    /// Whether any of them is paused: it goes on before the worker waits.
    paused: bool,
    /// Over which of them no line came for long, where such are closed.
    quiet: Option<Quiet>,
}

/// What was kept is sent, and then what comes in is served, if that is welcome; whether it was served.
fn send_and_serve<W: Worker, R: Wait>(
    rt: &R,
    alloc: Global,
    worker: &mut W,
    reader: &mut Incoming<'_>,
    writer: &mut Outgoing<'_>,
    welcome: Option<&Welcome>,
) -> Result<bool, Failure>
    requires reader { reader.old.failures ≡ 0 }
    requires writer { writer.old.failures ≡ 0 }
{
    let Ok(all) = writer.send_kept() else {
        return Err(Failure::WriteFailed);
    };
    let Some(welcome) = welcome else {
        return Ok(false);
    };
    if !all {
        return Ok(false);
    }
    match worker.serve(rt, alloc, welcome, reader, writer) {
        Ok(()) => Ok(true),
        Err(_) if reader.is_between() => Ok(true),
        Err(failure) => Err(failure),
    }
}

/// A connection has its turn, in which it comes to a desk if it is welcome. It is none afterwards if it has ended.
fn turn_of<W: Worker, R: Wait + Log>(
    rt: &R,
    alloc: Global,
    worker: &mut W,
    inbox: &Inbox,
    connection: Connection,
    welcome: Option<&Welcome>,
) -> Option<Connection> {
    let Connection {
        socket,
        part,
        unsent,
        paused: _,
        closing,
        heard,
        ends,
    } = connection;
    let mut writer = Outgoing::new(&socket, unsent);
    let mut reader = Incoming::new(&socket, part, closing);
    let served = send_and_serve(rt, alloc, worker, &mut reader, &mut writer, welcome);
    inbox.replied(writer.lines());
    let flow = reader.flow();
    let heard = heard || reader.has_lines();
    let part = reader.into_part();
    let unsent = writer.into_unsent();
    let is_served = match served {
        Ok(is_served) => is_served,
        Err(failure) => {
            ended(rt, failure);
            return None;
        }
    };
    // It goes no further where all was read, and where a stop was accepted.
    let ends = ends || (is_served && (flow == Flow::Ended || flow == Flow::Goes));
    if ends && unsent.is_empty() {
        return None;
    }
    Some(Connection {
        socket,
        part,
        unsent,
        paused: is_served && flow == Flow::Paused,
        closing,
        heard,
        ends,
    })
}

/// That what comes in is to be served, if the connection may come to a desk, and does not end.
fn welcome_of<'b>(standing: &'b Standing<'_>, ends: bool) -> Option<&'b Welcome> {
    if ends {
        return None;
    }
    standing.welcome()
}

/// A caller has its turn: first at the door, if it stands there, and then inside. It is none afterwards if its connection
/// has ended.
fn turn_at_door<'a, W: Worker, R: Wait + Log>(
    rt: &R,
    alloc: Global,
    worker: &mut W,
    inbox: &Inbox,
    caller: Caller<'a>,
) -> Option<Caller<'a>> {
    let Caller {
        connection,
        standing,
    } = at_door(rt, alloc, caller)?;
    let welcome = welcome_of(&standing, connection.ends);
    let connection = turn_of(rt, alloc, worker, inbox, connection, welcome)?;
    Some(Caller {
        connection,
        standing,
    })
}

impl<'a, 's, W: Worker + Drop> Round<'a, 's, W> {
    /// Whether no connection is open, and no more come.
    fn is_over(&self, post: &Post, stopping: &Stopping) -> bool {
        stopping.is_closed() && post.taken.is_empty() && self.places.iter().all(Option::is_none)
    }

    /// A line came by now over the connection in a place, or the connection did.
    fn hear(&mut self, place: usize) -> Result<(), AllocError> {
        match &mut self.quiet {
            Some(quiet) => quiet.hear(place),
            None => Ok(()),
        }
    }

    /// A caller is put in a place, where it waits for its turns.
    fn put<R: Log>(&mut self, rt: &R, post: &Post, caller: Caller<'s>) {
        let mut caller = caller;
        let place = match self.places.iter().position(Option::is_none) {
            Some(place) => place,
            None => self.places.len(),
        };
        let both = Interest::READABLE | Interest::WRITABLE;
        let token = Token(place.saturating_add(1));
        if post
            .poll
            .registry()
            .register(&mut caller.connection.socket, token, both)
            .is_err()
            || (place == self.places.len() && self.places.push(None).is_err())
            || self.hear(place).is_err()
        {
            self.inbox.closed();
            return unserved(rt);
        }
        if let Some(there) = self.places.get_mut(place) {
            *there = Some(caller);
        }
    }

    /// The connections that were handed over come to their places.
    fn take_in<R: Wait + Log, D>(
        &mut self,
        rt: &R,
        alloc: Global,
        post: &Post,
        serving: &Serving<'_, 's, D>,
    ) {
        for connection in post.taken.try_iter(rt) {
            if serving.stopping.is_said() {
                self.inbox.closed();
            } else {
                let socket = mio::net::TcpStream::from_std(connection);
                let connection = Connection::new(alloc, socket);
                self.put(rt, post, Caller::new(connection, serving.entrance.secret));
            }
        }
    }

    /// The connection in a place has ended.
    fn leave(&mut self, place: usize) {
        self.inbox.closed();
        if let Some(quiet) = &mut self.quiet {
            quiet.forget(place);
        }
    }

    /// A caller comes back to its place from its turn; its connection may have been heard.
    fn come_back(&mut self, place: usize, caller: Caller<'s>) {
        let mut caller = caller;
        self.paused = self.paused || caller.connection.paused;
        if caller.connection.heard {
            caller.connection.heard = false;
            // It has its place there already, for which no memory is wanted.
            let _ = self.hear(place);
        }
        if let Some(there) = self.places.get_mut(place) {
            *there = Some(caller);
        }
    }

    /// The connection in a place has its turn, if one is there. The system may have told that its input has an end.
    fn turn<R: Wait + Log>(&mut self, rt: &R, alloc: Global, place: usize, closing: bool) {
        let Some(caller) = self.places.get_mut(place).and_then(Option::take) else {
            return;
        };
        let mut caller = caller;
        caller.connection.closing = caller.connection.closing || closing;
        match turn_at_door(rt, alloc, &mut self.worker, self.inbox, caller) {
            Some(caller) => self.come_back(place, caller),
            None => self.leave(place),
        }
    }

    /// Whether the connection in a place is paused.
    fn is_paused(&self, place: usize) -> bool {
        match self.places.get(place) {
            Some(Some(caller)) => caller.connection.paused,
            _ => false,
        }
    }

    /// The connections that are paused have their turns.
    fn go_on<R: Wait + Log>(&mut self, rt: &R, alloc: Global) {
        self.paused = false;
        for place in 0..self.places.len() {
            if self.is_paused(place) {
                self.turn(rt, alloc, place, false);
            }
        }
    }

    /// How long may be waited: not at all where some go on at once, and else until one is silent.
    fn rest(&self) -> Option<Duration> {
        if self.paused {
            return Some(Duration::ZERO);
        }
        self.quiet.as_ref().and_then(Quiet::rest)
    }

    /// Reads the clock, where silent connections are closed.
    fn look<R: Clock>(&mut self, rt: &R) {
        if let Some(quiet) = &mut self.quiet {
            quiet.look(rt);
        }
    }

    /// The place of a connection that is silent by now, if one is.
    fn next_silent(&mut self) -> Option<usize> {
        match &mut self.quiet {
            Some(quiet) => quiet.next_silent(),
            None => None,
        }
    }

    /// Closes the connections that are silent by now.
    fn close_silent(&mut self) {
        for _ in 0..self.places.len() {
            let Some(place) = self.next_silent() else {
                return;
            };
            if let Some(there) = self.places.get_mut(place) {
                *there = None;
            }
            self.inbox.closed();
        }
    }
}

/// Over which connections no line comes, where those are closed over which none came for so many seconds.
fn quiet_of<R: Clock + Log>(rt: &R, alloc: Global, idle: Option<u32>) -> Option<Quiet> {
    let limit = Duration::from_secs(u64::from(idle?));
    match Quiet::new(rt, alloc, limit) {
        Ok(quiet) => Some(quiet),
        Err(error) => {
            warn!(rt; "connections over which nothing comes stay open: {error}");
            None
        }
    }
}

/// Waits until a connection is ready, or one is handed over, and no longer than this.
fn wait<R: Wait + Clock + Log>(rt: &R, post: &mut Post, most: Option<Duration>) {
    if let Err(error) = post.poll.poll(&mut post.events, most) {
        warn!(rt; "connections are not heard: {error}");
        sleep(rt, Duration::from_millis(REST_MILLIS));
    }
}

/// Serves the connections that are handed over, those that are ready in their turns, until all have ended and no more
/// come. Those that come after an accepted stop are closed unserved, and so are those that come once what was done lasts
/// no more. It answers the worker that served them, which is the one that it was given: it can make no other.
pub(crate) fn serve_connections<W: Worker + Drop, D: Desks<W>, R: Wait + Clock + Log>(
    rt: &R,
    alloc: Global,
    serving: &Serving<'_, '_, D>,
    station: Station<'_, W>,
) -> W {
    let Station {
        worker,
        inbox,
        mut post,
    } = station;
    let mut round = Round {
        worker,
        inbox,
        places: Vec::new(alloc),
        paused: false,
        quiet: quiet_of(rt, alloc, serving.entrance.idle),
    };
    for _ in rt.forever() {
        if round.is_over(&post, serving.stopping) {
            return round.worker;
        }
        let paused = round.paused;
        wait(rt, &mut post, round.rest());
        round.look(rt);
        round.take_in(rt, alloc, &post, serving);
        for event in post.events.iter() {
            let token = event.token().0;
            if token != WAKES {
                round.turn(rt, alloc, token - 1, event.is_read_closed());
            }
        }
        if paused {
            round.go_on(rt, alloc);
        }
        round.close_silent();
        if serving.desks.has_failed() {
            serving.stopping.say();
        }
        if serving.stopping.is_said() {
            serving.stopping.tell(rt);
        }
    }
    unreachable!()
}
