//! What asks the members of an engine over HTTP.

ghost use Rattle.std.specs.Prelude.{None};

use crate::connection::Connection;
use devices::Failed;
use etcd_log::{Exchange, Lost};
use etcd_text::{Answer, Request, answer_in, append_text};
use journal::KEY_BYTES;
use log::warn;
use std::net::SocketAddr;
use std::random::RandomSource;
use std::thread::sleep;
use std::time::{Duration, Instant};

/// How long it rests before it asks again, at first and at most.
const FIRST_REST_MILLIS: u64 = 20;

const MOST_REST_MILLIS: u64 = 500;

/// How long it is still before it says that no answer comes, each time.
const SILENT_SECONDS: u64 = 5;

/// Since when no answer comes to a request.
#[derive(Clone, Copy)]
struct Silence {
    since: Instant,
    /// Where it was said last.
    said: Instant,
}

/// The members of an engine, asked for one log, over one connection at a time. A member that fails is left for the next
/// one. Whatever fails, what became of the request is not known: it is sent again as it is.
#[derive(Drop)]
pub struct HttpExchange<'a> {
    rt: &'a HostRuntime,
    /// The name of the log.
    name: &'a str,
    members: Vec<SocketAddr>,
    /// The member that is asked next.
    next: usize,
    connection: Option<Connection>,
    /// For how long a request is asked again.
    patience: Duration,
    silence: Option<Silence>,
    rest: Duration,
}

impl<'a> HttpExchange<'a> {
    /// One that asks these members for the log of this name, and goes on asking for so long where no answer comes.
    pub fn new(
        rt: &'a HostRuntime,
        name: &'a str,
        members: Vec<SocketAddr>,
        patience: Duration,
    ) -> Self {
        HttpExchange {
            rt,
            name,
            members,
            next: 0,
            connection: None,
            patience,
            silence: None,
            rest: Duration::from_millis(FIRST_REST_MILLIS),
        }
    }

    /// The connection that there is, or one to the next member.
    fn connected(&mut self) -> Result<Connection, Lost> {
        if let Some(connection) = self.connection.take() {
            return Ok(connection);
        }
        match self.members.get(self.next) {
            Some(address) => Connection::open(self.rt, *address),
            None => Err(Lost),
        }
    }

    /// Asks a member once. The connection stays only where it answered.
    fn ask_member(&mut self, path: &str, text: &str) -> Result<Vec<u8>, Lost> {
        let mut connection = self.connected()?;
        let body = connection.ask(path, text.as_bytes())?;
        self.connection = Some(connection);
        Ok(body)
    }

    /// The next member is asked next.
    fn pass_on(&mut self) {
        self.connection = None;
        self.next = self.next.saturating_add(1);
        if self.next >= self.members.len() {
            self.next = 0;
        }
    }

    /// What a member answers to the text of a request.
    fn answer_to(&mut self, request: &Request, text: &str) -> Result<Answer, Lost> {
        let Ok(body) = self.ask_member(request.path(), text) else {
            self.pass_on();
            return Err(Lost);
        };
        match answer_in(self.rt.alloc(), request.is_range(), &body) {
            Ok(answer) => Ok(answer),
            Err(_) => {
                self.pass_on();
                Err(Lost)
            }
        }
    }

    /// Whether there is patience left at this time. It is said each so often that no answer comes.
    fn is_patient(&mut self, now: Instant) -> bool {
        let Some(silence) = self.silence else {
            self.silence = Some(Silence {
                since: now,
                said: now,
            });
            return true;
        };
        if now.duration_since(silence.said) >= Duration::from_secs(SILENT_SECONDS) {
            warn!(self.rt; "the engine does not answer");
            self.silence = Some(Silence {
                since: silence.since,
                said: now,
            });
        }
        now.duration_since(silence.since) < self.patience
    }
}

/// What the engine is nobody knows here: that its answers are those of one order of requests is a premise.
impl Exchange for HttpExchange<'_> {
    ghost engine = { λ _. None };

    fn ask(&mut self, request: &Request) -> Result<Answer, Lost> {
        let mut text = String::new(self.rt.alloc());
        if append_text(self.rt.alloc(), &mut text, self.name, request).is_err() {
            return Err(Lost);
        }
        match self.answer_to(request, &text) {
            Ok(answer) => {
                self.silence = None;
                self.rest = Duration::from_millis(FIRST_REST_MILLIS);
                Ok(answer)
            }
            Err(lost) => Err(lost),
        }
    }

    fn may_ask_again(&mut self) -> bool {
        let Ok(now) = Instant::now(self.rt) else {
            return false;
        };
        if !self.is_patient(now) {
            return false;
        }
        sleep(self.rt, self.rest);
        let most = Duration::from_millis(MOST_REST_MILLIS);
        self.rest = self.rest.saturating_mul(2).min(most);
        true
    }

    fn draw_key(&self) -> Result<[u8; KEY_BYTES], Failed> {
        let mut key = [0; KEY_BYTES];
        match self.rt.fill_bytes(&mut key) {
            Ok(()) => Ok(key),
            Err(_) => Err(Failed),
        }
    }
}
