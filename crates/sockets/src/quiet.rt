//! Connections over which no line came for long.

ghost use Rattle.std.specs.Prelude.{◌≡◌, IfOk, MatchOption, OnOk, Some, [], nat_eq};
ghost use Rattle.std.specs.Map.{lookup};
ghost use Rattle.sockets.specs.Silent.{IsNoneSilent, IsSilent};

use lru::LruCache;
use std::alloc::{AllocError, Global};
use std::io;
use std::time::{Clock, Duration, Instant};

/// When a line came last over each connection, by its place. They stand in that order, so that the one over which none
/// came for longest is found without a look at the others.
#[derive(Drop)]
pub struct Quiet {
    /// For how long no line comes before a connection is silent.
    limit: Duration,
    now: Instant,
    heard: LruCache<usize, Instant>,
}

impl Quiet {
    /// No connection. It fails where the clock cannot be read, or there is no memory.
    pub fn new<R: Clock>(rt: &R, alloc: Global, limit: Duration) -> io::Result<Self>
        ensures none { IfOk result (λ quiet. quiet.heard.entries ≡ []) }
        ensures limit { IfOk result (λ quiet. quiet.limit ≡ limit) }
    {
        Ok(Quiet {
            limit,
            now: Instant::now(rt)?,
            heard: LruCache::unbounded(alloc)?,
        })
    }

    /// Reads the clock. Where it cannot be read, the time is still the one before.
    pub fn look<R: Clock>(&mut self, rt: &R) {
        if let Ok(now) = Instant::now(rt) {
            self.now = now;
        }
    }

    /// A line came by now over the connection in a place, or the connection did.
    pub fn hear(&mut self, place: usize) -> Result<(), AllocError>
        ensures { OnOk result (lookup (nat_eq place) self.new.heard.entries ≡ Some self.old.now) }
    {
        match self.heard.put(place, self.now) {
            Ok(_) => Ok(()),
            Err(_) => Err(AllocError),
        }
    }

    /// The connection in a place is closed.
    pub fn forget(&mut self, place: usize) {
        self.heard.pop(&place);
    }

    /// How long it is until one is silent, if any is there.
    pub fn rest(&self) -> Option<Duration> {
        let (_, heard) = self.heard.peek_lru()?;
        let silent = self.now.saturating_duration_since(*heard);
        Some(self.limit.saturating_sub(silent))
    }

    /// The place of a connection that is silent by now, if one is; it is forgotten.
    pub fn next_silent(&mut self) -> Option<usize>
        ensures { MatchOption result (IsNoneSilent self.old) (IsSilent self.old) }
    {
        let (_, heard) = self.heard.peek_lru()?;
        let silence = self.now.saturating_duration_since(*heard);
        if silence.as_nanos() < self.limit.as_nanos() {
            return None;
        }
        match self.heard.pop_lru() {
            Some((place, _)) => Some(place),
            None => None,
        }
    }
}
