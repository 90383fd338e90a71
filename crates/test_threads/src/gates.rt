//! Gates that hold calls back, and the waiting of the tests.

use std::sync::Wait;
use std::sync::atomic::{AtomicU64, Ordering};
use std::thread;
use std::time::{Clock, Duration};
use words::Client;
use workers::Gate;

/// How many turns of a millisecond a test waits at most.
pub(crate) const TURNS: u32 = 10_000;

/// Waits for so many milliseconds.
pub(crate) fn rest<C: Clock>(clock: &C, milliseconds: u32) {
    thread::sleep(clock, Duration::from_millis(u64::from(milliseconds)));
}

/// Says that something is so.
pub(crate) fn tell(word: &AtomicU64) {
    word.store(1, Ordering::SeqCst);
}

/// Waits until it is said, and answers whether it was in time.
pub(crate) fn wait_for<C: Clock>(clock: &C, word: &AtomicU64) -> bool {
    for _ in 0..TURNS {
        if word.load(Ordering::SeqCst) == 1 {
            return true;
        }
        rest(clock, 1);
    }
    false
}

/// Holds a call back after so many of its steps: tells that it is there, and lets it go on when that is done.
#[derive(Drop)]
pub(crate) struct Held<'a, C: Clock> {
    pub(crate) clock: &'a C,
    pub(crate) steps: u64,
    pub(crate) there: &'a AtomicU64,
    pub(crate) done: &'a AtomicU64,
    /// How often it was not done in time.
    pub(crate) late: &'a AtomicU64,
}

impl<'a, C: Clock> Gate for Held<'a, C> {
    fn pass<R: Wait>(&self, _rt: &R, _client: Client, steps: u64) {
        if steps != self.steps {
            return;
        }
        tell(self.there);
        if !wait_for(self.clock, self.done) {
            self.late.fetch_add(1, Ordering::SeqCst);
        }
    }
}
