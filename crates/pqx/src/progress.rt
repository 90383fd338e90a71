//! How far a long run has come, on a terminal.

use explore::Watch;
use std::io::IsTerminal;
use std::time::{Clock, Duration};

/// For so many milliseconds nothing is shown.
const QUIET: u64 = 500;

/// A line on standard error, where that is a terminal.
#[derive(Drop)]
pub(crate) struct Progress<'a> {
    rt: &'a HostRuntime,
    /// When the run began, where it is shown at all.
    began: Option<Duration>,
    shown: bool,
}

impl<'a> Progress<'a> {
    pub(crate) fn new(rt: &'a HostRuntime) -> Self {
        let began = if rt.stderr().is_terminal() {
            rt.monotonic().ok()
        } else {
            None
        };
        Progress {
            rt,
            began,
            shown: false,
        }
    }

    /// Takes the line away, if there is one.
    pub(crate) fn clear(self) {
        if self.shown {
            let _ = eprint!(self.rt; "\r\x1b[K");
        }
    }

    /// Whether the run has taken long.
    fn is_long(&self) -> bool {
        match (self.began, self.rt.monotonic()) {
            (Some(began), Ok(now)) => now.saturating_sub(began) > Duration::from_millis(QUIET),
            _ => false,
        }
    }
}

impl Watch for Progress<'_> {
    fn note(&mut self, done: u64, of: u64) {
        if self.is_long() {
            self.shown = true;
            let _ = eprint!(self.rt; "\r{done} of {of} points");
        }
    }
}
