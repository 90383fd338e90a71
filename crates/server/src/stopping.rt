//! How it is said that no more connections are taken.

use crossbeam_channel::{Receiver, Sender, bounded};
use std::alloc::{AllocError, Global};
use std::sync::Wait;
use std::sync::atomic::{AtomicBool, Ordering};

/// Whether connections are taken and served, or no more are.
#[derive(Drop)]
pub(crate) struct Stopping {
    said: AtomicBool,
    /// Where it is told to the thread that waits for it. There is room for one word.
    told: Sender<()>,
    heard: Receiver<()>,
    /// Whether no more are taken.
    closed: AtomicBool,
    /// Whether all connections have ended.
    ended: AtomicBool,
}

impl Stopping {
    /// Connections are taken.
    pub(crate) fn new(alloc: Global) -> Result<Self, AllocError> {
        let (told, heard) = bounded(alloc, 1)?;
        Ok(Stopping {
            said: AtomicBool::new(false),
            told,
            heard,
            closed: AtomicBool::new(false),
            ended: AtomicBool::new(false),
        })
    }

    /// No more are.
    pub(crate) fn say(&self) {
        self.said.store(true, Ordering::SeqCst);
    }

    pub(crate) fn is_said(&self) -> bool {
        self.said.load(Ordering::SeqCst)
    }

    /// Where it is said that no more are.
    pub(crate) fn said(&self) -> &AtomicBool {
        &self.said
    }

    /// No more are taken from now on.
    pub(crate) fn close(&self) {
        self.closed.store(true, Ordering::SeqCst);
    }

    pub(crate) fn is_closed(&self) -> bool {
        self.closed.load(Ordering::SeqCst)
    }

    /// All connections have ended.
    pub(crate) fn end(&self) {
        self.ended.store(true, Ordering::SeqCst);
    }

    /// Where it is said that they have.
    pub(crate) fn ended(&self) -> &AtomicBool {
        &self.ended
    }

    /// Tells it to whoever waits.
    pub(crate) fn tell<R: Wait>(&self, rt: &R) {
        // Where there is no room, another thread has told it.
        let _ = self.told.try_send(rt, ());
    }

    /// Waits until it is told; whether it was.
    pub(crate) fn is_told<R: Wait>(&self, rt: &R) -> bool {
        self.heard.recv(rt).is_ok()
    }
}
