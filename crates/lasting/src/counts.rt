//! What is counted of a journal, for those who do not have its lock.

use std::sync::atomic::{AtomicU64, Ordering};

/// What was counted of a journal.
#[derive(Clone, Copy, Debug, PartialEq, Eq)]
pub struct JournalCounts {
    /// How many bytes it has.
    pub size: u64,
    /// How many of its bytes were there when all were last kept.
    pub kept: u64,
    /// How often it was left with more bytes, or fewer, than before.
    pub batches: u64,
    /// How often it failed to settle, or to keep.
    pub failures: u64,
}

/// What is counted of a journal.
#[derive(Drop)]
pub(crate) struct Counts {
    size: AtomicU64,
    kept: AtomicU64,
    batches: AtomicU64,
    failures: AtomicU64,
}

impl Counts {
    /// What is counted of a journal that has so many bytes, and keeps so many of them.
    pub(crate) fn new(size: u64, kept: u64) -> Self {
        Counts {
            size: AtomicU64::new(size),
            kept: AtomicU64::new(kept),
            batches: AtomicU64::new(0),
            failures: AtomicU64::new(0),
        }
    }

    /// It was left with so many bytes, and keeps so many of them; and whether that failed.
    pub(crate) fn note(&self, size: u64, kept: u64, failed: bool) {
        if self.size.swap(size, Ordering::SeqCst) != size {
            self.batches.fetch_add(1, Ordering::SeqCst);
        }
        self.kept.store(kept, Ordering::SeqCst);
        if failed {
            self.failures.fetch_add(1, Ordering::SeqCst);
        }
    }

    /// What was counted. Each number is read by itself.
    pub(crate) fn read(&self) -> JournalCounts {
        JournalCounts {
            size: self.size.load(Ordering::SeqCst),
            kept: self.kept.load(Ordering::SeqCst),
            batches: self.batches.load(Ordering::SeqCst),
            failures: self.failures.load(Ordering::SeqCst),
        }
    }
}
