//! Journals in a storage: words that are changed by batches, each of which is appended before the words have its changes.
//! So the place of the storage has a journal that is read as these words.
#![tactic(auto)]

mod laws;
mod numbers;
mod on_device;
mod storage;

pub use laws::{restarts_have_what_was_kept, running_journals_are_read};
pub use on_device::{Journal, MAX_SIZE, Uncompacted};
pub use storage::{Storage, Unplaced};
