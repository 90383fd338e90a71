//! Journals: the words of a memory on which a file begins, and all changes since, as bytes.
#![tactic(auto)]

mod checksum;
mod fault;
mod format;
mod frame;
mod head;
mod laws;
mod reading;
mod replay;
mod writer;

pub use fault::Fault;
pub use format::{CHANGE_BYTES, KEY_BYTES, MAX_CHANGES};
pub use laws::{
    batches_are_their_changes, compactions_read_the_same, frames_make_journals, journals_are_read,
    only_journals_are_read, stops_leave_a_beginning,
};
pub use reading::{Reading, hides_kept_frame, read};
pub use writer::Writer;
