//! Readers and writers that count how often they failed: those that std has, and those of tests, which fail where they
//! are told to.
#![tactic(auto)]

mod counted;
mod device;
mod faulty;
mod limits;
mod transfer;

pub use counted::{CountedReader, CountedWriter};
pub use device::{Failed, Reader, Writer};
pub use faulty::{FaultyReader, FaultyWriter};
pub use limits::MAX_FAILURES;
pub use transfer::{Unread, next_byte, read_all, send, write_all};
