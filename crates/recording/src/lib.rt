//! Recordings of what clients of a queue called and were answered: their lines, and what these come to.
#![tactic(auto)]

mod act;
mod copies;
mod fault;
mod line;
mod members;
mod queues;
mod ranks;
mod reader;
mod reading;
mod state;
mod timed;
mod wording;

pub use act::{Act, CallOf, Recording, Said, Step};
pub use copies::{Distinct, Turn, ValueCounts, value_counts, with_copies, without_repeated};
pub use fault::{Fault, Why};
pub use queues::{Recorded, read};
pub use wording::shown;
