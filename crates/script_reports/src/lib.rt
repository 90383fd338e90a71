//! What a script comes to, as text: its transcript, and what is found where it is crashed. Runs of scripts from a reader
//! to a writer, with a page or without.
#![tactic(auto)]

mod drawing;
mod frames;
mod laws;
mod pictures;
mod reports;
mod runs;
mod stage;
mod stories;
mod texts;
mod watched;

pub use laws::parts_make_the_whole;
pub use runs::{run, run_alone, run_page, run_points, run_story};
