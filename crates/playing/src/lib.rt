//! A world that follows a script, and its transcript.
#![tactic(auto)]

mod entries;
mod laws;
mod lines;
mod lists;
mod player;
mod put_off;
mod steps;
mod streams;
mod transcripts;

pub use entries::{Ordered, named_call};
pub use laws::{one_transcript_without_again, refusals_alone_differ};
pub use lines::{Line, Values, add, add_refused, text};
pub use lists::push;
pub use put_off::{Unfollowed, line_to_make};
pub use steps::{CLIENT_NUMBERS, Steps};
pub use streams::{print, read_script, unread_refusal};
pub use transcripts::transcript;
