//! The text of each answer: one JSON object a line.
#![tactic(auto)]

mod answer;
mod limits;
mod pieces;
mod queues;
mod told;

pub use answer::{Text, append_line, refusal_text, text_of};
pub use limits::MAX_REPLY;
