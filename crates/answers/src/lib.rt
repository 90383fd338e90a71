//! The answer to a recording: an order that explains it, or the first step with which there is none.
#![tactic(auto)]

mod answer;
mod repeated;

pub use answer::{Answer, Watch, answer_of, seen};
pub use repeated::{Repeated, answer_of_repeated};
