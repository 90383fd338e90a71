//! What clients and the server say to each other.
#![tactic(auto)]

mod answer;
mod request;

pub use answer::Answer;
pub use request::Request;
