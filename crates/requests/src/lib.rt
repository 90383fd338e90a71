//! Requests read from the lines that ask them.
#![tactic(auto)]

mod laws;
mod line;
mod members;
mod rows;

pub use laws::requests_can_be_asked;
pub use line::request;
