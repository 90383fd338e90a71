//! The JSON object that each reply is, and that it is read back.
#![tactic(auto)]

mod laws;

pub use laws::replies_are_read_back;
