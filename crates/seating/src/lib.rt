//! Seats that no connection is using, each in its client's place, and the operator.
#![tactic(auto)]

mod seating;

pub use seating::{Owed, Seating};
