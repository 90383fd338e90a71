//! Whether a recording of a queue has an order, exactly.
#![tactic(auto)]

mod bounds;
mod empties;
mod judging;
mod known;
mod meaning;
mod opens;
mod ranges;
mod reading;
mod tables;
mod wrong;

pub use judging::has_order;
