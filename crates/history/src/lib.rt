//! The checker of histories of a queue and the orders that explain them; what it looks at, one thing after another; and
//! what holds of every such history.
#![tactic(auto)]

mod answering;
mod arising;
mod checking;
mod fronts;
mod hearing;
mod laws;
mod naming;
mod ordering;
mod places;
mod plain_queue;
mod preceding;
mod replaying;
mod telling;

pub use checking::{check, check_content};
pub use events::{Entry, Event, Events, History, Order, Sequence};
pub use laws::{calls_in_turn_are_served, calls_in_turn_have_one_order};
pub use plain_queue::replay;
