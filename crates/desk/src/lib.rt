//! Requests of connections answered by a broker that they share.
#![tactic(auto)]

mod answering;
mod calls;
mod counter;
mod desk;
mod laws;
mod marking;
mod renewing;
mod worth;

pub use calls::{Asked, answer_at_seat};
pub use desk::BrokerDesk;
pub use laws::replies_stand;
pub use marking::MarkingDesk;
