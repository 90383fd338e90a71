//! Sessions: a client numbers its operations and repeats a number after any doubt, and it takes effect once.
#![tactic(auto)]

mod kept;
mod laws;
mod numbers;
mod queues;
mod requests;
mod running;
mod session;
mod stopping;

pub use laws::{answers_last, numbers_have_one_reply, settled_is_told, uncalled_brokers};
pub use session::Session;
