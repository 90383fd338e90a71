//! A broker of named queues: one memory, and up to eight queues in it, each a world of its own.
#![tactic(auto)]

mod block;
mod booting;
mod broker;
mod calls;
mod evicting;
mod laws;
mod looks;
mod migrating;
mod names;
mod recovery;
mod renewing;
mod rotating;
mod slot;
mod slots;
mod stopping;

pub use broker::Broker;
pub use laws::{brokers_go_on, brokers_outlast_rotations, downtimes_go_on, open_queues_are_kept};
pub use looks::Look;
pub use recovery::BrokerRecovery;
