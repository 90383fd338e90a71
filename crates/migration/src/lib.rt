//! Words of queues and brokers of the form of values, written anew in the form of items.
#![tactic(auto)]

mod block;
mod broker;
mod laws;

pub use broker::broker_words;
pub use laws::{
    migrated_block_has_the_queue, migrated_broker_has_the_queues, migrated_broker_has_the_slots,
    migrated_words_tell_the_same,
};
