//! Where things lie in a memory: the places of a queue, and the layouts that give each a word of its own.
#![tactic(auto)]

mod broker;
mod codes;
mod durable;
mod form;
mod layout;
mod log;
mod place;
mod values;

pub use broker::{
    BLOCKS_FROM, BrokerLayout, BrokerPlace, DIRECTORY_WORDS, HEAD_WORDS, MAX_BROKER_WORDS, SLOTS,
    SlotId, block_size,
};
pub use codes::{
    CLOSED_GATE, DEQUEUE_KIND, DURABLE_QUEUE, EMPTY_CELL, EMPTY_STATUS, ENQUEUE_KIND, GOT_CELL,
    LOG_QUEUE, OPEN_GATE, TAKEN_STATUS, codes_are_fixed,
};
pub use form::Form;
pub use layout::Layout;
pub use place::{Part, Place, Write, item_part, value_of};
pub use values::{block_size_of_values, size_of_values, word_of_values};
