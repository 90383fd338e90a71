//! Words of a queue at rest, written anew: what it holds and what it told its clients, in fresh records.
#![tactic(auto)]

mod block;
mod broker;
mod chain;
mod content;
mod fresh;
mod laws;
mod one_queue;
mod places;
mod renewal;
mod role;
mod told;
mod zeros;

pub use block::renewed_block;
pub use broker::renewed_broker;
pub use fresh::{FreshBlock, fresh_block};
pub use laws::{renewed_block_has_the_queue, renewed_words_hold_and_tell};
pub use one_queue::fresh_queue;
