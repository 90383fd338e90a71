//! Simulated non-volatile memory: words that have a cached and a kept value.
#![tactic(auto)]

mod access;
mod changes;
mod image;
mod laws;
mod memory;
mod port;
mod window;

pub use access::{Change, EvictableWords, KeptWords, Noted, Swap, WordMemory};
pub use image::{HEADER_BYTES, NUMBER_BYTES, is_first_form};
pub use laws::{changes_are_noted, words_have_one_image};
pub use memory::{MAX_WORDS, Memory, PORTS};
pub use port::Port;
pub use window::{View, Window};
