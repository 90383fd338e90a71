//! Which kept words of a queue are sound, and what they hold and tell: looked at without recovery.
#![tactic(auto)]

mod chain;
mod claims;
mod entries;
mod kept;
mod records;
mod rows;
mod soundness;
mod told;

pub use kept::KeptQueue;
pub use soundness::{Survey, sound, sound_in, surveyed};
pub use told::tells;
