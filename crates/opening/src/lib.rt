//! A broker as it begins: a new one, or one that recovers on the words of an image or of a journal.
#![tactic(auto)]

mod opening;
mod reopening;

pub use opening::{opened, renewed};
pub use reopening::{reopened, reopened_anew};
