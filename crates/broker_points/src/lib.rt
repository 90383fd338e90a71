//! The acts of a whole broker's script, and what a crash after each of them comes to, as text; and what holds of every
//! transcript of one.
#![tactic(auto)]

mod acts;
mod kept;
mod laws;
mod point;
mod reports;
mod runs;
mod sweep;
mod texts;

pub use laws::{no_refusal_without_again, refusals_alone_differ};
pub use runs::run_points;
