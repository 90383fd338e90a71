//! Who may come to a desk: everyone, or whoever says a secret first.
#![tactic(auto)]

mod hello;
mod judging;
mod laws;
mod secret;
mod standing;

pub use judging::{Entry, judge};
pub use laws::{bounds_are_fixed, secrets_can_be_said};
pub use secret::{MAX_SECRET, MIN_SECRET, Secret, Unfit};
pub use standing::{Standing, Welcome};
