//! The first so many steps of a recording: what they come to, which is judged, and their calls, for the search.
#![tactic(auto)]

mod facts;
mod prefix;

pub use facts::findings_of;
pub use prefix::{Prefix, prefix_of};
