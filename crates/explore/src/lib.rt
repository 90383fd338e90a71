//! The acts of a script, what a crash at each point of it comes to, and what the calls that stop there do alone.
#![tactic(auto)]

mod acts;
mod answers;
mod attempts;
mod copy;
mod evictions;
mod laws;
mod lone_calls;
mod part;
mod point;
mod spare;
mod stop;
mod sweep;
mod walk;
mod watch;

pub use acts::accepted_acts;
pub use answers::Alone;
pub use attempts::attempt;
pub use evictions::{Evictions, words_kept};
pub use laws::transcripts_follow_attempts;
pub use lone_calls::alone;
pub use part::{Part, WHOLE, Wanted};
pub use point::Point;
pub use sweep::{Report, watched_points};
pub use watch::Watch;
