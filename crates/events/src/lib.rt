//! What happens to a queue: events and effects, the histories that may arise, and the orders that explain them.
#![tactic(auto)]

mod event;
mod keeping;
mod kept;
mod list;
mod same;
mod sequence;

pub use event::{Effect, Entry, Event, History, Order};
pub use keeping::{keep_settled, order};
pub use kept::copied;
pub use list::Events;
pub use same::{are_same_values, is_same_outcome, is_same_reply, is_same_told, is_same_value};
pub use sequence::Sequence;
