//! One session for several threads: one lock for each act, seats that remember their clients' calls, and gates between
//! the steps of a call, so that a client that stands still holds nobody up.
#![tactic(auto)]

mod book;
mod closing;
mod creating;
mod deeds;
mod entry;
mod gate;
mod handed;
mod laws;
mod locked;
mod looks;
mod marks;
mod naming;
mod opening;
mod operator;
mod renewing;
mod seat;
mod shared;

pub use deeds::Deed;
pub use entry::{Answer, End, Entry, Request};
pub use gate::{Gate, OpenGate};
pub use handed::Handed;
pub use laws::{calls_are_counted, interrupted_calls_are_told, marked_answers_are_told};
pub use looks::Usage;
pub use marks::{Assured, Marked};
pub use naming::Naming;
pub use opening::{NotOpened, Noting, Opened, is_in_use};
pub use operator::Operator;
pub use seat::Seat;
pub use shared::{Created, Shared};
