//! One reader and one writer served, by no other thread or as one connection of many; and what a broker begins with that
//! is served with a journal, and leaves.
#![tactic(auto)]

mod connecting;
mod journals;
mod json_lines;
mod lasting_desk;
mod piping;
mod stopping_desk;

pub use connecting::{connection, lasting_connection};
pub use journals::{Journaling, Left, Noted, Unserved, begin_noting};
pub use json_lines::JsonLines;
pub use lasting_desk::LastingDesk;
pub use piping::pipe;
pub use stopping_desk::StoppingDesk;
