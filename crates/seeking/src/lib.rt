//! Looks for an order of calls that explains what is known of them, or for a witness that there is none. Nothing here
//! is proved but that it ends and is safe: what it finds is judged elsewhere.
#![tactic(auto)]

mod blocks;
mod calls;
mod empties;
mod items;
mod matching;
mod pieces;
mod ranks;
mod searching;

pub use calls::{Calls, Known, KnownCall, NEVER};
pub use searching::{Found, search};
