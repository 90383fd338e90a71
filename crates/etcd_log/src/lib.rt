//! A journal's storage in etcd: its bytes lie there in pieces, and one key says whose they are and how many.
#![tactic(auto)]

mod deciding;
mod exchange;
mod pieces;
mod plain;
mod questions;
mod store;
mod taking;

pub use deciding::Undone;
pub use exchange::{Exchange, Lost};
pub use plain::{Fate, PlainEngine};
pub use questions::ask_tail;
pub use store::EtcdStore;
