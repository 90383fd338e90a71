//! Members of etcd, asked over HTTP.
#![tactic(auto)]

mod addresses;
mod connection;
mod exchange;

pub use addresses::{is_place, is_reached, log_at, members};
pub use exchange::HttpExchange;
