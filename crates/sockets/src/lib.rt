//! The socket of a connection, which never waits: what came in is handed on as whole lines, and what could not be sent
//! yet is kept. And over which connections no line came for long.
#![tactic(auto)]

mod connection;
mod hearing;
mod incoming;
mod outgoing;
mod quiet;

pub use connection::Connection;
pub use hearing::{Heard, first_line};
pub use incoming::{Flow, Incoming};
pub use outgoing::Outgoing;
pub use quiet::Quiet;
