//! Acts, as data.

use words::{Call, Client};

/// One act on a queue, whose words are told apart by `P`: their places, or their indices.
#[derive(Clone, Copy, Debug, PartialEq, Eq)]
pub enum Act<P> {
    /// The client starts a call. A durable queue ignores the number.
    Start {
        client: Client,
        number: u64,
        call: Call,
    },
    /// The client's call goes on by one step.
    Step {
        client: Client,
    },
    /// The environment keeps the word that is here.
    Evict {
        at: P,
    },
    /// The whole system stops, and begins to recover.
    Crash,
    /// Recovery goes on by one step.
    Recover,
}
