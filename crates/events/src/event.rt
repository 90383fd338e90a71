//! Events, histories and orders.

use crate::list::Events;
use crate::sequence::Sequence;
use words::{Call, Client, Reply, Reports, Value};

/// What happened to a queue.
#[derive(Clone, Copy, Debug, PartialEq, Eq)]
pub enum Event {
    /// A client called. The number is 0 in a durable queue, from 1 in a log queue.
    Call {
        client: Client,
        number: u64,
        call: Call,
    },
    /// The client's call was answered.
    Return {
        client: Client,
        reply: Reply,
    },
    /// The whole system stopped, and every call under way was interrupted.
    Crash,
    /// Recovery was done, and each client was told this. Where there is no such client it is nothing.
    Ready {
        told: Reports,
    },
}

/// What a queue holds and tells where the history begins, and the events since, one after another.
#[derive(Drop)]
pub struct History {
    pub base: Sequence<Value>,
    pub told: Reports,
    pub events: Events,
}

/// A call, named by the place of its Call event in the history, and its reply.
#[derive(Clone, Copy, Debug, PartialEq, Eq)]
pub struct Entry {
    pub place: usize,
    pub reply: Reply,
}

/// Calls in the order in which they took effect.
#[derive(Drop)]
pub struct Order {
    pub entries: Sequence<Entry>,
}

/// A call took effect, when so many events stood. A dequeue that found nothing is pending until its answer is kept.
#[derive(Clone, Copy, Debug, PartialEq, Eq)]
pub struct Effect {
    pub place: usize,
    pub reply: Reply,
    pub moment: usize,
    pub settled: bool,
}
