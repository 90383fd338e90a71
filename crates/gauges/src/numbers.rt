//! What is told of a broker that is served.

use arena::SLOTS;
use directory::Queue;

/// What a queue was seen to hold.
#[derive(Clone, Copy)]
pub struct QueueGauges {
    pub queue: Queue,
    pub items: u64,
    /// How many clients it has, and how many records each of them, used and free.
    pub clients: u64,
    pub records: u64,
}

/// What the queues of a broker were seen to hold.
#[derive(Clone, Copy)]
pub struct BrokerGauges {
    /// Whether it is ready. While it is down no queue is told.
    pub ready: bool,
    pub queues: [Option<QueueGauges>; SLOTS],
}

/// When the batches of a journal are kept.
#[derive(Clone, Copy)]
pub enum Keeping {
    Always,
    EachSecond,
    Never,
}

/// What is told of a journal.
#[derive(Clone, Copy)]
pub struct JournalGauges {
    pub keeping: Keeping,
    pub bytes: u64,
    /// How many of its bytes were there when all were last kept.
    pub kept: u64,
    /// How many batches were appended.
    pub batches: u64,
    /// How often it failed to append a batch, or to keep one.
    pub failures: u64,
    /// Whether it has failed for good.
    pub failed: bool,
}

/// What is told of a broker that is served.
#[derive(Clone, Copy)]
pub struct Gauges {
    /// For how many seconds connections have been taken.
    pub uptime: u64,
    /// How many are open.
    pub connections: u64,
    pub workers: u64,
    /// How many replies were sent.
    pub replies: u64,
    pub broker: BrokerGauges,
    pub journal: Option<JournalGauges>,
}
