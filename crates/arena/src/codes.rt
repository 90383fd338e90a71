//! What the words say in which calls note their kind and how they went.

ghost use Rattle.std.specs.Prelude.{◌≡◌};
ghost use Rattle.arena.specs.declared.codes.TheConstants.{CLOSED_GATE, DEQUEUE_KIND, DURABLE_QUEUE, EMPTY_CELL, EMPTY_STATUS};
ghost use Rattle.arena.specs.declared.codes.TheConstants.{ENQUEUE_KIND, GOT_CELL, LOG_QUEUE, OPEN_GATE, TAKEN_STATUS};

/// In a cell: its dequeue found the queue empty. An open cell is 0.
pub const EMPTY_CELL: u64 = 1;

/// In a cell: its dequeue claimed a node. The word is the node's number and this.
pub const GOT_CELL: u64 = 2;

/// The kind of an entry: its call is an enqueue.
pub const ENQUEUE_KIND: u64 = 1;

/// The kind of an entry: its call is a dequeue.
pub const DEQUEUE_KIND: u64 = 2;

/// The status of an enqueue's entry: it took effect. An open entry's status is 0.
pub const TAKEN_STATUS: u64 = 1;

/// The status of a dequeue's entry: it found the queue empty.
pub const EMPTY_STATUS: u64 = 2;

/// The kind of a slot: its queue is durable. A slot that never had a queue has 0 there.
pub const DURABLE_QUEUE: u64 = 1;

/// The kind of a slot: its queue is a log queue.
pub const LOG_QUEUE: u64 = 2;

/// The gate of a slot without a queue.
pub const CLOSED_GATE: u64 = 0;

/// The gate of a slot with a queue.
pub const OPEN_GATE: u64 = 1;

/// The numbers themselves, which docs/TABLES.md has. Images are read by them: none may change.
pub fn codes_are_fixed()
    ensures cells { (EMPTY_CELL ≡ 1) × (GOT_CELL ≡ 2) }
    ensures entries { (ENQUEUE_KIND ≡ 1) × (DEQUEUE_KIND ≡ 2) }
    ensures statuses { (TAKEN_STATUS ≡ 1) × (EMPTY_STATUS ≡ 2) }
    ensures queues { (DURABLE_QUEUE ≡ 1) × (LOG_QUEUE ≡ 2) }
    ensures gates { (CLOSED_GATE ≡ 0) × (OPEN_GATE ≡ 1) }
{}
