//! What a request is answered.

use arena::SlotId;
use directory::Places;
use words::{Refusal, Reply, Told};

/// What a request is answered.
#[derive(Clone, Copy, Debug, PartialEq, Eq)]
pub enum Answer {
    /// The queue is in this slot.
    Created(SlotId),
    /// These are the queues, slot by slot.
    Queues(Places),
    /// The reply of an enqueue or a dequeue.
    Reply(Reply),
    /// A crash came before the reply, or within the creation.
    Interrupted,
    /// A step was refused memory, and the call stays under way.
    Unfinished,
    Told(Told),
    Crashed,
    Ready,
    Stopping,
    Refused(Refusal),
}
