//! How far the calls that tests interrupt have come: after so many steps of an undisturbed one, its
//! start apart, the last step did what the constant's name says. The tables of steps stand in docs/TABLES.md.

/// The node of a durable queue's enqueue is linked. The link is not kept yet.
pub const DURABLE_LINKED: u32 = 19;

/// A durable queue's dequeue has claimed its node. The claim is not kept yet.
pub const DURABLE_CLAIMED: u32 = 15;

/// A log queue's enqueue is announced.
pub const LOG_ENQUEUE_ANNOUNCED: u32 = 30;

/// Its link is kept: it takes effect.
pub const LOG_LINK_KEPT: u32 = 36;

/// The claim of a log queue's dequeue is kept: it takes effect.
pub const LOG_CLAIM_KEPT: u32 = 23;
