//! How large a queue may be, and what its calls may ask for.

use crate::told::Told;

/// The most clients of a queue.
pub const MAX_CLIENTS: usize = 16;

/// The most records of one client in a queue.
pub const MAX_RECORDS: u32 = 4_096;

/// The port of a queue's recovery, behind those of its clients: the client of each number reaches the queue's words
/// through the port of that number.
pub const RECOVERY_PORT: usize = MAX_CLIENTS;

/// How many ports a queue has: one for each client that it may have, and that of its recovery.
pub const QUEUE_PORTS: usize = MAX_CLIENTS + 1;

/// The greatest number that a record, or a node, of a queue can have: that of the last record of the last client.
pub const MAX_RECORD_NUMBER: u32 = 65_536;

/// The greatest number of a log queue's call.
pub const MAX_CALL_NUMBER: u64 = 1_099_511_627_776;

/// The most steps of a call that goes on alone, wherever the other clients stopped.
pub const MAX_STEPS_ALONE: u32 = 128;

/// The most steps of a recovery are so many for each record that there is, ..
pub const STEPS_PER_RECORD: u32 = 10;

/// .. so many for each client ..
pub const STEPS_PER_CLIENT: u32 = 9;

/// .. and so many more.
pub const STEPS_BESIDES: u32 = 10;

/// What each client is told, and None past the last client.
pub type Reports = [Told; MAX_CLIENTS];
