//! Limits.

/// The greatest count of a device's failures. Each call that may fail asks that the count is below it.
pub const MAX_FAILURES: u64 = u64::MAX;
