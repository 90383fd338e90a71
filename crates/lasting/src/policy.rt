//! When the batches of a journal are kept.

/// When a journal keeps what was appended to it, so that no stop of the machine takes that away. A stop of the process
/// alone takes away nothing that was appended.
#[derive(Clone, Copy)]
pub enum Policy {
    /// Before anything that it tells of is answered.
    Always,
    /// About once a second, beside the answers.
    EachSecond,
    /// When the storage comes to it.
    Never,
}
