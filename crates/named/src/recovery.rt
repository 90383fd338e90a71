//! How far the recovery of a broker has come.

use arena::SlotId;
use directory::DirectoryRecovery;

/// What a recovery of a broker is about to do: to read the directory, and then to recover its queues in slot order.
#[derive(Clone, Copy)]
pub enum BrokerRecovery {
    /// The directory is read.
    ReadDirectory { at: DirectoryRecovery },
    /// The queue of this slot is recovered: those of the slots below are ready, and those above wait.
    RecoverQueue { slot: SlotId },
}
