//! Recovery after a crash, as a step machine over any layout.
#![tactic(auto)]

mod ends;
mod keeping;
mod point;
mod recovery;
mod telling;

pub use ends::{
    RecoveryLoadHead, RecoveryLoadInsert, RecoveryLoadMark, RecoveryLoadNext, RecoveryStoreHead,
    RecoveryStoreResult, RecoveryStoreStatus, RecoveryStoreTail,
};
pub use keeping::{KeepHead, KeepResult, KeepStatus, KeepTail, RecoveryKeeping};
pub use point::{RecoveryPoint, Report};
pub use recovery::{Recovery, boot};
pub use telling::{
    RecoveryLoadAnnouncement, RecoveryLoadCell, RecoveryLoadEntryNode, RecoveryLoadGot,
    RecoveryLoadKind, RecoveryLoadNumber, RecoveryLoadRemove, RecoveryLoadRemovedItem,
    RecoveryLoadStatus,
};
