//! The step machines of an enqueue and a dequeue, over any layout. A call that finds another half done helps
//! it on, so a stopped client blocks nobody.
#![tactic(auto)]

mod dequeue;
mod enqueue;
mod keeping;
mod op;

pub use dequeue::{
    Claim, Claimed, DequeueCheckHead, DequeueClaim, DequeueHelpTail, DequeueLoadHead,
    DequeueLoadItem, DequeueLoadNext, DequeueLoadTail, DequeueMoveHead, DequeueStoreEmpty,
    DequeueStoreResult,
};
pub use enqueue::{
    EnqueueCheckTail, EnqueueHelpTail, EnqueueLink, EnqueueLoadNext, EnqueueLoadTail,
    EnqueueMoveTail,
};
pub use keeping::{
    KeepClaim, KeepDequeuePassedLink, KeepEmpty, KeepLink, KeepPassedLink, KeepResult, Keeping,
};
pub use op::Op;
