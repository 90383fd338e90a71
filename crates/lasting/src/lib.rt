//! What a shared session leaves in a storage: the changes of kept words that it hands on are appended to a journal, a batch
//! each time. So whatever a stop of the machine leaves of the journal is read as the kept words of a moment. A journal is
//! kept by a policy, and another one of its words takes its place where the storage fails or it has grown long.
#![tactic(auto)]

mod beginning;
mod counts;
mod journaled;
mod laws;
mod policy;
mod settler;
mod settling;
mod shared_journal;

pub use beginning::first_words;
pub use counts::JournalCounts;
pub use journaled::Journaled;
pub use laws::{
    firsts_are_moments, settled_stands_there, stops_leave_a_moment, stops_leave_what_was_assured,
};
pub use policy::Policy;
pub use settler::Settler;
pub use settling::Settling;
pub use shared_journal::SharedJournal;
