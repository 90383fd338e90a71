//! What is known of the calls on a queue, and why no order explains it: four patterns, and the function that judges
//! them.
#![tactic(auto)]

mod agreeing;
mod distinct;
mod explaining;
mod fact;
mod facts;
mod judging;
mod known;
mod lacking;
mod laws;
mod of_queue;
mod preceding;
mod rank;
mod recorded;
mod replaying;
mod witness;

pub use explaining::explains_findings;
pub use fact::{Fact, RankedCall, RankedReply};
pub use facts::{Facts, Findings};
pub use judging::refutes;
pub use known::{puts_at, returned_reply};
pub use laws::{
    few_clients_are_recorded, findings_are_fillings, patterns_refute,
    recordings_have_an_order_or_a_pattern, recordings_have_an_order_without_patterns,
    witnesses_show_patterns,
};
pub use of_queue::is_of_queue;
pub use rank::{rank_of, ranked};
pub use recorded::is_recorded;
pub use witness::{Ahead, Lack, Piece, Since, Witness};
