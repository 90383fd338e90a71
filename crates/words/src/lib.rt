//! The words of the broker: who calls, what is asked, answered, told and refused.
#![tactic(auto)]

mod call;
mod item;
mod limits;
mod refusal;
mod told;

pub use call::{Call, Client, Kind, NodeId, Reply, Token, Value};
pub use item::{ITEM_BYTES, Item, items_are_found_again};
pub use limits::{
    MAX_CALL_NUMBER, MAX_CLIENTS, MAX_RECORD_NUMBER, MAX_RECORDS, MAX_STEPS_ALONE, QUEUE_PORTS,
    RECOVERY_PORT, Reports, STEPS_BESIDES, STEPS_PER_CLIENT, STEPS_PER_RECORD,
};
pub use refusal::{Refusal, Rule};
pub use told::{Outcome, Row, Told, Verdict};
