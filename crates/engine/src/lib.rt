//! Requests a line, answers a line, between a reader, a writer and a desk.
#![tactic(auto)]

mod desk;
mod failure;
mod filling;
mod input;
mod limits;
mod lines;
mod output;
mod reading;
mod reply;
mod serving;

pub use desk::Desk;
pub use failure::Failure;
pub use limits::MAX_LINE;
pub use reading::Reading;
pub use reply::Reply;
pub use serving::serve;
