//! A desk that has its session for itself: what each request makes of the session, and what it is answered.
#![tactic(auto)]

mod answering;
mod beginning;
mod calls;
mod creating;
mod owned;
mod recovering;

pub use beginning::Beginning;
pub use owned::OwningDesk;
