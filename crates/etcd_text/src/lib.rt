//! The texts by which a log is kept in etcd: what it is asked for, in JSON over HTTP, and what it answers.
#![tactic(auto)]

mod answer;
mod keys;
mod laws;
mod request;
mod tail;
mod texts;

pub use answer::{Answer, Unread, answer_in};
pub use laws::tails_have_one_spelling;
pub use request::Request;
pub use tail::{Tail, append_tail, tail_in};
pub use texts::append_text;
