//! Rows that only grow, and witnesses of them. A keeper, which mostly lies under a lock, knows the row. Each witness,
//! which goes about with a thread, knows a beginning of it for good: so what is true of each entry of the row is true
//! of those that a witness knows.
//!
//! The row exists in proofs alone, and its entries are only looked at, so that they may be ones that cannot be copied.
//! At run time it is one word, which stays 0, and a token has no bytes.
#![tactic(auto)]

mod law;
mod mark;
mod row;

pub use law::View;
pub use mark::{Mark, Teller};
pub use row::{Row, Token};
