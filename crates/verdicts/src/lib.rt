//! The verdict on a recording, as text and as a page.
#![tactic(auto)]

mod page;
mod texts;

pub use page::page_of;
pub use texts::{print_order, verdict, verdict_of_repeated};
