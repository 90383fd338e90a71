//! The numbers of a broker that is served, for who asks by HTTP: as Prometheus reads them, as JSON, and as a page.
#![tactic(auto)]

mod answers;
mod asked;
mod asking;
mod exchange;
mod page;
mod scrapes;

pub use asked::{Asked, asked_by};
pub use asking::ask_stats;
pub use scrapes::{Watched, answer_scrapes};
