//! The numbers of a broker that is served, as Prometheus reads them and as JSON.
#![tactic(auto)]

mod numbers;
mod objects;
mod samples;

pub use numbers::{BrokerGauges, Gauges, JournalGauges, Keeping, QueueGauges};
pub use objects::stats_text;
pub use samples::metrics_text;
