//! What may be asked of `pqd` and of `pqx`, and what a parse that clap made asks.
#![tactic(auto)]

mod address;
mod asked;
mod journaling;
mod limits;
mod line;
mod number;
mod pqx;
mod pqx_line;

pub use asked::{
    Asked, FileJournal, Journaling, Listening, LogJournal, Mode, Options, Printing, Syncing, Taking,
};
pub use limits::{
    DEFAULT_CLIENTS, DEFAULT_CONNECTIONS, DEFAULT_DRAW, DEFAULT_PATIENCE, DEFAULT_PORT,
    DEFAULT_RECORDS, DEFAULT_STATS_PORT, DEFAULT_WAITING_WORKERS, DEFAULT_WORKERS, MAX_CONNECTIONS,
    MAX_DRAW, MAX_IDLE, MAX_PATIENCE, MAX_PORT, MAX_WORKERS, limits_are_fixed,
};
pub use line::asked_in;
pub use number::Misfit;
pub use pqx::{BrokerPointOptions, CheckOptions, Choice, PointOptions, PqxAsked, RunOptions};
pub use pqx_line::{PqxMisfit, pqx_asked_in, text_of};
