//! A broker served over connections, in memory or with a journal of what is done, and over a reader and a writer with a
//! journal; and what holds of every restart.
#![tactic(auto)]

mod connections;
mod ending;
mod greeting;
mod inbox;
mod lasting_broker;
mod lasting_net;
mod lasting_pipe;
mod laws;
mod listening;
mod rounds;
mod seen;
mod stopping;
mod telling;

pub use lasting_net::net_lasting;
pub use lasting_pipe::pipe_lasting;
pub use laws::{
    lives_go_on, replies_outlast_restarts, restarts_go_on, settled_numbers_outlast_restarts,
    told_replies_outlast_restarts,
};
pub use listening::{Entrance, Service, net};
