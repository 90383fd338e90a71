//! What makes a log safe whose pieces lie in an engine that other machines use too: each request that changes it names
//! the tail that its sender knows, and does nothing where the tail is another one. So of two owners one alone goes on,
//! and a request that comes late or twice does no harm. Neither a clock nor a lease is in it.
#![tactic(auto)]

mod laws;

pub use laws::{
    answered_is_there, confirmed_is_current, doubles_are_nothing, tails_never_return,
    taken_is_final, taker_reads,
};
