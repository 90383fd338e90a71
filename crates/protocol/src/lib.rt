//! The queue as a machine over places: what holds at every moment, in every interleaving.
#![tactic(auto)]

mod acts;
mod laws;

pub use acts::Act;
use helping::Op;
pub use laws::{
    a_call_alone_ends, a_queue_begins_on_sound_words, equal_words_tell_the_same,
    every_history_is_explained, it_tells_what_it_began_with, its_recovery_ends,
    kept_words_are_sound, kept_words_are_told, no_node_stands_twice, nothing_is_taken_back,
    recovery_changes_nothing_held, recovery_changes_nothing_told, recovery_ends,
    told_by_the_words_of_the_crash, what_is_kept_may_be_begun_on, what_it_keeps_may_be_begun_on,
    what_its_recovery_leaves, what_recovery_leaves,
};
use stepper::Begun;

/// A call under way.
#[derive(Clone, Copy)]
pub struct UnderWay {
    /// Where its Call stands in the history.
    pub place: usize,
    pub begun: Begun,
    /// Where it waits.
    pub op: Op,
}

/// A record that a call took.
#[derive(Clone, Copy)]
pub struct Issued {
    /// Where the Call stands in the history.
    pub place: usize,
    pub begun: Begun,
}
