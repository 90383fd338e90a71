//! The world: one queue, its memory, and any number of clients whose calls go on by single steps.
#![tactic(auto)]

mod acts;
mod alone;
mod calls;
mod content;
mod crashing;
mod durable;
mod effects;
mod evicting;
mod laws;
mod lent;
mod logqueue;
mod notice;
mod ported;
mod queue;
mod rotating;
mod starting;
mod steps;
mod trace;
mod world;

pub use acts::{Act, Ran};
pub use durable::DurableQueue;
pub use laws::{
    acts_with_room_are_made, calls_alone_are_served, histories_go_on, kept_words_tell,
    kept_words_tell_rightly, numbers_are_new, one_access_an_act, one_event_an_act,
    steps_stay_in_range,
};
pub use lent::Core;
pub use logqueue::LogQueue;
pub use queue::Queue;
pub use world::World;
