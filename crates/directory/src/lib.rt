//! The directory of a broker: which slots have a queue, of which name and kind; how a queue is created, and how the
//! directory is read again after a crash.
#![tactic(auto)]

mod creation;
mod laws;
mod limits;
mod name;
mod places;
mod queue;
mod recovery;
mod slots;
mod soundness;

pub use creation::{Creation, CreationPoint, SlotWord};
pub use laws::{
    blocks_stay, creations_begin, creations_crash, creations_end, creations_go_on, creations_stay,
    directories_are_sound, directories_begin, directories_stay, directories_stay_before_blocks,
    heads_stay, recoveries_begin, recoveries_end, recoveries_go_on, recoveries_stay,
};
pub use limits::{CREATION_STEPS, MAX_DIRECTORY_STEPS, MIN_DIRECTORY_STEPS};
pub use name::{NAME_BYTES, Name, words_spell_names};
pub use queue::{Places, Queue};
pub use recovery::{DirectoryPoint, DirectoryRecovery, Recovered};
pub use slots::Directory;
pub use soundness::{KeptBroker, sound, sound_in};
