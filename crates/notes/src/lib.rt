//! Notes of changes of kept words. Room for the changes of an act is promised before the act, so that none of them is
//! lost for want of memory; and the notes are handed out, as a list of changes in the order of the acts.
#![tactic(auto)]

mod differences;
mod laws;
mod notes;

pub use laws::noted_changes_make_words;
pub use notes::Notes;
