//! What the lines of a whole broker's script say, and the lines of its transcript.
#![tactic(auto)]

mod adding;
mod laws;
mod lines;
mod printed;
mod rows;
mod statements;

pub use adding::add_line;
pub use laws::one_script_a_text;
pub use lines::{Room, append, labelled, one, one_line, refused, text, unfollowed};
pub use printed::Printed;
pub use rows::is_whole;
pub use statements::{Ask, BrokerLine, Statement};
