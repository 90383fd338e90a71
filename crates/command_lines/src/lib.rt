//! The command lines of `pqd` and of `pqx`: their commands for clap, what the words of one ask, and how a program ends
//! that cannot do it.
#![tactic(auto)]

mod commands;
mod help;
mod line;
mod pqx_commands;
mod pqx_line;
mod program;

pub use line::command_line;
pub use pqx_line::pqx_command_line;
pub use program::{ended, explained, refusal_of, words};
