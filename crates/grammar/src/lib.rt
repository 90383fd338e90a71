//! The grammar of scripts: the lines of a text, what each says, and the script that they say together.
#![tactic(auto)]

mod commands;
mod laws;
mod limits;
mod line;
mod lines;
mod parser;
mod rows;
mod script;

pub use commands::{Command, QueueLine};
pub use laws::one_script_a_text;
pub use limits::{
    CLIENT, CLIENTS, Limits, MAX_CLIENT_NUMBER, MAX_LINES, MAX_STEPS, NUMBER, RECORDS, STEPS,
};
pub use line::{
    after_name, first_word, is_name, number_and_value, numbers_and_value, one_number, one_value,
    two_numbers,
};
pub use lines::{is_skipped, without_last_newline};
pub use parser::parse_script;
pub use rows::{command, is_on, is_shown, kind, queue_line};
pub use script::Script;
