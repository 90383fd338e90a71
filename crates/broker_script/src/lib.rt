//! Scripts of a whole broker: the script that a text says, and what a broker prints that follows it.
#![tactic(auto)]

mod asking;
mod calling;
mod creating;
mod imaging;
mod parser;
mod play;
mod player;
mod recovering;
mod renewing;
mod running;
mod script;
mod whole;

pub use asking::asker;
pub use parser::parse_script;
pub use play::transcript;
pub use player::Player;
pub use running::{read_script, run};
pub use script::Script;
