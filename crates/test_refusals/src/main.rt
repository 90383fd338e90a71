//! A session that threads share, and to which memory is refused: what no script says of it, since no line of one rotates
//! the histories under a seat, or prints what a seat remembers. Each call that is refused is made again, and is to leave
//! all that can be seen as it was; then it answers what it would have answered. A call that is refused a step is left
//! unfinished, and gone on with. tests/memory.sh refuses each allocation in turn. Lines that begin with `again`,
//! `unfinished` or `busy` say what was refused.
#![tactic(auto)]

mod again;
mod brokers;
mod calls;
mod seats;
mod shareds;

use std::process::ExitCode;
use std::sync::Wait;

fn main(rt: HostRuntime) -> ExitCode {
    match shareds::tell(&rt) {
        Ok(()) => ExitCode::SUCCESS,
        Err(_) => ExitCode::FAILURE,
    }
}
