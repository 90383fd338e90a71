//! The file of a journal: its lock, what it has at the start, and how another one takes its place. It is kept by few calls
//! of a file system, of which there are two: the system's, and one in memory whose files are known.
#![tactic(auto)]

mod fault;
mod folder;
mod found;
mod laws;
mod memory;
mod store;
mod system;

pub use fault::Fault;
pub use folder::{FileName, Folder};
pub use found::{Found, found_in};
pub use laws::stops_leave_a_beginning_there;
pub use memory::{Failing, MemoryFolder};
pub use store::Store;
pub use system::SystemFolder;
