//! Resumable step machines: what waits, and goes on by one access to the memory.
#![tactic(auto)]

mod loading;
mod places;
mod prepare;
mod resume;

pub use loading::Loading;
pub use places::{cas_at, fence_at, flush_at, load_at, store_at};
pub use prepare::{Begun, Prepare, PrepareFence, PrepareFlush, PrepareStore, Prepared};
pub use resume::{After, Points, Resume, Stepped};
