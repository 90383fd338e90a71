//! What a call passes between two of its steps.

use std::sync::Wait;
use words::Client;

/// What a call passes between two of its steps, while no lock is held: other threads may act meanwhile, and the gate
/// may wait for them. A gate that never returns leaves the call under way until a crash. Tests hold a call back by one.
pub trait Gate {
    /// The client's call has made so many steps, and has not answered: 0 after its start. The count stays at `u32::MAX`.
    fn pass<R: Wait>(&self, rt: &R, client: Client, steps: u64);
}

/// A gate that holds nobody back.
#[derive(Clone, Copy, Debug)]
pub struct OpenGate;

impl Gate for OpenGate {
    fn pass<R: Wait>(&self, _rt: &R, _client: Client, _steps: u64) {}
}
