//! What clients are about.

ghost use Rattle.std.specs.Prelude.{◌≡◌};
ghost use Rattle.recording.specs.Reading.{crashed};

/// What a client is about.
#[derive(Clone, Copy)]
pub(crate) enum State {
    /// It has called nothing, or its last call is over.
    Idle,
    /// This call is under way.
    Calls(usize),
    /// It gave up on this call, and no crash has come since.
    GaveUp(usize),
    /// A crash interrupted this call.
    Interrupted(usize),
}

impl State {
    /// What it is about after a crash.
    pub(crate) fn crashed(self) -> State
        ensures { result ≡ crashed self }
    {
        match self {
            State::Calls(call) | State::GaveUp(call) => State::Interrupted(call),
            other => other,
        }
    }
}
