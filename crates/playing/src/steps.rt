//! How many steps were made.

ghost use Rattle.std.specs.Prelude.{◌≡◌, ◌<◌, length, replicate, slice_index, slice_set};
ghost use Rattle.playing.specs.declared.steps.TheConstants.{CLIENT_NUMBERS};
ghost use Rattle.playing.specs.Steps.{count_after, call_counted, recovery_counted};

use words::Client;

/// How many numbers a client may have: a line names any byte, whatever clients the queue has.
pub const CLIENT_NUMBERS: usize = 256;

// A place for each number that a line may name: no client has to be looked for.
/// How many steps each client's call has made, and recovery since the last crash. A client's number is one byte.
#[derive(Drop)]
pub struct Steps {
    pub calls: [u64; CLIENT_NUMBERS],
    pub recovery: u64,
}

impl Steps {
    /// No step was made yet.
    pub fn new() -> Self
        ensures { result ≡ record { calls = replicate CLIENT_NUMBERS 0; recovery = 0 } }
    {
        Steps {
            calls: [0; CLIENT_NUMBERS],
            recovery: 0,
        }
    }

    /// A client begins a call.
    pub fn begin(&mut self, client: Client)
        ensures { self.new ≡ record self.old { calls = slice_set self.old.calls client.0 0 } }
    {
        self.calls[client.0 as usize] = 0;
    }

    /// Counts steps of a client's call, and answers how many it has made.
    pub fn go_on(&mut self, client: Client, more: u64) -> u64
        ensures count { result ≡ count_after more (slice_index self.old.calls client.0) }
        ensures steps { self.new ≡ call_counted more client self.old }
        ensures kept { client.0 < length self.old.calls }
    {
        let at = client.0 as usize;
        // A script is far from the greatest count: 1,000 lines of 1,000 steps.
        let count = self.calls[at].saturating_add(more);
        self.calls[at] = count;
        count
    }

    /// Recovery begins anew.
    pub fn crash(&mut self)
        ensures { self.new ≡ record self.old { recovery = 0 } }
    {
        self.recovery = 0;
    }

    /// Counts a step of recovery.
    pub fn recover(&mut self)
        ensures { self.new ≡ recovery_counted self.old }
    {
        self.recovery = self.recovery.saturating_add(1);
    }
}
