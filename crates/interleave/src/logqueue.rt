//! The log queue: after a crash it tells each client what became of its last announced call. Calls have
//! numbers, which rise.

ghost use Rattle.std.specs.Prelude.{◌≡◌, ◌<◌, slice_get, slice_index, slice_set};
ghost use Rattle.interleave.specs.LogQueue.{new_queue, told_queue, verdict_of, floor_of, is_stale};

use std::marker::Model;
use words::{Client, MAX_CALL_NUMBER, MAX_CLIENTS, Outcome, Reports, Told, Verdict};

/// What a log queue tells its clients, at first what the base tells and then what the last recovery read,
/// and the floor of each client's numbers.
#[derive(Clone, Copy)]
pub struct LogQueue {
    told: Reports,
    floors: [u64; MAX_CLIENTS],
}

impl Model for LogQueue {
    ghost use Rattle.interleave.specs.LogQueue.{LogClients};

    ghost Value = { LogClients };

    ghost view = { λ q. record { told = q.told; floors = q.floors } };

    ghost inverse = { λ q. record { told = q.told; floors = q.floors } };
}

impl LogQueue {
    /// A queue whose clients announced nothing yet.
    pub(crate) fn new() -> Self
        ensures { result ≡ new_queue }
    {
        LogQueue {
            told: [Told::None; MAX_CLIENTS],
            floors: [0; MAX_CLIENTS],
        }
    }

    /// A queue whose clients are told this. Each one's floor is the number of a call that took effect, or
    /// below that of one that did not.
    pub(crate) fn recovered(told: Reports) -> Self
        ensures { result ≡ told_queue told }
    {
        let mut floors = [0; MAX_CLIENTS];
        for client in 0..MAX_CLIENTS {
            floors[client] = floor(told[client]);
        }
        LogQueue { told, floors }
    }

    /// Clients are told this from now on, and their floors stay: where a history begins anew.
    pub(crate) fn tell(&mut self, told: Reports)
        ensures { self.new ≡ record self.old { told = told } }
    {
        self.told = told;
    }

    /// What each client is told.
    pub(crate) fn told(&self) -> &Reports
        ensures { result.now ≡ self.now.told }
    {
        &self.told
    }

    /// The verdict that a client was last told, if it was told one.
    pub(crate) fn verdict(&self, client: Client) -> Option<Verdict>
        ensures { result ≡ verdict_of (slice_get self.now.told client.0) }
    {
        match self.told.get(client.0 as usize) {
            Some(Told::Verdict(verdict)) => Some(*verdict),
            _ => None,
        }
    }

    /// Whether a number may not begin a call: it is 0, above the greatest, or not above the client's floor.
    pub(crate) fn is_stale(&self, client: Client, number: u64) -> bool
        requires { client.0 < MAX_CLIENTS }
        ensures { result ≡ is_stale (slice_index self.now.floors client.0) number }
    {
        number == 0 || number > MAX_CALL_NUMBER || number <= self.floors[client.0 as usize]
    }

    /// Raises a client's floor to the number of a call that was answered.
    pub(crate) fn returned(&mut self, client: Client, number: u64)
        requires { client.0 < MAX_CLIENTS }
        ensures { self.new ≡ record self.old { floors = slice_set self.old.floors client.0 number } }
    {
        self.floors[client.0 as usize] = number;
    }
}

/// The floor that a client has after it was told this.
fn floor(told: Told) -> u64
    ensures { result ≡ floor_of told }
{
    match told {
        Told::Verdict(verdict) => match verdict.outcome {
            Outcome::Taken(_) => verdict.number,
            Outcome::NotTaken => verdict.number.saturating_sub(1),
        },
        _ => 0,
    }
}
