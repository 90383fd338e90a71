//! The durable queue: after a crash it tells each client what became of its last dequeue.

ghost use Rattle.std.specs.Prelude.{◌≡◌, ◌≤◌, slice_get};
ghost use Rattle.interleave.specs.DurableQueue.{no_calls, row_of};

use std::marker::Model;
use words::{Client, MAX_CLIENTS, Reports, Row, Told};

/// What a durable queue tells its clients: at first what the base tells, then what the last recovery read.
#[derive(Clone, Copy)]
pub struct DurableQueue {
    told: Reports,
}

impl Model for DurableQueue {
    ghost use Rattle.std.specs.Prelude.{List};
    ghost use Rattle.words.specs.declared.told.Told.{Told};

    ghost Value = { List Told };

    ghost view = { λ q. q.told };

    ghost inverse = { λ told. record { told = told } };
}

impl DurableQueue {
    /// A queue of so many clients, none of which has called.
    pub(crate) fn new(clients: u32) -> Self
        requires { clients ≤ MAX_CLIENTS }
        ensures { result ≡ no_calls clients }
    {
        let mut told = [Told::None; MAX_CLIENTS];
        for client in 0..clients as usize {
            told[client] = Told::Row(Row::NoCall);
        }
        DurableQueue { told }
    }

    /// A queue whose clients are told this.
    pub(crate) fn recovered(told: Reports) -> Self
        ensures { result ≡ told }
    {
        DurableQueue { told }
    }

    /// What each client is told.
    pub(crate) fn told(&self) -> &Reports
        ensures { result.now ≡ self.now }
    {
        &self.told
    }

    /// What a client's row said when it was last read. A client that there is not has called nothing.
    pub(crate) fn row(&self, client: Client) -> Row
        ensures { result ≡ row_of (slice_get self.now client.0) }
    {
        match self.told.get(client.0 as usize) {
            Some(Told::Row(row)) => *row,
            _ => Row::NoCall,
        }
    }
}
