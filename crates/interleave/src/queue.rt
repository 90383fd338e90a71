//! What a queue keeps for its clients beside its memory, by its kind.

ghost use Rattle.std.specs.Prelude.{◌≡◌, ◌<◌, ◌≤◌, Ok, Err};
ghost use Rattle.interleave.specs.Booted.{queue_at_boot};
ghost use Rattle.interleave.specs.Rotation.{queue_with_told};
ghost use Rattle.interleave.specs.Queue.{new_queue, told_in, number_check, after_return, queue_with_reports};

use crate::durable::DurableQueue;
use crate::logqueue::LogQueue;
use events::copied;
use words::{Client, Kind, MAX_CLIENTS, Refusal, Reports};

/// What a queue keeps for its clients, by its kind.
#[derive(Clone, Copy)]
pub enum Queue {
    Durable(DurableQueue),
    Log(LogQueue),
}

impl Queue {
    /// That of a new queue.
    pub(crate) fn new(kind: Kind, clients: u32) -> Self
        requires { clients ≤ MAX_CLIENTS }
        ensures { result ≡ new_queue kind clients }
    {
        match kind {
            Kind::Durable => Queue::Durable(DurableQueue::new(clients)),
            Kind::Log => Queue::Log(LogQueue::new()),
        }
    }

    /// That of a queue whose clients are told this.
    pub(crate) fn at_boot(kind: Kind, told: Reports) -> Self
        ensures { result ≡ queue_at_boot kind told }
    {
        match kind {
            Kind::Durable => Queue::Durable(DurableQueue::recovered(told)),
            Kind::Log => Queue::Log(LogQueue::recovered(told)),
        }
    }

    /// What each client was last told.
    pub(crate) fn told(&self) -> Reports
        ensures { result ≡ told_in self.now }
    {
        match self {
            Queue::Durable(queue) => copied(queue.told()),
            Queue::Log(queue) => copied(queue.told()),
        }
    }

    /// The number that a call has in the history: a durable queue ignores it. A log queue refuses a stale one.
    pub(crate) fn number(&self, client: Client, number: u64) -> Result<u64, Refusal>
        requires { client.0 < MAX_CLIENTS }
        ensures { result ≡ number_check self.now client number }
    {
        match self {
            Queue::Durable(_) => Ok(0),
            Queue::Log(queue) => {
                if queue.is_stale(client, number) {
                    Err(Refusal::StaleNumber)
                } else {
                    Ok(number)
                }
            }
        }
    }

    /// Recovery told its clients this.
    pub(crate) fn recovered(&mut self, told: Reports)
        ensures { self.new ≡ queue_with_reports self.old told }
    {
        *self = match self {
            Queue::Durable(_) => Queue::Durable(DurableQueue::recovered(told)),
            Queue::Log(_) => Queue::Log(LogQueue::recovered(told)),
        };
    }

    /// Where a history begins anew its clients are told this, and the floors of their numbers stay.
    pub(crate) fn tell(&mut self, told: Reports)
        ensures { self.new ≡ queue_with_told self.old told }
    {
        match self {
            Queue::Durable(queue) => *queue = DurableQueue::recovered(told),
            Queue::Log(queue) => queue.tell(told),
        }
    }

    /// Notes that a call of this number was answered.
    pub(crate) fn returned(&mut self, client: Client, number: u64)
        requires { client.0 < MAX_CLIENTS }
        ensures { self.new ≡ after_return self.old client number }
    {
        match self {
            Queue::Durable(_) => {}
            Queue::Log(queue) => queue.returned(client, number),
        }
    }
}
