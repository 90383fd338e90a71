//! A call that is started and runs to its end.

ghost use Rattle.named.specs.Brokers.{IsWell};
ghost use Rattle.named.specs.GoingOn.{BrokerGoesOn};
ghost use Rattle.named.specs.Looking.{IsOpenTo};
ghost use Rattle.named.specs.Promises.{KeepsPromises};
ghost use Rattle.session.specs.Requests.{IsRun};

use arena::SlotId;
use named::Broker;
use words::{Call, Client, Refusal, Reply};

/// How many acts a call is that runs to its end: its start, and its going on alone.
const ACTS_OF_A_CALL: usize = 2;

/// A client's call is started and goes on alone until it answers. Room is made first for all of it: a call that stopped
/// half way for want of memory would leave its client in doubt. The client was admitted, and the slot is open.
pub(crate) fn run(
    broker: &mut Broker,
    client: Client,
    queue: SlotId,
    number: u64,
    call: Call,
) -> Result<Reply, Refusal>
    requires well { IsWell broker.old }
    requires open { IsOpenTo broker.old queue.0 client }
    ensures run { IsRun broker.old broker.new queue.0 client number call result }
    ensures goes_on { BrokerGoesOn broker.old broker.new }
    ensures promises { KeepsPromises broker.new }
{
    broker.reserve(queue, ACTS_OF_A_CALL)?;
    broker.start_open(queue, client, number, call)?;
    let (reply, _steps) = broker.run_open(queue, client)?;
    Ok(reply)
}
