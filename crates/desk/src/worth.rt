//! For which calls, of those that found no room, their queue begins in fresh records.

ghost use Rattle.std.specs.Prelude.{◌≡◌, ◌<◌, ◌↔◌, IsTrue};
ghost use Rattle.desk.specs.Worth.{leaves_free, IsWorthIt};

use words::{Call, Client};
use workers::Usage;

/// How many records a client has left in fresh ones.
fn leaves_free(usage: Usage, client: Client) -> usize
    requires { client.0 < usage.clients }
    ensures { result ≡ leaves_free usage client.0 }
{
    let share = usage
        .items
        .saturating_sub(client.0 as usize)
        .div_ceil(usage.clients as usize);
    (usage.records as usize)
        .saturating_sub(2)
        .saturating_sub(share)
}

/// Whether the queue is to begin in fresh records for this call of a client. A queue that is nearly full is not renewed
/// for an enqueue, since each renewal would make room for a few more calls alone. It goes on for dequeues, as long as
/// the client has a record for each.
pub(crate) fn is_worth_it(usage: Usage, client: Client, call: &Call) -> bool
    requires { client.0 < usage.clients }
    ensures { IsTrue result ↔ IsWorthIt usage client call.now }
{
    match call {
        Call::Enq(_) => {
            let free = leaves_free(usage, Client(0));
            free >= 1 && free >= usage.records as usize / 8
        }
        Call::Deq => leaves_free(usage, client) >= 1,
    }
}
