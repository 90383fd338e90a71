//! What the records of a renewed queue are for.

ghost use Rattle.std.specs.Prelude.{◌≡◌};
ghost use Rattle.arena.specs.Place.{IsNode};
ghost use Rattle.renewal.specs.Roles.{IsRole, role_of};

use arena::Layout;
use words::Client;

/// What a node or a record of a renewed queue is for.
#[derive(Clone, Copy)]
pub(crate) enum Role {
    /// Node 0.
    Sentinel,
    /// The client's first record: for the call that it was told of, if that had a node.
    First(Client),
    /// Its second record: for a dequeue that it was told of, and for the claim of the first.
    Second(Client),
    /// For the item at this place, if the queue holds as many.
    Item(usize),
}

/// What this node or record is for.
pub(crate) fn role_of(layout: &Layout, number: u32) -> Role
    requires { IsNode layout.now number }
    ensures role { result ≡ role_of layout.now number }
    ensures client { IsRole layout.now result }
{
    if number == 0 {
        return Role::Sentinel;
    }
    let (clients, records) = (layout.clients(), layout.records());
    let client = Client(((number - 1) / records) as u8);
    match (number - 1) % records {
        0 => Role::First(client),
        1 => Role::Second(client),
        record => Role::Item((record as usize - 2) * clients as usize + client.0 as usize),
    }
}
