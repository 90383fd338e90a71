//! The seats of one client and of two, taken apart and put together.

ghost use Rattle.std.specs.Prelude.{◌≡◌, IfOk, IfSome};
ghost use Rattle.workers.specs.Seats.{AreAllInOrder};

use std::alloc::{AllocError, Global};
use workers::{Naming, Seat};

/// The seat of the only client.
pub(crate) fn only<J: Naming>(mut seats: Vec<Seat<J>>) -> Option<Seat<J>>
    requires { AreAllInOrder (λ seat. seat.client) J.clients seats.items }
    ensures { IfSome result (λ seat. (seat.client ≡ record { 0 = 0 }) × (J.clients ≡ 1)) }
{
    if seats.len() != 1 {
        return None;
    }
    seats.pop()
}

/// The seats of one client.
pub(crate) fn alone<J: Naming>(alloc: Global, seat: Seat<J>) -> Result<Vec<Seat<J>>, AllocError>
    requires client { seat.client ≡ record { 0 = 0 } }
    requires clients { J.clients ≡ 1 }
    ensures { IfOk result (λ seats. AreAllInOrder (λ seat. seat.client) J.clients seats.items) }
{
    let mut seats = Vec::new(alloc);
    seats.push(seat)?;
    Ok(seats)
}

/// The seats of two clients.
pub(crate) fn taken_apart<J: Naming>(mut seats: Vec<Seat<J>>) -> Option<(Seat<J>, Seat<J>)>
    requires { AreAllInOrder (λ seat. seat.client) J.clients seats.items }
    ensures { IfSome result (λ r. (r.0.client ≡ record { 0 = 0 }) × (r.1.client ≡ record { 0 = 1 }) × (J.clients ≡ 2)) }
{
    if seats.len() != 2 {
        return None;
    }
    let one = seats.pop()?;
    let zero = seats.pop()?;
    Some((zero, one))
}

/// The seats of two clients, in their order.
pub(crate) fn put_together<J: Naming>(
    alloc: Global,
    zero: Seat<J>,
    one: Seat<J>,
) -> Result<Vec<Seat<J>>, AllocError>
    requires zero { zero.client ≡ record { 0 = 0 } }
    requires one { one.client ≡ record { 0 = 1 } }
    requires clients { J.clients ≡ 2 }
    ensures { IfOk result (λ seats. AreAllInOrder (λ seat. seat.client) J.clients seats.items) }
{
    let mut seats = Vec::new(alloc);
    seats.push(zero)?;
    seats.push(one)?;
    Ok(seats)
}
