//! The seat of the only client of a shared session.

ghost use Rattle.std.specs.Prelude.{◌≡◌, IfOk, IfSome};
ghost use Rattle.workers.specs.Seats.{AreAllInOrder};

use crate::again::{MOST_TRIES, empty_text};
use directory::Name;
use std::fmt::Write;
use std::sync::Wait;
use words::{Client, Refusal};
use workers::{Entry, Naming, Seat, Shared};

/// The only client.
pub(crate) const CLIENT: Client = Client(0);

/// The names of the two queues.
pub(crate) static LOG: &[u8] = b"a";

pub(crate) static DURABLE: &[u8] = b"b";

/// The only seat.
pub(crate) fn only<J: Naming>(mut seats: Vec<Seat<J>>) -> Option<Seat<J>>
    requires { AreAllInOrder (λ seat. seat.client) J.clients seats.items }
    ensures { IfSome result (λ seat. (seat.client ≡ record { 0 = 0 }) × (J.clients ≡ 1)) }
{
    if seats.len() != 1 {
        return None;
    }
    seats.pop()
}

/// All seats, of which there is one. The room for it is asked for again where it was refused.
pub(crate) fn all<J: Naming, R: AllocGlobal>(rt: &R, seat: Seat<J>) -> Result<Vec<Seat<J>>, Refusal>
    requires client { seat.client ≡ record { 0 = 0 } }
    requires clients { J.clients ≡ 1 }
    ensures { IfOk result (λ seats. AreAllInOrder (λ seat. seat.client) J.clients seats.items) }
{
    for _ in 0..MOST_TRIES {
        let mut seats = Vec::new(rt.alloc());
        if seats.reserve(1).is_ok() {
            seats.push_reserved(seat);
            return Ok(seats);
        }
    }
    Err(Refusal::NoMemory)
}

/// What can be seen of a shared session while it is shared, and the list of the seat.
pub(crate) fn seen_beside<J: Naming, R: Wait + AllocGlobal>(
    rt: &R,
    shared: &Shared<J>,
    list: &[Entry],
) -> Result<String, Refusal> {
    let mut text = empty_text(rt.alloc())?;
    let (mark, queues) = shared.list(rt, shared.mark_now(rt));
    let (mark, numbered) = shared.told(rt, CLIENT, &Name::make(LOG)?, mark);
    let (_mark, plain) = shared.told(rt, CLIENT, &Name::make(DURABLE)?, mark);
    write!(text, "{queues:?} {numbered:?} {plain:?} {list:?}").map_err(|_| Refusal::NoMemory)?;
    Ok(text)
}
