//! The log is taken, and its text is read.

ghost use Rattle.std.specs.Prelude.{◌≡◌, IfOk, OnOk, option_map};
ghost use Rattle.fenced.specs.Requests.{Take, taken};
ghost use Rattle.etcd_text.specs.Tails.{said_by};
ghost use Rattle.etcd_log.specs.Asking.{AreSame, IsDone};
ghost use Rattle.etcd_log.specs.Logged.{HasPieces, HasTail, IsSeen};

use crate::deciding::{Undone, decide};
use crate::exchange::Exchange;
use crate::questions::{ask_piece, ask_tail};
use etcd_text::{Request, Tail, tail_in};
use std::alloc::Global;

/// What the text of a tail says, if there is one.
fn seen_in(found: &Option<Vec<u8>>) -> Result<Option<Tail>, Undone>
    ensures { IfOk result (λ seen. IsSeen found.now (option_map said_by seen)) }
{
    let Some(text) = found else {
        return Ok(None);
    };
    match tail_in(text) {
        Some(tail) => Ok(Some(tail)),
        None => Err(Undone::BadAnswer),
    }
}

/// The tail of whoever takes the log that has this tail.
fn taken<'a>(seen: &Option<Tail>, owner: &'a [u8]) -> Tail<'a>
    ensures { said_by result ≡ taken (option_map said_by seen.now) owner.now }
{
    match seen {
        None => Tail {
            generation: 1,
            count: 0,
            owner,
        },
        Some(tail) => Tail {
            generation: tail.generation,
            count: tail.count,
            owner,
        },
    }
}

/// Takes the log that has this tail.
fn take_from<'a, X: Exchange>(
    exchange: &mut X,
    seen: Option<Tail<'a>>,
    owner: &'a [u8],
) -> Result<(), Undone>
    ensures { OnOk result
        (IsDone (Take (option_map said_by seen.entry) owner.now) (X.engine exchange.old) (X.engine exchange.new)) }
{
    let next = taken(&seen, owner);
    let request = Request::Take { seen, owner };
    match decide(exchange, &request, &Some(next), owner) {
        Ok(()) => Ok(()),
        Err(undone) => Err(undone),
    }
}

/// The log becomes this owner's, with all that it has. The name was drawn for this one taking. It answers the
/// generation in use, and how many pieces that has.
pub(crate) fn take<X: Exchange>(exchange: &mut X, owner: &[u8]) -> Result<(u64, u64), Undone>
    ensures { IfOk result (λ at. HasTail (X.engine exchange.new)
        (record { generation = at.0; count = at.1; owner = owner.now })) }
{
    let found = match ask_tail(exchange) {
        Ok(found) => found,
        Err(undone) => return Err(undone),
    };
    let seen = match seen_in(&found) {
        Ok(seen) => seen,
        Err(undone) => return Err(undone),
    };
    let next = taken(&seen, owner);
    match take_from(exchange, seen, owner) {
        Ok(()) => Ok((next.generation, next.count)),
        Err(undone) => Err(undone),
    }
}

/// The bytes of the first pieces of a generation. It is refused where one is not there.
pub(crate) fn read<X: Exchange>(
    alloc: Global,
    exchange: &mut X,
    generation: u64,
    count: u64,
) -> Result<Vec<u8>, Undone>
    ensures text { IfOk result (λ text. HasPieces (X.engine exchange.new) generation count text.items) }
    ensures same { AreSame (X.engine exchange.old) (X.engine exchange.new) }
{
    let mut text = Vec::new(alloc);
    for number in 0..count {
        match ask_piece(exchange, generation, number) {
            Ok(Some(bytes)) => match text.extend_from_slice(&bytes) {
                Ok(()) => {}
                Err(_) => return Err(Undone::NoMemory),
            },
            Ok(None) => return Err(Undone::Missing),
            Err(undone) => return Err(undone),
        }
    }
    Ok(text)
}
