//! How a shared broker begins, and what it leaves.

ghost use Rattle.std.specs.Prelude.{◌≡◌, ◌⊎◌, ℕ, IfErr, IfOk};
ghost use Rattle.session.specs.Sessions.{IsUncalled};
ghost use Rattle.workers.specs.Opening.{IsInUse, IsNameOf};
ghost use Rattle.workers.specs.Seats.{AreAllInOrder};
ghost use Rattle.serving.specs.Image.{IsBusyOrNoMemory, IsOpenedOver};
ghost use Rattle.server.specs.Worked.{AreKnown, IsImageServed, all_told};

use named::Broker;
use seating::Seating;
use session::Session;
use std::alloc::Global;
use words::Refusal;
use workers::{Marked, Naming, Opened, Operator, Seat, Shared};

/// A session over the broker, for connections to share. It is refused where a call or a creation is under way (Busy),
/// and for want of memory (NoMemory).
pub(crate) fn shareable(alloc: Global, broker: Broker) -> Result<Opened, Refusal>
    requires { IsUncalled broker }
    ensures opened { IfOk result (λ opened. IsOpenedOver broker opened.session) }
    ensures errors { IfErr result (λ e. (e ≡ Refusal.NoMemory) ⊎ ((e ≡ Refusal.Busy) × IsInUse broker)) }
{
    match Opened::new(alloc, Session::open(broker)) {
        Ok(opened) => Ok(opened),
        Err(not) => Err(not.refusal),
    }
}

/// The seats of a shared broker, for connections, which begin queues in fresh records if that is said. It is refused for
/// want of memory (NoMemory).
pub(crate) fn seated<J: Naming>(
    alloc: Global,
    seats: Vec<Seat<J>>,
    operator: Operator<J>,
    renew: bool,
) -> Result<Seating<J>, Refusal>
    requires { AreAllInOrder (λ seat. seat.client) J.clients seats.items }
    ensures { IfErr result (λ e. e ≡ Refusal.NoMemory) }
{
    let seating = Seating::new(alloc, seats, operator)?;
    if renew {
        return Ok(seating.renewing());
    }
    Ok(seating)
}

/// A broker that connections share, and its seats, once it has its name. It is refused for want of memory (NoMemory).
pub(crate) fn shared_seats<J: Naming>(
    alloc: Global,
    opened: Opened,
    renew: bool,
) -> Result<(Shared<J>, Seating<J>), Refusal>
    requires { IsNameOf J.roll J.clients J.first opened }
    ensures { IfErr result (λ e. e ≡ Refusal.NoMemory) }
{
    let (shared, seats, operator) = match opened.named::<J>(alloc) {
        Ok(named) => named,
        Err(not) => return Err(not.refusal),
    };
    match seated(alloc, seats, operator, renew) {
        Ok(seats) => Ok((shared, seats)),
        Err(refusal) => Err(refusal),
    }
}

/// The image of the broker that connections shared, once they have all ended, each of whose replies was so up to one of
/// these marks. It is refused for want of memory (NoMemory), and where a seat is in use (Busy), which is so of none then.
pub(crate) fn image_left<J: Naming>(
    alloc: Global,
    shared: Shared<J>,
    seats: Seating<J>,
    workers: u32,
    marks: Vec<Marked<J>>,
) -> Result<Vec<u8>, Refusal>
    requires opened { IsOpenedOver J.first.broker J.first }
    requires clients { J.clients ≡ J.first.broker.counts.clients }
    requires marks { AreKnown all_told J.clients J.first workers marks.items }
    ensures image { IfOk result (λ bytes. IsImageServed J.first.broker workers bytes.items) }
    ensures errors { IfErr result IsBusyOrNoMemory }
{
    let (seats, operator) = seats.into_parts(alloc)?;
    let session = shared.close_with(seats, operator, marks);
    session.broker().to_image()
}
