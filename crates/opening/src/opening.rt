//! How a broker begins to serve.

ghost use Rattle.std.specs.Prelude.{◌≡◌, ◌↔◌, Err, IfErr, IfNone, IfOk, IfSome, OnOk};
ghost use Rattle.persist.specs.Image.{has_first_form};
ghost use Rattle.persist.specs.Memory.{Words};
ghost use Rattle.arena.specs.Limits.{AreBadRecords, AreCounts};
ghost use Rattle.named.specs.Brokers.{counts_of, IsNew};
ghost use Rattle.named.specs.Promises.{KeepsPromises};
ghost use Rattle.session.specs.Sessions.{IsUncalled};
ghost use Rattle.opening.specs.Opening.{AreBadClients, HasBegunFrom, HasBegunOn, IsOpened, IsOpenedBy};
ghost use Rattle.opening.specs.Opening.{IsRenewedBy, IsWhyNotRenewed, IsWhyUnmade, IsWhyUnopened};

use named::Broker;
use persist::{Memory, is_first_form};
use std::alloc::Global;
use words::Refusal;

/// The broker that an image keeps, as it begins to recover. Bytes that are no image are refused as
/// [`Memory::from_image`] says, an image as [`Broker::boot`] is. One of the first form is read by
/// [`Memory::from_image_v1`], and refused as [`Broker::migrate`] is.
fn begun(alloc: Global, image: &[u8]) -> Result<Broker, Refusal>
    ensures begun { IfOk result (HasBegunFrom (has_first_form image.now) image.now) }
    ensures errors { IfErr result (IsWhyUnopened (has_first_form image.now) image.now) }
    ensures promises { IfOk result KeepsPromises }
{
    if is_first_form(image) {
        return Broker::migrate(alloc, Memory::from_image_v1(alloc, image)?);
    }
    Broker::boot(alloc, Memory::from_image(alloc, image)?)
}

/// The broker once it has recovered, which began on some words. It is refused for want of memory alone (NoMemory).
pub(crate) fn recovered(start: Broker) -> Result<Broker, Refusal>
    requires begun { (ws : Words) × HasBegunOn ws start }
    requires kept { KeepsPromises start }
    ensures opened { IfOk result (λ broker. (ws : Words) → HasBegunOn ws start → IsOpened ws broker) }
    ensures errors { IfErr result (λ e. e ≡ Refusal.NoMemory) }
    ensures uncalled { IfOk result IsUncalled }
    ensures promises { IfOk result KeepsPromises }
{
    let mut broker = start;
    while !broker.recover_step()? {}
    Ok(broker)
}

/// A broker with so many clients, and so many records of each client in each queue; or, where there is an image, the
/// broker that the image keeps, once it has recovered: it has as many as the image says. An image of the first form is
/// migrated. A new one is refused as [`Broker::make`] says. Bytes that are no image are refused as
/// [`Memory::from_image`] says. An image is refused where its words break a rule (Damaged, with the first such rule),
/// and for want of memory (NoMemory), which may come first.
pub fn opened(
    alloc: Global,
    clients: u32,
    records: u32,
    image: Option<&[u8]>,
) -> Result<Broker, Refusal>
    ensures made { IfNone image.entry (IfOk result (IsNew (counts_of clients records))) }
    ensures counts { IfNone image.entry (OnOk result (AreCounts clients records)) }
    ensures bad_clients { IfNone image.entry (result ≡ Err Refusal.BadClients ↔ AreBadClients clients) }
    ensures bad_records { IfNone image.entry (result ≡ Err Refusal.BadRecords ↔ AreBadRecords clients records) }
    ensures unmade { IfNone image.entry (IfErr result IsWhyUnmade) }
    ensures opened { IfSome image.entry (λ bytes. IfOk result (IsOpenedBy (has_first_form bytes.now) bytes.now)) }
    ensures unopened { IfSome image.entry (λ bytes.
        IfErr result (IsWhyUnopened (has_first_form bytes.now) bytes.now)) }
    ensures uncalled { IfOk result IsUncalled }
    ensures promises { IfOk result KeepsPromises }
{
    let Some(bytes) = image else {
        return Broker::make(alloc, clients, records);
    };
    recovered(begun(alloc, bytes)?)
}

/// The broker that an image keeps, as [`opened`] reads it, with each queue in fresh records, for so many clients and so
/// many records of each, once it has recovered. An image is refused as there, first; then its broker as
/// [`Broker::renewed`] says.
pub fn renewed(alloc: Global, clients: u32, records: u32, image: &[u8]) -> Result<Broker, Refusal>
    ensures renewed { IfOk result (IsRenewedBy (has_first_form image.now) image.now (counts_of clients records)) }
    ensures unrenewed { IfErr result
        (IsWhyNotRenewed (has_first_form image.now) image.now (counts_of clients records)) }
    ensures uncalled { IfOk result IsUncalled }
    ensures promises { IfOk result KeepsPromises }
{
    let start = begun(alloc, image)?;
    recovered(start.renewed(clients, records)?)
}
