//! Creations that run to their end.

ghost use Rattle.owning.specs.Creating.{IsCreation, IsCreationOf};
ghost use Rattle.owning.specs.Serving.{GoesOnRight};
ghost use Rattle.session.specs.Promises.{KeepsNumbers};

use arena::SlotId;
use directory::Name;
use session::Session;
use words::{Kind, Refusal};

/// A queue is created, by all steps of its creation. It is refused as [`Session::create`] is.
fn create_named(session: &mut Session, name: &Name, kind: Kind) -> Result<SlotId, Refusal>
    requires promises { KeepsNumbers session.old }
    ensures made { IsCreation session.old session.new name.now kind result }
    ensures goes_on { GoesOnRight session.old session.new }
{
    session.create(name.as_bytes(), kind)?;
    loop {
        if let Some(slot) = session.create_step()? {
            return Ok(slot);
        }
    }
}

/// A queue is created, where its name is one (BadName).
pub(crate) fn create(
    session: &mut Session,
    queue: Option<Name>,
    kind: Kind,
) -> Result<SlotId, Refusal>
    requires promises { KeepsNumbers session.old }
    ensures made { IsCreationOf session.old session.new queue kind result }
    ensures goes_on { GoesOnRight session.old session.new }
{
    let name = queue.ok_or(Refusal::BadName)?;
    create_named(session, &name, kind)
}
