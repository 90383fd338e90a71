//! Recoveries that run to their end.

ghost use Rattle.owning.specs.Recovering.{IsRecovery};
ghost use Rattle.owning.specs.Serving.{GoesOnRight};
ghost use Rattle.session.specs.Promises.{KeepsNumbers};

use session::Session;
use words::Refusal;

/// The broker recovers, by all steps of its recovery. It is refused where it is ready (AlreadyReady), and for want of
/// memory (NoMemory): then it goes on from there when it is asked again.
pub(crate) fn recover(session: &mut Session) -> Result<(), Refusal>
    requires promises { KeepsNumbers session.old }
    ensures made { IsRecovery session.old session.new result }
    ensures goes_on { GoesOnRight session.old session.new }
{
    while !session.recover_step()? {}
    Ok(())
}
