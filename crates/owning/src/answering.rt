//! What each request is answered.

ghost use Rattle.owning.specs.Answers.{answer_as, IsAnswered, IsListing};
ghost use Rattle.owning.specs.Recovering.{IsCrash};
ghost use Rattle.owning.specs.Serving.{GoesOnRight};
ghost use Rattle.session.specs.Promises.{KeepsNumbers};

use crate::calls::{call, told};
use crate::creating::create;
use crate::recovering::recover;
use desk::Asked;
use directory::Places;
use events::copied;
use session::Session;
use wire::{Answer, Request};
use words::{Call, Refusal};

/// All queues. It is refused while the broker recovers (NotReady).
fn list(session: &Session) -> Result<Places, Refusal>
    ensures { IsListing session.now.broker result }
{
    Ok(copied(session.broker().list()?))
}

/// Everything stops. It is refused for want of memory (NoMemory).
fn crash(session: &mut Session) -> Result<(), Refusal>
    requires promises { KeepsNumbers session.old }
    ensures made { IsCrash session.old session.new result }
    ensures goes_on { GoesOnRight session.old session.new }
{
    session.crash()
}

/// Makes a request, and says what was done.
fn done(session: &mut Session, request: Request) -> Result<Answer, Refusal>
    requires promises { KeepsNumbers session.old }
    ensures answered { IsAnswered session.old session.new request (answer_as (λ answer. answer) result) }
    ensures goes_on { GoesOnRight session.old session.new }
{
    Ok(match request {
        Request::Create { queue, kind } => Answer::Created(create(session, queue, kind)?),
        Request::List => Answer::Queues(list(session)?),
        Request::Put {
            client,
            queue,
            value,
            number,
        } => {
            let asked = Asked {
                queue,
                number,
                call: Call::Enq(value),
            };
            Answer::Reply(call(session, client, asked)?)
        }
        Request::Take {
            client,
            queue,
            number,
        } => {
            let asked = Asked {
                queue,
                number,
                call: Call::Deq,
            };
            Answer::Reply(call(session, client, asked)?)
        }
        Request::Told { client, queue } => Answer::Told(told(session, client, queue)?),
        Request::Crash => {
            crash(session)?;
            Answer::Crashed
        }
        Request::Recover => {
            recover(session)?;
            Answer::Ready
        }
        Request::Stop => Answer::Stopping,
    })
}

/// Makes a request, and answers it.
pub(crate) fn answer_to(session: &mut Session, request: Request) -> Answer
    requires promises { KeepsNumbers session.old }
    ensures answered { IsAnswered session.old session.new request result }
    ensures goes_on { GoesOnRight session.old session.new }
{
    match done(session, request) {
        Ok(answer) => answer,
        Err(refusal) => Answer::Refused(refusal),
    }
}
