//! Puts and takes, and what a client was last told.

ghost use Rattle.std.specs.Prelude.{◌≡◌, Option, Some};
ghost use Rattle.owning.specs.Answers.{client_in, IsCallBy, IsCalled, IsPlaced, IsTellingBy};
ghost use Rattle.owning.specs.Serving.{GoesOnRight};
ghost use Rattle.session.specs.Promises.{KeepsNumbers};

use arena::SlotId;
use desk::Asked;
use directory::Name;
use session::Session;
use words::{Client, Refusal, Reply, Told};

/// The client of this number. There is none from the number of clients on (NoClient).
fn client_of(session: &Session, number: u64) -> Result<Client, Refusal>
    ensures { result ≡ client_in session.now.broker.counts.clients number }
{
    if number < u64::from(session.broker().clients()) {
        Ok(Client(number as u8))
    } else {
        Err(Refusal::NoClient)
    }
}

/// The slot with the queue of this name. It is refused while the broker recovers (NotReady), and where there is no such
/// queue (NoQueue).
fn slot_of(session: &Session, queue: Option<Name>) -> Result<SlotId, Refusal>
    ensures { IsPlaced session.now.broker queue result }
{
    let Some(name) = queue else {
        // A queue of no name is not there, which is said once the broker is ready.
        session.broker().list()?;
        return Err(Refusal::NoQueue);
    };
    session.broker().find(&name)?.ok_or(Refusal::NoQueue)
}

/// A call of a client in the queue of a slot, which runs to its end.
fn call_in(
    session: &mut Session,
    client: Client,
    queue: SlotId,
    asked: Asked,
) -> Result<Reply, Refusal>
    requires promises { KeepsNumbers session.old }
    ensures called { IsCalled session.old session.new queue.0 client asked result }
    ensures goes_on { GoesOnRight session.old session.new }
{
    match asked.number {
        Some(number) => session.request(client, queue, number, asked.call),
        None => session.plain(client, queue, asked.call),
    }
}

/// A put or a take of the client of a number. It is refused where there is no such client (NoClient), as [`slot_of`]
/// is, and as [`Session::request`] or [`Session::plain`] is.
pub(crate) fn call(session: &mut Session, client: u64, asked: Asked) -> Result<Reply, Refusal>
    requires promises { KeepsNumbers session.old }
    ensures made { IsCallBy session.old session.new (client_in session.old.broker.counts.clients client) asked result }
    ensures goes_on { GoesOnRight session.old session.new }
{
    let client = client_of(session, client)?;
    let queue = slot_of(session, asked.queue)?;
    call_in(session, client, queue, asked)
}

/// What the client of a number was last told in a queue. It is refused where there is no such client (NoClient), and as
/// [`slot_of`] is.
pub(crate) fn told(session: &Session, client: u64, queue: Option<Name>) -> Result<Told, Refusal>
    ensures { IsTellingBy session.now.broker (client_in session.now.broker.counts.clients client) queue result }
{
    let client = client_of(session, client)?;
    let queue = slot_of(session, queue)?;
    session.broker().told(queue, client)
}
