//! A session over a broker.

ghost use Rattle.std.specs.Prelude.{◌≡◌};
ghost use Rattle.session.specs.Keeping.{AreKeptAsHeard};
ghost use Rattle.session.specs.Promises.{KeepsNumbers};
ghost use Rattle.session.specs.Sessions.{kept_at, IsRight, IsUncalled};
ghost use Rattle.session.specs.Telling.{IsSettledTold};

use crate::kept::Kept;
use arena::SlotId;
use named::Broker;
use std::marker::Model;
use words::{Client, Verdict};

/// A broker whose clients number their operations in each log queue: 1, then 2, and so on. The last number, sent again
/// after a crash or any other doubt, is answered with the reply that it got, or runs as a new call where it took no
/// effect; so each number takes effect at most once. For each client and log queue the session keeps the last number
/// with what became of it, from replies and from what recovery tells.
#[derive(Drop)]
pub struct Session {
    pub(crate) broker: Broker,
    pub(crate) kept: Kept,
}

impl Model for Session {
    ghost use Rattle.session.specs.Sessions.{Sessioned, IsRight};

    ghost Value = { Sessioned };

    ghost use Rattle.session.specs.SessionView.{session_view};

    ghost view = { session_view };

    ghost invariant = { λ s. IsRight (session_view s) };
}

impl Session {
    /// A session over this broker. It begins with what each client was told, so no call of a log queue may have begun
    /// since the broker was made or booted, or last recovered or rotated. It takes no memory.
    pub fn open(broker: Broker) -> Self
        requires { IsUncalled broker }
        ensures broker { result.broker ≡ broker }
        ensures kept { AreKeptAsHeard broker result.kept }
        ensures promises { KeepsNumbers result }
    {
        let kept = Kept::told(&broker);
        Session { broker, kept }
    }

    /// The broker, to look at.
    pub fn broker(&self) -> &Broker
        ensures broker { result.now ≡ self.now.broker }
        ensures promises { KeepsNumbers self.now }
    {
        &self.broker
    }

    /// What is settled its kept words tell, at every moment: it is a law of any session ([`crate::settled_is_told`]).
    pub fn tells_settled(&self)
        ensures { IsSettledTold self.now }
    {
        let _ = &self.broker;
    }

    /// What is kept is right, at every moment: where the broker is ready, the kept words tell each client of a log queue
    /// that has no call under way just the verdict that is kept for it.
    pub fn is_right(&self)
        ensures { IsRight self.now }
    {
        let _ = &self.broker;
    }

    /// The last number of a client in a log queue, and what became of it; nothing, where none is known. While the
    /// broker recovers or the client has a call under way it is what was heard last.
    pub fn last(&self, client: Client, queue: SlotId) -> Option<Verdict>
        ensures { result ≡ kept_at self.now queue.0 client }
    {
        self.kept.last(queue, client)
    }
}
