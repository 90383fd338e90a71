//! A desk that says where it has accepted a stop.

ghost use Rattle.std.specs.Prelude.{◌≡◌};

use devices::Failed;
use engine::Desk;
use std::sync::Wait;
use std::sync::atomic::{AtomicBool, Ordering};
use wire::{Answer, Request};

/// The desk of a connection, which says where it has accepted a stop.
#[derive(Drop)]
pub struct StoppingDesk<'a, D: Desk> {
    /// Where its requests are answered.
    pub desk: D,
    said: &'a AtomicBool,
}

impl<'a, D: Desk> StoppingDesk<'a, D> {
    /// The same desk, which says it there from now on.
    pub fn new(desk: D, said: &'a AtomicBool) -> Self
        ensures { result.desk ≡ desk }
    {
        StoppingDesk { desk, said }
    }

    /// The desk that it stands before.
    pub fn into_desk(self) -> D
        ensures { result ≡ self.entry.desk }
    {
        self.desk
    }
}

impl<D: Desk> Desk for StoppingDesk<'_, D> {
    ghost served = { λ desk. D.served desk.desk };

    ghost settled = { λ desk. D.settled desk.desk };

    ghost failures = { λ desk. D.failures desk.desk };

    fn answer<R: Wait>(&mut self, rt: &R, request: Request) -> Answer {
        let answer = self.desk.answer(rt, request);
        if matches!(answer, Answer::Stopping) {
            // It is said before the reply goes out: a client that has read it is not served on another connection.
            self.said.store(true, Ordering::SeqCst);
        }
        answer
    }

    fn settle<R: Wait>(&mut self, rt: &R) -> Result<(), Failed> {
        self.desk.settle(rt)
    }

    ghost begins = { λ desk. D.begins desk.desk };
}
