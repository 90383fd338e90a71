//! What a desk answers with.

ghost use Rattle.std.specs.Prelude.{◌≡◌, IfSome, IsSome, Some};
ghost use Rattle.desk.specs.Answering.{IsAnsweredAtMark};
ghost use Rattle.workers.specs.Moments.{GoesOnLater};

use seating::Seating;
use std::sync::Wait;
use wire::{Answer, Request};
use workers::{Marked, Naming, Shared};

/// A broker that connections share, its seats, and the session as it was marked last.
#[derive(Drop)]
pub(crate) struct Counter<'a, J: Naming> {
    pub(crate) shared: &'a Shared<J>,
    pub(crate) seats: &'a Seating<J>,
    /// It is there, but for the time of an answer.
    pub(crate) marked: Option<Marked<J>>,
}

impl<'a, J: Naming> Counter<'a, J> {
    pub(crate) fn new(shared: &'a Shared<J>, seats: &'a Seating<J>, marked: Marked<J>) -> Self
        ensures { result.marked ≡ Some marked }
    {
        Counter {
            shared,
            seats,
            marked: Some(marked),
        }
    }

    /// Makes the request, answers it, and marks the session.
    pub(crate) fn answer<R: Wait>(&mut self, rt: &R, request: Request) -> Answer
        requires { IsSome self.old.marked }
        ensures { IsAnsweredAtMark J.clients J.first self.old.marked self.new.marked request result }
    {
        let Some(before) = self.marked.take() else {
            unreachable!()
        };
        let (marked, answer) = self.answer_to(rt, before, request);
        self.marked = Some(marked);
        answer
    }

    /// Marks the session as it is now, and gives another mark of it.
    pub(crate) fn mark_now<R: Wait>(&mut self, rt: &R) -> Marked<J>
        requires { IsSome self.old.marked }
        ensures marked { self.new.marked ≡ Some result }
        ensures later { IfSome self.old.marked (λ before. GoesOnLater before result) }
    {
        let Some(before) = self.marked.take() else {
            unreachable!()
        };
        let (kept, given) = self.shared.mark_twice(rt, before);
        self.marked = Some(kept);
        given
    }
}
