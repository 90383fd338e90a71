//! What waits, and goes on by one access.

ghost use Rattle.std.specs.Prelude.{◌≡◌, None};

use arena::Layout;
use persist::{Change, WordMemory};

/// What comes after a step of a machine with these waiting points and this answer.
#[derive(Clone, Copy)]
pub enum After<P, A> {
    /// It goes on from here.
    More(P),
    /// It is at its end, and answers this.
    Done(A),
}

/// What a step did: what comes after it, and the change of a kept value, where it was a fence that made one.
#[derive(Clone, Copy)]
pub struct Stepped<P, A> {
    pub after: After<P, A>,
    pub change: Option<Change>,
}

impl<P, A> Stepped<P, A> {
    /// A step that changed no kept value.
    pub fn quiet(after: After<P, A>) -> Self
        ensures after { result.after ≡ after }
        ensures change { result.change ≡ None }
    {
        Stepped {
            after,
            change: None,
        }
    }
}

/// The waiting points of a step machine: its table.
pub trait Points {
    ghost use Rattle.std.specs.Prelude.{ℕ};
    ghost use Rattle.words.specs.declared.call.Kind.{Kind};
    ghost use Rattle.persist.specs.Memory.{Access};
    ghost use Rattle.arena.specs.Shape.{Shape};
    ghost use Rattle.arena.specs.declared.place.Place.{Place};
    ghost use Rattle.stepper.specs.declared.resume.After.{After};

    /// What it answers in the end.
    type Answer;

    /// The one access of a point's step.
    ghost access: { Kind → Self → Access Place };

    /// What comes once the access has found a value.
    ghost successor: { Shape → Self → ℕ → After Self Self.Answer };

    /// What a point has learnt is in range, as it is where steps on this layout made it.
    ghost in_range: { Shape → Self → Type 0 };
}

/// A waiting point: a value that holds what the last step learnt.
pub trait Resume {
    ghost use Rattle.std.specs.Prelude.{◌≡◌, ◌≤◌, length};
    ghost use Rattle.arena.specs.Layout.{size_of};
    ghost use Rattle.stepper.specs.Step.{change_by_step, lent_by_step, words_by_step};
    ghost use Rattle.stepper.specs.Step.{FindsInRange, IsAskedFor, IsNext};

    /// The points of its machine.
    type Point: Points;

    /// Which of them it is.
    ghost point: { Self → Self.Point };

    /// Makes exactly one access, and answers what comes next.
    fn step<M: WordMemory>(
        self,
        layout: &Layout,
        memory: &mut M,
    ) -> Stepped<Self::Point, <Self::Point as Points>::Answer>
        requires room { size_of layout.now ≤ length (M.words memory.old).cached }
        requires point { Self.Point.in_range layout.now (point self) }
        requires read { FindsInRange layout.now (Self.Point.access layout.now.kind (point self)) (M.words memory.old) }
        requires asked { IsAskedFor layout.now (Self.Point.access layout.now.kind (point self))
            (M.lent memory.old).request }
        ensures one_access { M.words memory.new
            ≡ words_by_step Self.Point.access layout.now (point self) (M.words memory.old) }
        ensures lent { M.lent memory.new ≡ lent_by_step Self.Point.access layout.now (point self) (M.lent memory.old) }
        ensures next { IsNext Self.Point.access Self.Point.successor layout.now (point self) (M.words memory.old)
            result.after }
        ensures change { result.change
            ≡ change_by_step Self.Point.access layout.now (point self) (M.words memory.old) };
}
