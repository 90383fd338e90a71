//! Sessions that are marked, from each of which what is handed on goes on; and those of them that are assured.

ghost use Rattle.std.specs.Prelude.{◌≡◌, ◌++◌, ◌∷◌, [], true, All, Contains};
ghost use Rattle.workers.specs.Moments.{GoesOnLater, marked_in};

use crate::naming::Naming;
use session::Session;
use std::marker::{Model, PhantomData};
use witness::{Mark, Teller};

/// What lies of them under the lock: all sessions that were marked, the first one first.
#[derive(Drop)]
pub(crate) struct Marks<J: Naming> {
    teller: Teller<Session>,
    of: PhantomData<J>,
}

impl<J: Naming> Model for Marks<J> {
    ghost use Rattle.std.specs.Prelude.{◌≡◌, List};
    ghost use Rattle.session.specs.Sessions.{Sessioned};

    ghost Value = { List Sessioned };

    ghost view = { λ m. m.teller.entries };

    ghost invariant = { λ m. m.teller.row ≡ J.roll.marks };
}

/// A mark of the session as it was when the mark was made. It goes about with a thread, and tells nothing of the session
/// but this: each later session that is marked, or whose changes are handed on, goes on from it.
#[derive(Drop)]
pub struct Marked<J: Naming> {
    mark: Mark<Session>,
    of: PhantomData<J>,
}

/// A contract sees that session.
impl<J: Naming> Model for Marked<J> {
    ghost use Rattle.std.specs.Prelude.{◌≡◌};
    ghost use Rattle.session.specs.Sessions.{Sessioned};
    ghost use Rattle.workers.specs.Moments.{AreMarks, latest};

    ghost Value = { Sessioned };

    ghost view = { λ m. latest m.mark.entries };

    ghost invariant = { λ m. (m.mark.row ≡ J.roll.marks) × AreMarks m.mark.entries };
}

/// A token that the session of a mark is assured: who hands changes on has said so, and knows of it. What that means is
/// his to say. It goes about with a thread.
#[derive(Drop)]
pub struct Assured<J: Naming> {
    mark: Mark<Mark<Session>>,
    of: PhantomData<J>,
}

/// A contract sees that session.
impl<J: Naming> Model for Assured<J> {
    ghost use Rattle.std.specs.Prelude.{◌≡◌, ◌<◌, length};
    ghost use Rattle.session.specs.Sessions.{Sessioned};
    ghost use Rattle.workers.specs.Moments.{latest, marked_in};

    ghost Value = { Sessioned };

    ghost view = { λ a. latest (marked_in a.mark.entries) };

    ghost invariant = { λ a. (a.mark.row ≡ J.roll.assured) × (0 < length a.mark.entries) };
}

/// All sessions that were assured, the first one first, with the one who hands changes on.
#[derive(Drop)]
pub(crate) struct Assuring<J: Naming> {
    teller: Teller<Mark<Session>>,
    of: PhantomData<J>,
}

impl<J: Naming> Model for Assuring<J> {
    ghost use Rattle.std.specs.Prelude.{◌≡◌, List};
    ghost use Rattle.session.specs.Sessions.{Sessioned};
    ghost use Rattle.workers.specs.Moments.{marked_in};

    ghost Value = { List Sessioned };

    ghost view = { λ a. marked_in a.teller.entries };

    ghost invariant = { λ a. a.teller.row ≡ J.roll.assured };
}

impl<J: Naming> Assuring<J> {
    /// Those of this row, as the seats are given.
    pub(crate) fn new(teller: Teller<Mark<Session>>) -> Self
        requires { teller.row ≡ J.roll.assured }
        ensures { result ≡ marked_in teller.entries }
    {
        Assuring {
            teller,
            of: PhantomData,
        }
    }

    /// Assures the session of this mark.
    pub(crate) fn assure(&mut self, marked: &Marked<J>) -> Assured<J>
        ensures assured { result ≡ marked.now }
        ensures all { self.new ≡ self.old ++ marked.now ∷ [] }
    {
        let mark = self.teller.mark(&marked.mark);
        Assured {
            mark,
            of: PhantomData,
        }
    }

    /// Hears a token, which is handed back: its session is one of those that were assured.
    pub(crate) fn hear(&mut self, assured: Assured<J>) -> Assured<J>
        ensures heard { Contains self.old assured }
        ensures assured { result ≡ assured }
        ensures same { self.new ≡ self.old }
    {
        let mark = self.teller.hear(assured.mark);
        Assured {
            mark,
            of: PhantomData,
        }
    }
}

impl<J: Naming> Marks<J> {
    /// Those of this row, as the seats are given.
    pub(crate) fn new(teller: Teller<Session>) -> Self
        requires { teller.row ≡ J.roll.marks }
        ensures { result ≡ teller.entries }
    {
        Marks {
            teller,
            of: PhantomData,
        }
    }

    /// Marks the session, which goes on from each that was marked.
    pub(crate) fn mark(&mut self, session: &Session) -> Marked<J>
        requires { All (λ marked. GoesOnLater marked session.now) self.old }
        ensures mark { result ≡ session.now }
        ensures marks { self.new ≡ self.old ++ session.now ∷ [] }
    {
        let mark = self.teller.mark(session);
        Marked {
            mark,
            of: PhantomData,
        }
    }

    /// The same, in the place of an earlier mark, whose session is one of those that were marked.
    pub(crate) fn mark_further(&mut self, before: Marked<J>, session: &Session) -> Marked<J>
        requires { All (λ marked. GoesOnLater marked session.now) self.old }
        ensures before { GoesOnLater before result }
        ensures mark { result ≡ session.now }
        ensures marks { self.new ≡ self.old ++ session.now ∷ [] }
    {
        self.hear(before);
        self.mark(session)
    }

    /// Hears a mark, whose session is one of those that were marked. It is handed back as it was.
    pub(crate) fn hear(&mut self, marked: Marked<J>) -> Marked<J>
        ensures heard { Contains self.old marked }
        ensures mark { result ≡ marked }
        ensures marks { self.new ≡ self.old }
    {
        let mark = self.teller.hear(marked.mark);
        Marked {
            mark,
            of: PhantomData,
        }
    }

    /// Whether the session of the other mark goes on from that of the one. Both are handed back as they were.
    pub(crate) fn is_before(&self, one: Marked<J>, other: Marked<J>) -> (Marked<J>, Marked<J>, bool)
        ensures later { result.2 ≡ true → GoesOnLater one other }
        ensures one { result.0 ≡ one }
        ensures other { result.1 ≡ other }
    {
        let (one, other, is_before) = self.teller.is_before(one.mark, other.mark);
        let one = Marked {
            mark: one,
            of: PhantomData,
        };
        let other = Marked {
            mark: other,
            of: PhantomData,
        };
        (one, other, is_before)
    }
}
