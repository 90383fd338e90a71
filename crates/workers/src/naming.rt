//! Names: what says that a seat is used with the shared broker that gave it.

use std::marker::Brand;

/// A name of a shared broker and its seats. A seat goes with the broker of the same name alone. Each call of a function
/// that is generic in its name picks one for what it opens.
pub trait Naming {
    ghost use Rattle.std.specs.Prelude.{ℕ};
    ghost use Rattle.session.specs.Sessions.{Sessioned};
    ghost use Rattle.workers.specs.Naming.{Rolls};

    /// The rolls of the seats' lists, of what was done to all of the session, and of the changes that were handed on; and
    /// the rows of the sessions that were marked and assured.
    ghost roll: { Rolls };

    /// How many clients, and so seats, there are.
    ghost clients: { ℕ };

    /// The session as it was when the seats were given.
    ghost first: { Sessioned };
}

impl Naming for Brand {
    ghost use Rattle.workers.specs.Naming.{no_roll, no_session};

    ghost roll = { no_roll };

    ghost clients = { 0 };

    ghost first = { no_session };
}
