//! Names: what says how the session of a desk began.

use std::marker::Brand;

/// A name of a desk: the session as it was when the desk was made. Each call of a function that is generic in its name
/// picks one for what it opens.
pub trait Beginning {
    ghost use Rattle.session.specs.Sessions.{Sessioned};

    ghost first: { Sessioned };
}

impl Beginning for Brand {
    ghost use Rattle.workers.specs.Naming.{no_session};

    ghost first = { no_session };
}
