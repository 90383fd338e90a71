//! Where a connection stands: before the door, or inside.

ghost use Rattle.std.specs.Prelude.{◌↔◌, IsSome};
ghost use Rattle.door.specs.Judging.{IsInside, StandsBy};

use crate::secret::Secret;

/// That a connection may come to a desk. This crate alone makes one: for whoever says the secret first, and for everyone
/// where no secret is asked for.
#[derive(Drop)]
pub struct Welcome(());

impl Welcome {
    pub(crate) fn new() -> Self {
        Welcome(())
    }
}

/// Where a connection stands.
#[derive(Drop)]
pub enum Standing<'a> {
    /// Its first line has to say this secret.
    Before(&'a Secret),
    /// It may come to a desk.
    Inside(Welcome),
}

impl<'a> Standing<'a> {
    /// Where one stands over which nothing came yet: before the secret that is asked for, if one is.
    pub fn at_first(secret: Option<&'a Secret>) -> Self
        ensures { StandsBy secret.entry result }
    {
        match secret {
            Some(secret) => Standing::Before(secret),
            None => Standing::Inside(Welcome::new()),
        }
    }

    /// That the connection may come to a desk, if it may.
    pub fn welcome(&self) -> Option<&Welcome>
        ensures { IsSome result ↔ IsInside self.now }
    {
        match self {
            Standing::Before(_) => None,
            Standing::Inside(welcome) => Some(welcome),
        }
    }
}
