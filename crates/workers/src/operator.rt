//! The operator: who stops a shared broker.

ghost use Rattle.std.specs.Prelude.{◌≡◌};
ghost use Rattle.roll.specs.Rule.{IsHolder, row_of};

use crate::deeds::Deed;
use crate::naming::Naming;
use roll::Token;
use std::marker::{Model, PhantomData};

/// Who may stop a shared broker. There is one, and he knows each time that everything stopped: without him nothing
/// does, whatever else is called. One who is dropped stops it no more.
#[derive(Drop)]
pub struct Operator<J: Naming> {
    token: Token<Deed>,
    of: PhantomData<J>,
}

/// A contract sees a [`Deed::Crash`] for each time that everything stopped.
impl<J: Naming> Model for Operator<J> {
    ghost use Rattle.std.specs.Prelude.{List};
    ghost use Rattle.roll.specs.Rule.{IsHolder, row_of};
    ghost use Rattle.workers.specs.declared.deeds.Deed.{Deed};

    ghost Value = { List Deed };

    ghost view = { λ o. row_of o.token };

    ghost invariant = { λ o. IsHolder J.roll.deeds 0 (row_of o.token) o.token };
}

impl<J: Naming> Operator<J> {
    /// The operator of this token.
    pub(crate) fn new(token: Token<Deed>) -> Self
        requires { IsHolder J.roll.deeds 0 (row_of token) token }
        ensures { result ≡ row_of token }
    {
        Operator {
            token,
            of: PhantomData,
        }
    }

    /// The token of the operator.
    pub(crate) fn into_token(self) -> Token<Deed>
        ensures { IsHolder J.roll.deeds 0 self result }
    {
        self.token
    }
}
