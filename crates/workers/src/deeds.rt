//! What is done to a shared broker as a whole.

ghost use Rattle.std.specs.Prelude.{◌≡◌, ◌≤◌, ◌++◌, ◌∷◌, [], slice_get, Some, vec_capacity};
ghost use Rattle.roll.specs.Rule.{IsKeeper, IsKeeperWith, rows_of};
ghost use Rattle.workers.specs.declared.deeds.Deed.{Deed as AnyDeed};

use crate::naming::Naming;
use crate::operator::Operator;
use roll::{Roll, Token};

/// What was done to a shared broker as a whole, for its [`Operator`] to know.
#[derive(Clone, Copy, Debug, PartialEq, Eq)]
pub enum Deed {
    /// Everything stopped.
    Crash,
}

/// The keeper of what the operator knows, and room for one deed.
#[derive(Drop)]
pub(crate) struct Register {
    pub(crate) keeper: Token<Deed>,
    row: Vec<Deed>,
    ghost room: { 1 ≤ vec_capacity row },
}

impl Register {
    /// What keeps these rows, where one deed fits the vector.
    pub(crate) fn new(keeper: Token<Deed>, row: Vec<Deed>) -> Self
        requires { 1 ≤ vec_capacity row }
        ensures { result.keeper ≡ keeper }
    {
        Register { keeper, row }
    }

    /// The operator, before anything is done.
    pub(crate) fn appoint<J: Naming>(&mut self, roll: &Roll<Deed>) -> Operator<J>
        requires roll { roll.now ≡ J.roll.deeds }
        requires keeper { IsKeeper J.roll.deeds [] self.old.keeper }
        ensures keeper { IsKeeper J.roll.deeds ([] ∷ []) self.new.keeper }
        ensures operator { result ≡ [] }
    {
        self.row.clear();
        Operator::new(roll.enroll(&mut self.keeper, &self.row))
    }

    /// Everything stopped once more, as the operator knows.
    pub(crate) fn enter_stop<J: Naming>(
        &mut self,
        roll: &Roll<Deed>,
        operator: Operator<J>,
    ) -> Operator<J>
        requires roll { roll.now ≡ J.roll.deeds }
        requires keeper { IsKeeper J.roll.deeds (rows_of self.old.keeper) self.old.keeper }
        ensures before { slice_get (rows_of self.old.keeper) 0 ≡ Some operator }
        ensures keeper { IsKeeperWith J.roll.deeds self.old.keeper 0 (operator ++ AnyDeed.Crash ∷ []) self.new.keeper }
        ensures stops { result ≡ operator ++ AnyDeed.Crash ∷ [] }
    {
        self.row.clear();
        self.row.push_reserved(Deed::Crash);
        let token = roll.extend(&mut self.keeper, operator.into_token(), &self.row);
        Operator::new(token)
    }

    /// What the operator knows, the keeper knows too.
    pub(crate) fn hear<J: Naming>(&mut self, roll: &Roll<Deed>, operator: Operator<J>)
        requires roll { roll.now ≡ J.roll.deeds }
        requires keeper { IsKeeper J.roll.deeds (rows_of self.old.keeper) self.old.keeper }
        ensures known { slice_get (rows_of self.old.keeper) 0 ≡ Some operator }
        ensures keeper { IsKeeper J.roll.deeds (rows_of self.old.keeper) self.new.keeper }
    {
        self.row.clear();
        roll.extend(&mut self.keeper, operator.into_token(), &self.row);
    }
}
