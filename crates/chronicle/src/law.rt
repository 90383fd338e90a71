//! The rule of a chronicle, and the names of its steps. Proofs speak of these types, and no value of them is ever made.

use atomic_table::{Play, TableRule};
use std::collections::LinkedList;

/// What the seat knows: the entries that are settled, and those that are not.
pub type Lists<E> = (LinkedList<E>, LinkedList<E>);

/// The rule. It asks for nothing, since one seat alone knows the lists.
pub struct Anything;

impl<E> TableRule<E, Lists<E>, ()> for Anything {
    ghost use Rattle.std.specs.Prelude.{[]};
    ghost use Rattle.chronicle.specs.Rule.{IsAnything};

    ghost holds = { λ _. IsAnything };

    ghost first = { λ _. ([], []) };
}

/// The seat adds an entry to those that are not settled.
pub struct Add;

impl<E> Play<E, Lists<E>> for Add {
    ghost use Rattle.chronicle.specs.Rule.{AddsEntry};

    ghost then = { AddsEntry };
}

/// The seat settles all entries.
pub struct Settle;

impl<E> Play<E, Lists<E>> for Settle {
    ghost use Rattle.chronicle.specs.Rule.{SettlesAll};

    ghost then = { SettlesAll };
}
