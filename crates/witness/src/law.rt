//! The rule of a row, and the names of its steps. Proofs speak of these types, and no value of them is ever made.

use atomic_table::{Join, Play, Split, TableRule};
use std::collections::LinkedList;

/// What a token knows: as a keeper the row; as a witness two beginnings of it, of which the second mostly is empty.
/// Where it is neither, the fields say nothing.
pub struct View<E> {
    pub keeps: bool,
    pub row: LinkedList<E>,
    pub knows: bool,
    pub begins: LinkedList<E>,
    pub also: LinkedList<E>,
}

/// The rule: there is one row, and what the tokens know of it is so. At first one token keeps an empty row.
pub struct Grows;

impl<E> TableRule<E, View<E>, ()> for Grows {
    ghost use Rattle.std.specs.Prelude.{[]};
    ghost use Rattle.witness.specs.Rule.{IsWitnessed, keeper};

    ghost holds = { λ _. IsWitnessed };

    ghost first = { λ _. keeper [] };
}

/// A keeper's row has this entry more.
pub struct Enter;

impl<E> Play<E, View<E>> for Enter {
    ghost use Rattle.witness.specs.Rule.{EntersRow};

    ghost then = { EntersRow };
}

/// A keeper that has taken a witness in learns that he knows a beginning of the row.
pub struct Hear;

impl<E> Play<E, View<E>> for Hear {
    ghost use Rattle.witness.specs.Rule.{HearsBeginning};

    ghost then = { HearsBeginning };
}

/// Of two beginnings of one row the one begins the other.
pub struct Compare;

impl<E> Play<E, View<E>> for Compare {
    ghost use Rattle.witness.specs.Rule.{ComparesBeginnings};

    ghost then = { ComparesBeginnings };
}

/// A keeper goes on, and a witness beside it knows the row.
pub struct Tell;

impl<E> Split<View<E>> for Tell {
    ghost use Rattle.witness.specs.Rule.{keeper, witness};

    ghost left = { λ v. keeper v.row };

    ghost right = { λ v. witness v.row };
}

/// A keeper lets the witness go that it took in.
pub struct LetGo;

impl<E> Split<View<E>> for LetGo {
    ghost use Rattle.witness.specs.Rule.{keeper, witness};

    ghost left = { λ v. keeper v.row };

    ghost right = { λ v. witness v.begins };
}

/// A keeper takes a witness in.
pub struct TakeIn;

impl<E> Join<View<E>> for TakeIn {
    ghost use Rattle.witness.specs.Rule.{keeper_and_witness, nobody};

    ghost both = { λ v w. keeper_and_witness v.row w.begins };

    ghost spent = { nobody };
}

/// A witness takes another in, and one parts from it again.
pub struct Both;

impl<E> Join<View<E>> for Both {
    ghost use Rattle.witness.specs.Rule.{nobody, witness_of_both};

    ghost both = { λ v w. witness_of_both v.begins w.begins };

    ghost spent = { nobody };
}

impl<E> Split<View<E>> for Both {
    ghost use Rattle.witness.specs.Rule.{witness};

    ghost left = { λ v. witness v.begins };

    ghost right = { λ v. witness v.also };
}
