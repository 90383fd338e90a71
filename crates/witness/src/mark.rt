//! Marks: what is known of a row by who has been told of it, and by who tells.

ghost use Rattle.std.specs.Prelude.{◌≡◌, ◌≤◌, ◌+◌, ◌++◌, ◌∷◌, ℕ, [], true, IfOk};
ghost use Rattle.witness.specs.Counts.{IsCountOf};
ghost use Rattle.witness.specs.Rule.{Begins};

use crate::row::{Row, Token};
use std::alloc::{AllocError, Global};
use std::marker::Model;

/// Whether so many are among the others, of which there are so many.
fn is_among(some: u64, all: u64) -> bool
    ensures { result ≡ true → ((few many : ℕ) → IsCountOf some few → IsCountOf all many → few ≤ many) }
{
    some < u64::MAX && some <= all
}

/// What lies under a lock of a row of which others have marks. It knows all entries.
#[derive(Drop)]
pub struct Teller<E> {
    row: Row<E>,
    keeper: Token<E>,
    /// How many entries there are.
    count: u64,
}

/// A contract sees which row it is, and all its entries.
impl<E> Model for Teller<E> {
    ghost use Rattle.std.specs.Prelude.{length};
    ghost use Rattle.witness.specs.Accounts.{Known};
    ghost use Rattle.witness.specs.Counts.{IsCountOf};
    ghost use Rattle.witness.specs.Rule.{IsKeeper, row_of};

    ghost Value = { Known E };

    ghost view = { λ t. record { row = t.row; entries = row_of t.keeper } };

    ghost invariant = { λ t. IsKeeper t.row (row_of t.keeper) t.keeper
        × IsCountOf t.count (length (row_of t.keeper)) };
}

/// A beginning of a row: its entries when the mark was made. It goes about with a thread.
#[derive(Drop)]
pub struct Mark<E> {
    witness: Token<E>,
    /// How many entries it knows.
    count: u64,
}

/// A contract sees of which row it is, and the entries that it knows.
impl<E> Model for Mark<E> {
    ghost use Rattle.std.specs.Prelude.{length};
    ghost use Rattle.witness.specs.Accounts.{Known};
    ghost use Rattle.witness.specs.Counts.{IsCountOf};
    ghost use Rattle.witness.specs.Rule.{IsWitness, beginning_of};

    ghost Value = { Known E };

    ghost view = { λ m. record { row = m.witness.table_id; entries = beginning_of m.witness } };

    ghost invariant = { λ m. IsWitness m.witness.table_id (beginning_of m.witness) m.witness
        × IsCountOf m.count (length (beginning_of m.witness)) };
}

impl<E> Teller<E> {
    /// The teller of an empty row.
    pub fn open(alloc: Global) -> Result<Self, AllocError>
        ensures { IfOk result (λ t. t.entries ≡ []) }
    {
        let (row, keeper) = Row::open(alloc)?;
        Ok(Teller {
            row,
            keeper,
            count: 0,
        })
    }

    /// Enters this into the row, behind all others, and marks them with it.
    pub fn mark(&mut self, entry: &E) -> Mark<E>
        ensures row { result.row ≡ self.old.row }
        ensures entries { result.entries ≡ self.old.entries ++ entry.now ∷ [] }
        ensures teller { self.new ≡ record self.old { entries = self.old.entries ++ entry.now ∷ [] } }
    {
        let witness = self.row.enter(&mut self.keeper, entry);
        self.count = self.count.saturating_add(1);
        Mark {
            witness,
            count: self.count,
        }
    }

    /// Hears what a mark knows, which begins the row. The mark is handed back as it was.
    pub fn hear(&mut self, mark: Mark<E>) -> Mark<E>
        requires { mark.row ≡ self.old.row }
        ensures begins { Begins mark.entries self.old.entries }
        ensures mark { result ≡ mark }
        ensures teller { self.new ≡ self.old }
    {
        let Mark { witness, count } = mark;
        let witness = self.row.hear(&mut self.keeper, witness);
        Mark { witness, count }
    }

    /// Whether all that the one mark knows the other knows too. Both are handed back as they were.
    pub fn is_before(&self, one: Mark<E>, other: Mark<E>) -> (Mark<E>, Mark<E>, bool)
        requires one { one.row ≡ self.now.row }
        requires other { other.row ≡ self.now.row }
        ensures begins { result.2 ≡ true → Begins one.entries other.entries }
        ensures one { result.0 ≡ one }
        ensures other { result.1 ≡ other }
    {
        let Mark {
            witness,
            count: few,
        } = one;
        let Mark {
            witness: mut second,
            count: many,
        } = other;
        let witness = self.row.compare(&mut second, witness);
        let one = Mark {
            witness,
            count: few,
        };
        let other = Mark {
            witness: second,
            count: many,
        };
        (one, other, is_among(few, many))
    }
}
