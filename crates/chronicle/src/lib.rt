//! Chronicles: lists that exist in proofs alone. Who owes a list of what was done, however long it grows, keeps a
//! chronicle of it: contracts speak of its entries, and of those that are settled. At run time it is one word, which
//! stays 0.
#![tactic(auto)]

ghost use Rattle.std.specs.Prelude.{◌≡◌, ◌++◌, ◌∷◌, [], IfOk};
ghost use Rattle.chronicle.specs.Chronicled.{entries};

mod law;

use crate::law::{Add, Anything, Lists, Settle};
use atomic_table::{Seat, Table};
use std::alloc::{AllocError, Global};
use std::marker::Model;

/// The place of the word that each step reads.
const WORD: usize = 0;

/// The value that each step finds in the word, and leaves there.
const SAME: u64 = 0;

/// A list of entries, in the order in which they were noted. Some of them, from the first one on, are settled.
#[derive(Drop)]
pub struct Chronicle<E> {
    table: Table<E, Lists<E>, (), Anything, Global>,
    seat: Seat<E, Lists<E>>,
}

impl<E> Model for Chronicle<E> {
    ghost use Rattle.chronicle.specs.Chronicled.{Chronicled};
    ghost use Rattle.chronicle.specs.Rule.{IsSeated};

    ghost Value = { Chronicled E };

    ghost view = { λ c. record { settled = c.seat.me.0.0; unsettled = c.seat.me.0.1 } };

    ghost invariant = { λ c. IsSeated c.table.shared.table_id c.seat };
}

impl<E> Chronicle<E> {
    /// A chronicle with no entry. Its word is all the memory that it ever takes.
    pub fn begin(alloc: Global) -> Result<Self, AllocError>
        ensures { IfOk result (λ chronicle. entries chronicle ≡ []) }
    {
        let (table, seat) = Table::of_words(alloc, &[SAME], &())?;
        Ok(Chronicle { table, seat })
    }

    /// One entry more, behind the others. It is not settled.
    pub fn note(&mut self, entry: &E)
        ensures entries { entries self.new ≡ entries self.old ++ entry.now ∷ [] }
        ensures settled { self.new.settled ≡ self.old.settled }
    {
        let Chronicle { table, seat } = self;
        let shared = &table.shared;
        shared.compare_exchange_with::<Add>(seat, WORD, SAME, SAME, entry);
    }

    /// All entries so far are settled.
    pub fn settle(&mut self)
        ensures entries { entries self.new ≡ entries self.old }
        ensures settled { self.new.settled ≡ entries self.old }
    {
        let Chronicle { table, seat } = self;
        let shared = &table.shared;
        shared.load::<Settle>(seat, WORD);
    }
}
