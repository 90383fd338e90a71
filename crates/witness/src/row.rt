//! Rows and their tokens.

ghost use Rattle.std.specs.Prelude.{◌≡◌, ◌++◌, ◌∷◌, [], IfOk};
ghost use Rattle.witness.specs.Rule.{Begins, IsKeeper, IsWitness, beginning_of, row_of, OneBegins};

use crate::law::{Both, Compare, Enter, Grows, Hear, LetGo, TakeIn, Tell, View};
use atomic_table::{Seat, Table};
use std::alloc::{AllocError, Global};
use std::marker::Model;

/// The place of the word that each step reads.
const WORD: usize = 0;

/// The value that each step finds in the word, and leaves there.
const SAME: u64 = 0;

/// What the tokens of one row share: a keeper knows all of the row, and a witness a beginning of it. The idea is that of
/// the monotone lists of Iris.
#[derive(Drop)]
pub struct Row<E> {
    table: Table<E, View<E>, (), Grows, Global>,
}

/// A contract sees which row it is.
impl<E> Model for Row<E> {
    ghost use Rattle.std.specs.Prelude.{◌≡◌};
    ghost use Rattle.atomic_table.specs.Seated.{TableId};

    ghost Value = { TableId };

    ghost view = { λ row. row.table.shared.table_id };

    ghost invariant = { λ row. row.table.shared.table_id.words ≡ 1 };
}

/// A keeper or a witness. It can go to another thread, and is never copied.
pub type Token<E> = Seat<E, View<E>>;

impl<E> Row<E> {
    /// An empty row, and its keeper.
    #[tactic(auto, using(crate::proofs::Steps::begins))]
    pub fn open(alloc: Global) -> Result<(Row<E>, Token<E>), AllocError>
        ensures { IfOk result (λ r. IsKeeper r.0 [] r.1) }
    {
        let (table, keeper) = Table::of_words(alloc, &[SAME], &())?;
        Ok((Row { table }, keeper))
    }

    /// The row has this entry more. The token is a witness of all of it.
    pub fn enter(&self, keeper: &mut Token<E>, entry: &E) -> Token<E>
        requires { IsKeeper self.now (row_of keeper.old) keeper.old }
        ensures keeper { IsKeeper self.now (row_of keeper.old ++ entry.now ∷ []) keeper.new }
        ensures witness { IsWitness self.now (row_of keeper.old ++ entry.now ∷ []) result }
    {
        let shared = &self.table.shared;
        shared.compare_exchange_with::<Enter>(keeper, WORD, SAME, SAME, entry);
        shared.split_seat::<Tell>(keeper)
    }

    /// The keeper hears a witness, who is handed back: what he knows begins the row.
    pub fn hear(&self, keeper: &mut Token<E>, witness: Token<E>) -> Token<E>
        requires keeper { IsKeeper self.now (row_of keeper.old) keeper.old }
        requires witness { IsWitness self.now (beginning_of witness) witness }
        ensures begins { Begins (beginning_of witness) (row_of keeper.old) }
        ensures keeper { IsKeeper self.now (row_of keeper.old) keeper.new }
        ensures witness { IsWitness self.now (beginning_of witness) result }
    {
        let shared = &self.table.shared;
        shared.join_seat::<TakeIn>(keeper, witness);
        shared.load::<Hear>(keeper, WORD);
        shared.split_seat::<LetGo>(keeper)
    }

    /// Two witnesses compare what they know, and the second is handed back: the one beginning begins the other.
    pub fn compare(&self, one: &mut Token<E>, other: Token<E>) -> Token<E>
        requires one { IsWitness self.now (beginning_of one.old) one.old }
        requires other { IsWitness self.now (beginning_of other) other }
        ensures begins { OneBegins (beginning_of one.old) (beginning_of other) }
        ensures one { IsWitness self.now (beginning_of one.old) one.new }
        ensures other { IsWitness self.now (beginning_of other) result }
    {
        let shared = &self.table.shared;
        shared.join_seat::<Both>(one, other);
        shared.load::<Compare>(one, WORD);
        shared.split_seat::<Both>(one)
    }
}
