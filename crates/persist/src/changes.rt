//! The list of the words whose cached value is not the kept one.

ghost use Rattle.std.specs.Prelude.{◌≡◌, ◌<◌, ◌≤◌, ◌++◌, ◌∷◌, [], length, insert, Ok, Err, IfOk, IfErr};
ghost use Rattle.persist.specs.ChangeList.{value_of, word_at, IsAscending, IsEntryOf, IsGapFor, SetsOnly, RemovesOnly};

use std::alloc::{AllocError, Global};
use std::marker::Model;

/// Up to so many entries a search goes through them one by one.
const FEW: usize = 16;

/// Puts the entry to this place, and those from there on to the next one each. It answers the last, which has none.
fn carry_up(entries: &mut [(u64, u64)], at: usize, entry: (u64, u64)) -> (u64, u64)
    requires { at ≤ length entries.old }
    ensures { entries.new ++ result ∷ [] ≡ insert entries.old at entry }
{
    let mut carried = entry;
    for place in at..entries.len() {
        let next = entries[place];
        entries[place] = carried;
        carried = next;
    }
    carried
}

/// Puts the entry to the last place, and those before it to the place before each, down to this one. It answers the
/// entry that was there.
fn carry_down(entries: &mut [(u64, u64)], at: usize, entry: (u64, u64)) -> (u64, u64)
    requires { at ≤ length entries.old }
    ensures { insert entries.new at result ≡ entries.old ++ entry ∷ [] }
{
    let mut carried = entry;
    for place in (at..entries.len()).rev() {
        let next = entries[place];
        entries[place] = carried;
        carried = next;
    }
    carried
}

/// Where the word's entry is, or where it would go. It looks at the last entries first, but at none that has more
/// entries before it than there are lower words: each of these has a word of its own.
fn search_back(entries: &[(u64, u64)], word: u64) -> Result<usize, usize>
    requires { IsAscending entries.now }
    ensures found { IfOk result (IsEntryOf entries.now word) }
    ensures absent { IfErr result (IsGapFor entries.now word) }
{
    let mut at = entries.len();
    if word < at as u64 {
        at = word as usize + 1;
    }
    while at > 0 {
        let listed = entries[at - 1].0;
        if listed == word {
            return Ok(at - 1);
        }
        if listed < word {
            return Err(at);
        }
        at -= 1;
    }
    Err(0)
}

/// Cached values by their words, ascending. Room is taken once, for all that there will be.
#[derive(Drop)]
pub(crate) struct ChangeList {
    entries: Vec<(u64, u64)>,
}

impl Model for ChangeList {
    ghost use Rattle.persist.specs.ChangeList.{Listing, IsAscending};
    ghost use Rattle.std.specs.Prelude.{vec_capacity};

    ghost Value = { Listing };

    ghost view = { λ l. record { entries = l.entries.items; room = vec_capacity l.entries } };

    ghost invariant = { λ l. IsAscending l.entries.items };
}

impl ChangeList {
    /// An empty list with room for so many entries.
    pub(crate) fn new(alloc: Global, room: usize) -> Result<Self, AllocError>
        ensures { IfOk result (λ l. l ≡ record { entries = []; room = room }) }
    {
        Ok(ChangeList {
            entries: Vec::with_capacity(alloc, room)?,
        })
    }

    /// Each word with its cached value.
    pub(crate) fn entries(&self) -> &[(u64, u64)]
        ensures { result.now ≡ self.now.entries }
    {
        &self.entries
    }

    pub(crate) fn len(&self) -> usize
        ensures { result ≡ length self.now.entries }
    {
        self.entries.len()
    }

    /// Where the word's entry is among many, or where it would go.
    #[cold]
    #[inline(never)]
    fn search_many(&self, word: u64) -> Result<usize, usize>
        ensures found { IfOk result (IsEntryOf self.now.entries word) }
        ensures absent { IfErr result (IsGapFor self.now.entries word) }
    {
        self.entries.binary_search_by_key(&word, |&(w, _)| w)
    }

    /// Where the word's entry is, or where it would go.
    pub(crate) fn search(&self, word: u64) -> Result<usize, usize>
        ensures found { IfOk result (IsEntryOf self.now.entries word) }
        ensures absent { IfErr result (IsGapFor self.now.entries word) }
    {
        if self.entries.len() > FEW {
            return self.search_many(word);
        }
        search_back(&self.entries, word)
    }

    /// The value of the entry at this place.
    pub(crate) fn value(&self, at: usize) -> u64
        requires { at < length self.now.entries }
        ensures { result ≡ value_of self.now.entries at }
    {
        self.entries[at].1
    }

    /// Gives the word this value, at the place that a search for it found. There is room for it.
    pub(crate) fn set(&mut self, place: Result<usize, usize>, word: u64, value: u64)
        requires found { IfOk place (IsEntryOf self.old.entries word) }
        requires absent { IfErr place (IsGapFor self.old.entries word) }
        requires space { IfErr place (λ at. length self.old.entries < self.old.room) }
        ensures set { SetsOnly self.old.entries self.new.entries word value }
        ensures ascending { IsAscending self.new.entries }
        ensures room { self.old.room ≤ self.new.room }
    {
        match place {
            Ok(at) => self.entries[at] = (word, value),
            Err(at) => {
                let last = carry_up(&mut self.entries, at, (word, value));
                let _ = self.entries.push(last);
            }
        }
    }

    /// Forgets the word of the entry at this place. It answers its value.
    pub(crate) fn remove(&mut self, at: usize) -> u64
        requires { at < length self.old.entries }
        ensures value { result ≡ value_of self.old.entries at }
        ensures removed { RemovesOnly self.old.entries self.new.entries (word_at self.old.entries at) }
        ensures ascending { IsAscending self.new.entries }
        ensures room { self.old.room ≤ self.new.room }
    {
        let Some(last) = self.entries.pop() else {
            // There is an entry at the place.
            unreachable!();
        };
        let (_, value) = carry_down(&mut self.entries, at, last);
        value
    }

    pub(crate) fn clear(&mut self)
        ensures { self.new ≡ record { entries = []; room = self.old.room } }
    {
        self.entries.clear();
    }
}
