//! Notes.

ghost use Rattle.std.specs.Prelude.{◌≡◌, ◌≤◌, ◌+◌, ◌++◌, [], false, length, true, IfOk, OnErr, OnOk};
ghost use Rattle.persist.specs.Noted.{changes_in};
ghost use Rattle.notes.specs.Noting.{HasNotedWritten};

use crate::differences::add_differences;
use persist::{Change, KeptWords, Memory};
use std::alloc::{AllocError, Global};
use std::marker::Model;
use std::mem::replace;

/// Changes that were noted, and room for as many more as were promised.
#[derive(Drop)]
pub struct Notes {
    changes: Vec<Change>,
    promised: usize,
}

impl Model for Notes {
    ghost use Rattle.std.specs.Prelude.{◌≤◌, ◌+◌, vec_capacity, vec_len};
    ghost use Rattle.notes.specs.Noting.{Noting};

    ghost Value = { Noting };

    ghost view = { λ n. record { changes = n.changes.items; promised = n.promised } };

    ghost invariant = { λ n. vec_len n.changes + n.promised ≤ vec_capacity n.changes };
}

impl Notes {
    /// No notes, and nothing promised.
    pub fn new(alloc: Global) -> Self
        ensures { result ≡ record { changes = []; promised = 0 } }
    {
        Notes {
            changes: Vec::new(alloc),
            promised: 0,
        }
    }

    /// The changes that were noted and not handed out yet.
    pub fn changes(&self) -> &Vec<Change>
        ensures { result.now.items ≡ self.now.changes }
    {
        &self.changes
    }

    /// Promises room for so many changes more, if there is memory for it.
    pub fn promise(&mut self, changes: usize) -> bool
        ensures more { result ≡ true → self.new ≡ record self.old { promised = self.old.promised + changes } }
        ensures same { result ≡ false → self.new ≡ self.old }
    {
        let Some(promised) = self.promised.checked_add(changes) else {
            return false;
        };
        if self.changes.reserve(promised).is_err() {
            return false;
        }
        self.promised = promised;
        true
    }

    /// Takes back what was promised for so many changes.
    pub fn release(&mut self, changes: usize)
        requires { changes ≤ self.old.promised }
        ensures changes { self.new.changes ≡ self.old.changes }
        ensures promised { self.new.promised + changes ≡ self.old.promised }
    {
        self.promised -= changes;
    }

    /// Takes back all that was promised.
    pub fn release_all(&mut self)
        ensures { self.new ≡ record self.old { promised = 0 } }
    {
        self.promised = 0;
    }

    /// Notes the change of an act, if it made one. Room for it was promised, and is used up.
    pub fn note(&mut self, change: Option<Change>)
        requires { 1 ≤ self.old.promised }
        ensures changes { self.new.changes ≡ self.old.changes ++ changes_in change }
        ensures promised { self.new.promised + 1 ≡ self.old.promised }
    {
        self.promised -= 1;
        if let Some(change) = change {
            self.changes.push_reserved(change);
        }
    }

    /// Notes the changes that a rewrite of a memory makes of its kept words, for each of these words that is another
    /// than the one that it is written over, and then promises room for so many more. It fails for want of memory, and
    /// then nothing is noted, and what was promised stays.
    pub fn note_rewrite<W: KeptWords>(
        &mut self,
        memory: &Memory,
        from: usize,
        words: &W,
        more: usize,
    ) -> Result<(), AllocError>
        requires { from + length (W.kept_words words.now) ≤ length memory.now.words.kept }
        // Long, since it names the changes, what is written, where, and over what.
        ensures noted { OnOk result (HasNotedWritten self.old.changes self.new.changes
            from (W.kept_words words.now) memory.now.words.kept) }
        ensures promised { OnOk result (self.new.promised ≡ more) }
        ensures same { OnErr result (self.new ≡ self.old) }
    {
        let before = self.changes.len();
        if !add_differences(memory, from, words, &mut self.changes)
            || self.changes.reserve(more).is_err()
        {
            self.changes.truncate(before);
            return Err(AllocError);
        }
        self.promised = more;
        Ok(())
    }

    /// Hands out all notes, and goes on in another vector, which has none. It fails for want of memory for what was
    /// promised, and then all stays.
    pub fn hand_out(&mut self, fresh: Vec<Change>) -> Result<Vec<Change>, AllocError>
        requires { fresh.items ≡ [] }
        ensures changes { IfOk result (λ batch. batch.items ≡ self.old.changes) }
        ensures emptied { OnOk result (self.new ≡ record self.old { changes = [] }) }
        ensures same { OnErr result (self.new ≡ self.old) }
    {
        let mut fresh = fresh;
        fresh.reserve(self.promised)?;
        Ok(replace(&mut self.changes, fresh))
    }
}
