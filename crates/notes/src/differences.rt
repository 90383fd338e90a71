//! The changes that other words make, written over a part of a memory's kept words.

ghost use Rattle.std.specs.Prelude.{◌≡◌, ◌≤◌, ◌+◌, length, take, true, vec_capacity, vec_len};
ghost use Rattle.notes.specs.Noting.{HasNotedWritten};

use persist::{Change, KeptWords, Memory};

/// Adds a change for each word that is another than the kept one that it is written over, if there is memory for all of
/// them; else for some of them.
pub(crate) fn add_differences<W: KeptWords>(
    memory: &Memory,
    from: usize,
    words: &W,
    changes: &mut Vec<Change>,
) -> bool
    requires { from + length (W.kept_words words.now) ≤ length memory.now.words.kept }
    // Long, since it names the changes, what is written, where, and over what.
    ensures noted { result ≡ true → HasNotedWritten changes.old.items changes.new.items
        from (W.kept_words words.now) memory.now.words.kept }
    ensures before { take (vec_len changes.old) changes.new.items ≡ changes.old.items }
    ensures capacity { vec_capacity changes.old ≤ vec_capacity changes.new }
{
    // The part is inside, and a memory's words are numbered by a `usize`.
    let _count = KeptWords::size(memory);
    for at in 0..words.size() {
        let word = from + at;
        let was = memory.kept(word);
        let is = words.kept(at);
        if was != is {
            let change = Change {
                word,
                old: was,
                new: is,
            };
            if changes.push(change).is_err() {
                return false;
            }
        }
    }
    true
}
