//! One access, at a place of a layout.

ghost use Rattle.std.specs.Prelude.{◌≡◌, ◌≤◌, length, slice_index};
ghost use Rattle.persist.specs.Memory.{Load, Store, Cas, Flush, Fence, Word};
ghost use Rattle.persist.specs.Changes.{change_of, swap_of};
ghost use Rattle.arena.specs.Shape.{greatest};
ghost use Rattle.arena.specs.Layout.{size_of, word_at};
ghost use Rattle.arena.specs.Place.{IsPlace};
ghost use Rattle.stepper.specs.Step.{after_one, lent_after_one};

use arena::{Layout, Place, Write};
use persist::{Change, Swap, WordMemory};
use words::MAX_RECORD_NUMBER;

// The accesses stand in their callers' code, where the place is known, and with it most of the way to its word.

/// Loads the word of a place.
#[inline(always)]
pub fn load_at<M: WordMemory>(layout: &Layout, memory: &mut M, place: Place) -> u64
    requires place { IsPlace layout.now place }
    requires room { size_of layout.now ≤ length (M.words memory.old).cached }
    ensures value { result ≡ slice_index (M.words memory.old).cached (word_at layout.now place) }
    ensures one_access { M.words memory.new ≡ after_one layout.now (Load place) (M.words memory.old) }
    ensures lent { M.lent memory.new ≡ M.lent memory.old }
    ensures few { greatest layout.now ≤ MAX_RECORD_NUMBER }
{
    let word = layout.word(place);
    memory.load(word).unwrap()
}

/// Makes a write.
#[inline(always)]
pub fn store_at<M: WordMemory>(layout: &Layout, memory: &mut M, write: Write)
    requires place { IsPlace layout.now write.place }
    requires room { size_of layout.now ≤ length (M.words memory.old).cached }
    ensures one_access { M.words memory.new
        ≡ after_one layout.now (Store write.place write.value) (M.words memory.old) }
    ensures lent { M.lent memory.new ≡ M.lent memory.old }
{
    let word = layout.word(write.place);
    memory.store(word, write.value).unwrap()
}

/// Makes a write where the place has this old value.
#[inline(always)]
pub fn cas_at<M: WordMemory>(layout: &Layout, memory: &mut M, old: u64, write: Write) -> Swap
    requires place { IsPlace layout.now write.place }
    requires room { size_of layout.now ≤ length (M.words memory.old).cached }
    ensures swap { result ≡ swap_of (M.words memory.old) (word_at layout.now write.place) old }
    ensures one_access { M.words memory.new
        ≡ after_one layout.now (Cas write.place old write.value) (M.words memory.old) }
    ensures lent { M.lent memory.new ≡ M.lent memory.old }
    ensures few { greatest layout.now ≤ MAX_RECORD_NUMBER }
{
    let word = layout.word(write.place);
    memory.cas(word, old, write.value).unwrap()
}

/// Asks that a place's word be kept.
#[inline(always)]
pub fn flush_at<M: WordMemory>(layout: &Layout, memory: &mut M, place: Place)
    requires place { IsPlace layout.now place }
    requires room { size_of layout.now ≤ length (M.words memory.old).cached }
    ensures one_access { M.words memory.new ≡ after_one layout.now (Flush place) (M.words memory.old) }
    ensures lent { M.lent memory.new ≡ lent_after_one layout.now (Flush place) (M.lent memory.old) }
{
    let word = layout.word(place);
    memory.flush(word).unwrap()
}

/// Keeps the cached value of a place's word, which was asked for. It answers the change, where the kept value changed.
#[inline(always)]
pub fn fence_at<M: WordMemory>(layout: &Layout, memory: &mut M, place: Place) -> Option<Change>
    requires asked { (M.lent memory.old).request ≡ Word (word_at layout.now place) }
    ensures change { result ≡ change_of (M.words memory.old) (word_at layout.now place) }
    ensures one_access { M.words memory.new ≡ after_one layout.now (Fence place) (M.words memory.old) }
    ensures lent { M.lent memory.new ≡ lent_after_one layout.now (Fence place) (M.lent memory.old) }
{
    memory.fence().unwrap()
}
