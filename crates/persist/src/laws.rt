//! What holds of every image of a memory, and of every change of its kept words.
// A law's clause begins with all that it speaks of, so some of them are longer than 120 columns.

ghost use Rattle.std.specs.Prelude.{◌≡◌, ◌+◌, ◌++◌, ◌≤◌, ℕ, List, Ok, Option, length};
ghost use Rattle.persist.specs.Changes.{change_of};
ghost use Rattle.persist.specs.Image.{AreWords, AreBytes, image_of, reading};
ghost use Rattle.persist.specs.Memory.{Access, Words, IsSameOutside, after, words_after_eviction};
ghost use Rattle.persist.specs.Noted.{applied, change_made_by, changes_in, IsNoted, IsNotedBehind};
ghost use Rattle.persist.specs.declared.access.Change.{Change};

/// The words of any memory are read from their image. Bytes that are read have the words of some memory, and are the
/// image of these, and no other bytes are read as them.
pub fn words_have_one_image()
    ensures read { (words : List ℕ) → AreWords words → reading (image_of words) ≡ Ok words }
    ensures words { (bytes words : List ℕ) → AreBytes bytes → reading bytes ≡ Ok words → AreWords words }
    ensures image { (bytes words : List ℕ) → AreBytes bytes → reading bytes ≡ Ok words → image_of words ≡ bytes }
{}

/// An access, and an eviction, change the kept words by the change that they answer, and in no other way. So does what
/// acts on a part alone, by the change of the word as the whole numbers it. So who puts the changes of acts one behind
/// the other has what they make of the kept words, and each is of one of these words.
pub fn changes_are_noted()
    ensures accessed { (access : Access ℕ) (ws : Words) → length ws.kept ≡ length ws.cached
        → IsNoted (change_made_by access ws) ws.kept (after access ws).kept }
    ensures evicted { (word : ℕ) (ws : Words) → length ws.kept ≡ length ws.cached
        → IsNoted (change_of ws word) ws.kept (words_after_eviction word ws).kept }
    ensures within { (from len : ℕ) (old new : Words)
        → IsSameOutside from len old new → from + len ≤ length old.kept → IsNotedBehind from len old new }
    ensures more { (first old new : List ℕ) (changes : List Change) (change : Option Change)
        → old ≡ applied changes first → IsNoted change old new
        → new ≡ applied (changes ++ changes_in change) first }
    ensures length { (first : List ℕ) (changes : List Change) → length (applied changes first) ≡ length first }
{}
