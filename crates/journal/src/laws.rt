//! What holds of every journal.
// A law's clause begins with all that it speaks of, so some of them are longer than 120 columns.

ghost use Rattle.std.specs.Prelude.{◌≡◌, ℕ, List, Ok, [], ◌∷◌, ◌++◌, length, replicate};
ghost use Rattle.persist.specs.Image.{AreBytes};
ghost use Rattle.persist.specs.declared.access.Change.{Change};
ghost use Rattle.journal.specs.declared.format.TheConstants.{KEY_BYTES};
ghost use Rattle.journal.specs.Frame.{Batch, IsBatchIn};
ghost use Rattle.persist.specs.Noted.{applied};
ghost use Rattle.journal.specs.Journal.{IsJournal, changes_of, compacted, end_behind, end_of, frame_behind, journal_of, words_after};
ghost use Rattle.journal.specs.Reading.{Read, ReadsAs, reading};
ghost use Rattle.journal.specs.Stops.{EachCutIsLeft, EachStopIsRead, IsReadOfSome, IsTorn, ReadsWithout};

/// A journal is read as the words after all its batches. What follows it, where that does not go on with a whole frame,
/// is cut off: so are zeros, by which a file may be lengthened ahead.
pub fn journals_are_read()
    ensures whole { (key base : List ℕ) (batches : List Batch) → IsJournal key base batches
        → ReadsAs key (words_after batches base) 0 (journal_of key base batches) }
    ensures torn { (key base : List ℕ) (batches : List Batch) (tail : List ℕ)
        → IsJournal key base batches → IsTorn key base batches tail → ReadsWithout key base batches tail }
    ensures zeros { (key base : List ℕ) (batches : List Batch) (n : ℕ) → IsJournal key base batches
        → ReadsAs key (words_after batches base) n (journal_of key base batches ++ replicate n 0) }
{}

/// A journal that is cut off anywhere behind its head is one that a stop may leave, whatever was kept before the cut.
/// And whatever a stop leaves is read: as the words after a beginning of its batches, which has all that were kept.
pub fn stops_leave_a_beginning()
    ensures cut { (key base : List ℕ) (batches : List Batch)
        → IsJournal key base batches → EachCutIsLeft key base batches }
    ensures read { (key base : List ℕ) (batches : List Batch)
        → IsJournal key base batches → EachStopIsRead key base batches }
{}

/// Bytes that are read are a journal, and a tail that does not go on with a whole frame. The words are those after the
/// batches of that journal, and what was cut off is the tail.
pub fn only_journals_are_read()
    ensures { (bytes : List ℕ) (r : Read) → AreBytes bytes → reading bytes ≡ Ok r → IsReadOfSome bytes r }
{}

/// What a writer appends makes a journal of one batch more of the journal that it goes on from.
pub fn frames_make_journals()
    ensures journal { (key base : List ℕ) (batches : List Batch) (batch : Batch)
        → IsJournal key base batches → IsBatchIn (length base) batch → IsJournal key base (batches ++ batch ∷ []) }
    ensures bytes { (key base : List ℕ) (batches : List Batch) (batch : Batch)
        → journal_of key base (batches ++ batch ∷ [])
        ≡ journal_of key base batches ++ frame_behind (end_of key base batches) batch }
    ensures end { (key base : List ℕ) (batches : List Batch) (batch : Batch)
        → end_of key base (batches ++ batch ∷ []) ≡ end_behind (end_of key base batches) batch }
{}

/// A compaction: the journal that begins on the words after all batches, and has none, is a journal, and is read as the
/// same words.
pub fn compactions_read_the_same()
    ensures journal { (key base other : List ℕ) (batches : List Batch) → IsJournal key base batches
        → length other ≡ KEY_BYTES → IsJournal other (words_after batches base) [] }
    ensures read { (key base other : List ℕ) (batches : List Batch) → IsJournal key base batches
        → length other ≡ KEY_BYTES → ReadsAs other (words_after batches base) 0 (compacted other base batches) }
{}

/// Words after batches are the words after all their changes, and words after two lists of changes those after one list.
pub fn batches_are_their_changes()
    ensures batches { (batches : List Batch) (words : List ℕ)
        → words_after batches words ≡ applied (changes_of batches) words }
    ensures changes { (first second : List Change) (words : List ℕ)
        → applied (first ++ second) words ≡ applied second (applied first words) }
{}
