//! What noted changes make of words.
// A law's clause begins with all that it speaks of, so some of them are longer than 120 columns.

ghost use Rattle.std.specs.Prelude.{◌++◌, [], List, Option, ℕ};
ghost use Rattle.persist.specs.Noted.{changes_in, IsNoted};
ghost use Rattle.persist.specs.declared.access.Change.{Change};
ghost use Rattle.notes.specs.Noting.{HasNoted, IsMadeBy};

/// No change makes the words of before, and the change of one act its words. Changes one behind the other make what
/// they make of words one after another: so do those that were handed out, and what acts noted behind them.
pub fn noted_changes_make_words()
    ensures none { (words : List ℕ) → IsMadeBy [] words words }
    ensures one { (change : Option Change) (old new : List ℕ) → IsNoted change old new
        → IsMadeBy (changes_in change) old new }
    ensures more { (first second : List Change) (old now new : List ℕ) → IsMadeBy first old now
        → IsMadeBy second now new → IsMadeBy (first ++ second) old new }
    ensures noted { (handed old new : List Change) (first was now : List ℕ) → IsMadeBy (handed ++ old) first was
        → HasNoted old new was now → IsMadeBy (handed ++ new) first now }
{}
