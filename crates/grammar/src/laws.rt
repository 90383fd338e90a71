//! What holds of every script.

ghost use Rattle.std.specs.Prelude.{◌≡◌, ℕ, List};
ghost use Rattle.grammar.specs.Script.{SaysScript};
ghost use Rattle.grammar.specs.Scripted.{Scripted};

/// Lines say at most one script.
pub fn one_script_a_text()
    ensures { (lines : List (List ℕ)) (one other : Scripted)
        → SaysScript lines one → SaysScript lines other → one ≡ other }
{}
