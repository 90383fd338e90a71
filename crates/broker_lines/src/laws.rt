//! What holds of lines of brokers' scripts: a law, of which the clause says all.

ghost use Rattle.std.specs.Prelude.{◌≡◌, ℕ, List};
ghost use Rattle.broker_lines.specs.Script.{SaysScript};
ghost use Rattle.broker_lines.specs.Scripted.{Scripted};

/// Lines say at most one script.
pub fn one_script_a_text()
    ensures { (lines : List (List ℕ)) (one other : Scripted)
        → SaysScript lines one → SaysScript lines other → one ≡ other }
{}
