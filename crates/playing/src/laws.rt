//! What holds of every transcript.

ghost use Rattle.std.specs.Prelude.{◌≡◌, ℕ, List, Option};
ghost use Rattle.grammar.specs.declared.commands.Command.{Command};
ghost use Rattle.grammar.specs.declared.commands.QueueLine.{QueueLine};
ghost use Rattle.playing.specs.Transcript.{script_lines, script_text, AreButForRefusals, AreLinesOf, HasNoAgain, IsTranscript};
ghost use Rattle.playing.specs.declared.lines.Line.{Line};

/// A transcript has the lines that the script gives where no memory is refused, and beside them such alone as say that
/// it was.
pub fn refusals_alone_differ()
    // Long: a law names all that it holds of.
    ensures { (queue : Option QueueLine) (commands : List Command) (lines : List Line)
        → AreLinesOf queue commands lines → AreButForRefusals (script_lines queue commands) lines }
{}

/// A script with no line `again` has one transcript.
pub fn one_transcript_without_again()
    // Long: a law names all that it holds of.
    ensures { (queue : Option QueueLine) (commands : List Command) (text : List ℕ)
        → HasNoAgain commands → IsTranscript queue commands text → text ≡ script_text queue commands }
{}
