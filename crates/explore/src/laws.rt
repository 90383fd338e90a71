//! What holds of every script.

ghost use Rattle.std.specs.Prelude.{◌≡◌, List};
ghost use Rattle.arena.specs.Shape.{Shape};
ghost use Rattle.grammar.specs.declared.commands.Command.{Command};
ghost use Rattle.explore.specs.Acts.{attempted_world, followed_world};

/// The world that a transcript follows is that of all that the commands attempt. Of these attempts `points` and `alone`
/// take the accepted ones.
pub fn transcripts_follow_attempts()
    ensures { (s : Shape) (commands : List Command) → followed_world s commands ≡ attempted_world s commands }
{}
