//! What holds of scripts of brokers: laws, of which the clauses say all.

ghost use Rattle.std.specs.Prelude.{◌≡◌, List, Option};
ghost use Rattle.broker_lines.specs.declared.printed.Printed.{Printed};
ghost use Rattle.broker_lines.specs.declared.statements.BrokerLine.{BrokerLine};
ghost use Rattle.broker_lines.specs.declared.statements.Statement.{Statement};
ghost use Rattle.broker_script.specs.Transcript.{AreLinesOf};
ghost use Rattle.broker_points.specs.Plain.{without_refusals, ArePlainButForRefusals, HasNoAgain};

/// A transcript without its lines that say that memory was refused is one of the script without its lines `again`, of
/// which no line is put off.
pub fn refusals_alone_differ()
    // Long: a law names all that it holds of.
    ensures { (broker : Option BrokerLine) (statements : List Statement) (lines : List Printed)
        → AreLinesOf broker statements lines → ArePlainButForRefusals broker statements lines }
{}

/// A script with no line `again` has no line that says that memory was refused.
pub fn no_refusal_without_again()
    // Long: a law names all that it holds of.
    ensures { (broker : Option BrokerLine) (statements : List Statement) (lines : List Printed)
        → HasNoAgain statements → AreLinesOf broker statements lines → without_refusals lines ≡ lines }
{}
