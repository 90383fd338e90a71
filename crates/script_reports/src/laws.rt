//! What holds of parts of a report.

ghost use Rattle.std.specs.Prelude.{ℕ, List, ◌≡◌};
ghost use Rattle.explore.specs.Points.{Found};
ghost use Rattle.script_reports.specs.Reports.{all_lines, lines_of_part, PartAndRestMakeOne, PartsMakeOne};
ghost use Rattle.explore.specs.declared.part.TheConstants.{WHOLE};

/// Of two parts that follow each other the lines, put together, are those of the part that begins where the first does
/// and has as many points as both; so the lines of any number of parts, each of which begins where the one before ends,
/// are those of one. The lines of a part and of all points that come after it are those from where it begins; and those
/// from point 0 on are the whole.
pub fn parts_make_the_whole()
    ensures joined { (clients from first second : ℕ) (points : List Found)
        → PartsMakeOne clients points from first second }
    ensures last { (clients from first : ℕ) (points : List Found)
        → PartAndRestMakeOne clients points from first }
    ensures whole { (clients : ℕ) (points : List Found)
        → lines_of_part clients WHOLE points ≡ all_lines clients points }
{}
