//! Laws on windows, numbers of takes and moments.
// A law's clause begins with all that it speaks of, so some of them are longer than 120 columns.

ghost use Rattle.std.specs.Prelude.{ℕ, ◌<◌, ◌≤◌, ◌↔◌, ◌⊎◌, ◌++◌, List, Bool};
ghost use Rattle.windows.specs.Calls.{AreCalls, Calls, Explain, Pattern};
ghost use Rattle.windows.specs.Lists.{IsAmong};
ghost use Rattle.windows.specs.Moments.{EndsByIns, IsCrowded, high_at, high_at_all};
ghost use Rattle.windows.specs.Runs.{LeavesOut, Runs, Step, kept_of, puts_of};
ghost use Rattle.windows.specs.Takes.{AreGiven, AreSorted, IsOverfull, begun_before, over_by};
ghost use Rattle.windows.specs.Windows.{HaveNoTwo, IsLeft, IsLine, MayGoNext, Window};

/// Where no two values must each go before the other, there are no longer circles either: one of those that are left
/// may go next.
pub fn some_value_may_go_next()
    ensures { (n : ℕ) (window : ℕ → Window) (left : ℕ → Bool) (some : ℕ)
        → HaveNoTwo n window left → IsLeft n left some → (v : ℕ) × MayGoNext n window left v }
{}

/// So they have a whole line.
pub fn values_have_a_line()
    ensures { (n : ℕ) (window : ℕ → Window) (left : ℕ → Bool)
        → HaveNoTwo n window left → (line : List ℕ) × IsLine n window left line }
{}

/// Each value that is left may have one of a range of takes: then each has one of its own, or else there is a range
/// in which more of them lie than there are takes.
pub fn takes_suffice_or_a_range_is_overfull()
    ensures { (n : ℕ) (left : ℕ → Bool) (low high : ℕ → ℕ)
        → ((give : ℕ → ℕ) × AreGiven n left low high give)
        ⊎ ((from : ℕ) × ((to : ℕ) × IsOverfull n left low high from to)) }
{}

/// Where takes are sorted by begin and by end, those that end behind one place and begin before another are a range.
pub fn fitting_takes_are_a_range()
    ensures { (m : ℕ) (begins ends : ℕ → ℕ) (release limit k : ℕ)
        → AreSorted m begins ends → k < m
        → ((release < ends k) × (begins k < limit))
        ↔ ((over_by m ends release ≤ k) × (k < begun_before m begins limit)) }
{}

/// Moments are independent: where takes do not suffice with all of them, they do not suffice without them, or with one
/// of them alone.
pub fn moments_are_independent()
    ensures { (n : ℕ) (left : ℕ → Bool) (low high in_by begun : ℕ → ℕ) (moments : List ℕ) (from to : ℕ)
        → IsOverfull n left low (high_at_all high in_by begun moments) from to
        → IsOverfull n left low high from to
        ⊎ ((moment : ℕ) × (IsAmong moment moments
        × IsOverfull n left low (high_at high in_by begun moment) from to)) }
{}

/// Where takes do not suffice with one moment, they do not suffice without it, or too many values are in by then.
pub fn one_moment_is_crowded()
    ensures { (n : ℕ) (left : ℕ → Bool) (low high in_by begun : ℕ → ℕ) (moment from to : ℕ)
        → EndsByIns n left high in_by
        → IsOverfull n left low (high_at high in_by begun moment) from to
        → IsOverfull n left low high from to ⊎ IsCrowded n left low in_by begun from moment }
{}

/// A run of the queue is still one without all that was done with some of its values, and without some takes that found
/// nothing: so a put of which nobody got the value may be left out, with or without its take, and so may an open Empty.
pub fn dropped_values_change_nothing()
    ensures { (keep : ℕ → Bool) (queue : List ℕ) (steps fewer : List Step)
        → LeavesOut keep steps fewer → Runs queue steps → Runs (kept_of keep queue) fewer }
{}

/// So may the takes behind which there are none that are kept.
pub fn last_takes_may_be_dropped()
    ensures { (queue : List ℕ) (steps rest : List Step)
        → Runs queue (steps ++ rest) → Runs queue (steps ++ puts_of rest) }
{}

/// Of calls on a queue some steps explain what is known, or one of the four patterns is in them.
pub fn calls_have_an_order_or_a_pattern()
    ensures { (calls : Calls) → AreCalls calls → ((steps : List Step) × Explain calls steps) ⊎ Pattern calls }
{}
