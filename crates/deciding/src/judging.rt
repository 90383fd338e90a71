//! The decision.
// A clause names the calls of the tables that it speaks of, so some are longer than 120 columns.

ghost use Rattle.std.specs.Prelude.{◌≡◌, length, List, IfOk, IsTrue, IsFalse};
ghost use Rattle.findings.specs.Findings.{HasNoOrder};
ghost use Rattle.findings.specs.FourPatterns.{HasOrder, IsOfQueue};
ghost use Rattle.windows.specs.Calls.{AreCalls, Explain, Pattern};
ghost use Rattle.windows.specs.Runs.{Step};
ghost use Rattle.deciding.specs.Table.{calls_by};
ghost use Rattle.deciding.specs.Right.{AreRight, calls_in};

use crate::known::Knows;
use crate::meaning::knows_of;
use crate::ranges::overfull;
use crate::reading::ends_of;
use crate::tables::{Tables, tables_of};
use crate::wrong::{any_bad_take, any_never_empty, any_two_cross};
use findings::Findings;
use std::alloc::{AllocError, Global};

/// Whether nothing is wrong with the calls of these tables: then some steps explain them, and else a pattern is in them.
#[tactic(auto, using(crate::proofs::Decided::decided_order, crate::proofs::Decided::bad_take_pattern, crate::proofs::Decided::cross_pattern, crate::proofs::Decided::never_pattern, crate::proofs::Decided::full_pattern))]
fn is_explained(tables: &Tables) -> bool
    requires { AreRight tables.now }
    ensures order { IsTrue result → (steps : List Step) × Explain (calls_in tables.now) steps }
    ensures pattern { IsFalse result → Pattern (calls_in tables.now) }
{
    if any_bad_take(tables) || any_two_cross(tables) {
        return false;
    }
    if let Some(_range) = overfull(tables) {
        return false;
    }
    !any_never_empty(tables)
}

/// Whether some steps explain what is known of calls, or else one of the four patterns is in them.
fn have_order(alloc: Global, known: Vec<Knows>, ends: Vec<usize>) -> Result<bool, AllocError>
    requires long { length ends.items ≡ length known.items }
    requires calls { AreCalls (calls_by known.items ends.items) }
    ensures order { IfOk result (λ yes. IsTrue yes → (steps : List Step) × Explain (calls_by known.items ends.items) steps) }
    ensures pattern { IfOk result (λ yes. IsFalse yes → Pattern (calls_by known.items ends.items)) }
{
    let tables = tables_of(alloc, known, ends)?;
    Ok(is_explained(&tables))
}

/// Whether an order explains what is known of the calls of a recording of a queue. Its time rises with the fourth power
/// of their number.
pub fn has_order(alloc: Global, findings: &Findings) -> Result<bool, AllocError>
    requires { IsOfQueue findings.now.events findings.now.learnt }
    ensures order { IfOk result (λ yes. IsTrue yes → HasOrder findings.now.events findings.now.learnt) }
    ensures none { IfOk result (λ yes. IsFalse yes → HasNoOrder findings.now.events findings.now.learnt) }
{
    let ends = ends_of(alloc, findings)?;
    match knows_of(alloc, findings)? {
        Some(known) => {
            let yes = have_order(alloc, known, ends)?;
            Ok(yes)
        }
        None => Ok(false),
    }
}
