//! All that is looked up of calls, by their places.

ghost use Rattle.std.specs.Prelude.{◌≡◌, length, IfOk};
ghost use Rattle.windows.specs.Calls.{AreCalls};
ghost use Rattle.deciding.specs.Table.{calls_by};
ghost use Rattle.deciding.specs.Right.{AreRight, calls_in};

use crate::bounds::{limits_of, releases_of};
use crate::known::{Knows, takes_of};
use crate::opens::{highs_of, lows_of, opens_of};
use std::alloc::{AllocError, Global};

/// What is known and where calls end; the take of each value; the open takes, and for each value which of them fit.
#[derive(Drop)]
pub(crate) struct Tables {
    pub known: Vec<Knows>,
    pub ends: Vec<usize>,
    pub takes: Vec<usize>,
    pub opens: Vec<usize>,
    pub lows: Vec<usize>,
    pub highs: Vec<usize>,
}

pub(crate) fn tables_of(
    alloc: Global,
    known: Vec<Knows>,
    ends: Vec<usize>,
) -> Result<Tables, AllocError>
    requires long { length ends.items ≡ length known.items }
    requires calls { AreCalls (calls_by known.items ends.items) }
    ensures { IfOk result (λ tables. AreRight tables × (calls_in tables ≡ calls_by known.items ends.items)) }
{
    let takes = takes_of(alloc, &known, &ends)?;
    let releases = releases_of(alloc, &known, &ends, &takes)?;
    let limits = limits_of(alloc, &known, &ends, &takes)?;
    let opens = opens_of(alloc, &known, &ends)?;
    let lows = lows_of(alloc, &known, &ends, &opens, &releases)?;
    let highs = highs_of(alloc, &known, &ends, &opens, &limits)?;
    Ok(Tables {
        known,
        ends,
        takes,
        opens,
        lows,
        highs,
    })
}
