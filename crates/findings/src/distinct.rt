//! Whether values differ.

ghost use Rattle.std.specs.Prelude.{IsTrue};
ghost use Rattle.std.specs.List.Sorted.{IsStrictlyIncreasing};
ghost use Rattle.findings.specs.Findings.{HasDistinctValues};

use crate::facts::Findings;
use crate::known::value_of_put;
use crate::rank::rank_of;

/// Whether the numbers of the values that calls put rise from call to call: then no two are the same. Whoever numbers
/// values by their puts has them rise.
pub(crate) fn values_rise(findings: &Findings) -> bool
    ensures { IsTrue result → HasDistinctValues findings.now.events }
{
    let mut least: u64 = 0;
    for p in 0..findings.len() {
        if let Some(value) = value_of_put(findings, p) {
            let rank = u64::from(rank_of(value));
            if rank < least {
                return false;
            }
            least = rank + 1;
        }
    }
    true
}

/// Whether each number is greater than the one before.
pub(crate) fn numbers_rise(numbers: &[usize]) -> bool
    ensures { IsTrue result → IsStrictlyIncreasing numbers.now }
{
    for i in 1..numbers.len() {
        if numbers[i] <= numbers[i - 1] {
            return false;
        }
    }
    true
}
