//! Whether an order names calls and keeps precedence.

ghost use Rattle.std.specs.Prelude.{◌↔◌, All, IsSome, IsTrue};
ghost use Rattle.events.specs.Explains.{KeepsPrecedence};
ghost use Rattle.events.specs.Replay.{call_at};

use crate::facts::Findings;
use crate::known::precedes;
use events::Entry;

/// Whether each entry names a call.
pub(crate) fn names_calls(findings: &Findings, entries: &[Entry]) -> bool
    ensures { IsTrue result ↔ All (λ entry. IsSome (call_at findings.now.events entry.place)) entries.now }
{
    entries
        .iter()
        .all(|entry| findings.call_at(entry.place).is_some())
}

/// Whether calls stand in the order before those that they precede: none precedes the call that begins last of those
/// before it.
pub(crate) fn precedence_is_kept(findings: &Findings, entries: &[Entry]) -> bool
    ensures { IsTrue result ↔ KeepsPrecedence findings.now.events entries.now }
{
    let mut greatest = 0usize;
    for i in 0..entries.len() {
        let place = entries[i].place;
        greatest = greatest.max(place);
        if precedes(findings, place, greatest) {
            return false;
        }
    }
    true
}
