//! How a broker goes on, on the words that a journal leaves.

ghost use Rattle.std.specs.Prelude.{IfErr, IfOk};
ghost use Rattle.persist.specs.Memory.{words_at_rest};
ghost use Rattle.named.specs.Brokers.{counts_of};
ghost use Rattle.named.specs.Promises.{KeepsPromises};
ghost use Rattle.session.specs.Sessions.{IsUncalled};
ghost use Rattle.opening.specs.Opening.{HasBegunOn, IsOpened, IsReopenedAnew, IsWhyNotReopened, IsWhyNotReopenedAnew};

use crate::opening::recovered;
use named::Broker;
use persist::Memory;
use std::alloc::Global;
use words::Refusal;

/// The broker of these words, as it begins to recover. It is refused as [`reopened`] is.
fn begun_on(alloc: Global, words: Vec<u64>) -> Result<Broker, Refusal>
    ensures begun { IfOk result (HasBegunOn (words_at_rest words.items)) }
    ensures errors { IfErr result (IsWhyNotReopened words.items) }
    ensures promises { IfOk result KeepsPromises }
{
    Broker::boot(alloc, Memory::of(alloc, words)?)
}

/// The broker that goes on, on these words, once it has recovered. It is refused where there is no word, or more than a
/// memory has (BadCount), where the words break a rule (Damaged, with the first such rule), and for want of memory
/// (NoMemory), which may come first.
pub fn reopened(alloc: Global, words: Vec<u64>) -> Result<Broker, Refusal>
    ensures opened { IfOk result (IsOpened (words_at_rest words.items)) }
    ensures errors { IfErr result (IsWhyNotReopened words.items) }
    ensures uncalled { IfOk result IsUncalled }
    ensures promises { IfOk result KeepsPromises }
{
    recovered(begun_on(alloc, words)?)
}

/// The same with each queue in fresh records, for so many clients and so many records of each. It is refused as
/// [`reopened`] is, first; then as [`Broker::renewed`] says.
pub fn reopened_anew(
    alloc: Global,
    clients: u32,
    records: u32,
    words: Vec<u64>,
) -> Result<Broker, Refusal>
    ensures renewed { IfOk result (IsReopenedAnew words.items (counts_of clients records)) }
    ensures errors { IfErr result (IsWhyNotReopenedAnew words.items (counts_of clients records)) }
    ensures uncalled { IfOk result IsUncalled }
    ensures promises { IfOk result KeepsPromises }
{
    let start = begun_on(alloc, words)?;
    recovered(start.renewed(clients, records)?)
}
