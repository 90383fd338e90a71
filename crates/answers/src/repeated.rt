//! The answer to a recording in which values are put more than once. Whether there is an order is not always decided.

ghost use Rattle.std.specs.Prelude.{◌≡◌, IfOk, IfSome, length};
ghost use Rattle.recording.specs.declared.act.Recording.{Recording};
ghost use Rattle.answers.specs.Answers.{IsExplanation, IsRight, IsRightOfRepeated};

use crate::answer::{Answer, Watch, judge_order_of_first, searched, seen};
use events::{Entry, Order};
use findings::rank_of;
use prefixes::prefix_of;
use recording::{Distinct, Recording, Turn, ValueCounts, with_copies, without_repeated};
use seeking::{Found, search};
use std::alloc::{AllocError, Global};
use words::Reply;

/// What is said of a recording in which values are put more than once.
#[derive(Drop)]
pub enum Repeated {
    /// The answer to the recording: an order explains it. In it copies of a value come out as they were put.
    Explained(Answer),
    /// This value came out more often than it was put.
    Outnumbered { value: usize, counts: ValueCounts },
    /// No order explains this recording of a part of the calls, those on values of which one put may have taken effect; and
    /// this is the answer to it.
    Part(Recording, Answer),
    Undecided,
}

/// The value that the copy of a rank stands for.
fn value_of(distinct: &Distinct, copies: &[usize], rank: u32) -> usize {
    let copy = copies.get(rank as usize).copied().unwrap_or(0);
    distinct.values.get(copy).copied().unwrap_or(0)
}

/// The reply with the value in place of the copy.
fn reply_of(recording: &Recording, distinct: &Distinct, copies: &[usize], reply: &Reply) -> Reply {
    match reply {
        Reply::Done => Reply::Done,
        Reply::Empty => Reply::Empty,
        Reply::Got(copy) => {
            Reply::Got(recording.message(value_of(distinct, copies, rank_of(*copy))))
        }
    }
}

/// The copies by their ranks.
fn by_rank(alloc: Global, ranks: &[u32]) -> Result<Vec<usize>, AllocError> {
    let mut copies = vec![in alloc; 0usize; ranks.len()]?;
    for (copy, rank) in ranks.iter().enumerate() {
        if let Some(place) = copies.get_mut(*rank as usize) {
            *place = copy;
        }
    }
    Ok(copies)
}

/// The entries with values in place of copies.
fn entries_of(
    alloc: Global,
    recording: &Recording,
    distinct: &Distinct,
    entries: &[Entry],
) -> Result<Vec<Entry>, AllocError> {
    let copies = by_rank(alloc, &distinct.recording.ranks)?;
    let mut mapped = Vec::with_capacity(alloc, entries.len())?;
    for entry in entries {
        mapped.push(Entry {
            place: entry.place,
            reply: reply_of(recording, distinct, &copies, &entry.reply),
        })?;
    }
    Ok(mapped)
}

/// An order in which copies of a value come out as they were put, by takes in this order, if one is found that explains
/// what was recorded.
fn in_turn<W: Watch>(
    alloc: Global,
    recording: &Recording,
    turn: Turn,
    watch: &mut W,
) -> Result<Option<Order>, AllocError>
    ensures { IfOk result (λ found. IfSome found
        (λ order. IsExplanation recording.now (length recording.now.steps.items) order)) }
{
    let count = recording.steps.len();
    let distinct = with_copies(alloc, recording, turn)?;
    let prefix = prefix_of(alloc, &distinct.recording, count)?;
    watch.look(count);
    let Found::Order(entries) = search(alloc, &prefix.calls, true)? else {
        return Ok(None);
    };
    let entries = entries_of(alloc, recording, &distinct, &entries)?;
    let found = judge_order_of_first(alloc, recording, count, entries)?;
    Ok(found)
}

/// What the search finds of a recording, if its judge takes it.
fn found<W: Watch>(
    alloc: Global,
    recording: &Recording,
    watch: &mut W,
) -> Result<Option<Answer>, AllocError>
    ensures { IfOk result (λ found. IfSome found (λ answer. IsRight recording.now answer)) }
{
    match seen(alloc, recording)? {
        Some(findings) => {
            let found = searched(alloc, recording, findings, watch)?;
            Ok(found)
        }
        None => Ok(None),
    }
}

/// That no order explains a recording, if a witness is found.
fn refuted<W: Watch>(
    alloc: Global,
    recording: Recording,
    watch: &mut W,
) -> Result<Repeated, AllocError>
    ensures { IfOk result (λ answer. (of_it : Recording) → IsRightOfRepeated of_it answer) }
{
    match found(alloc, &recording, watch)? {
        Some(answer) if matches!(answer, Answer::Impossible(..)) => {
            Ok(Repeated::Part(recording, answer))
        }
        _ => Ok(Repeated::Undecided),
    }
}

/// A value that came out more often than it was put, if there is one.
fn outnumbered(counts: &[ValueCounts]) -> Option<usize> {
    counts
        .iter()
        .position(|counts| counts.puts > 1 && counts.takes > counts.live)
}

/// A recording that has an order if this one has: without the values of which more than one put may have taken effect, and
/// with puts of others apart, of which one may.
fn part_of(
    alloc: Global,
    recording: &Recording,
    counts: &[ValueCounts],
) -> Result<Recording, AllocError> {
    let rest = without_repeated(alloc, recording, counts)?;
    let apart = with_copies(alloc, &rest, Turn::AsAnswered)?;
    Ok(apart.recording)
}

/// Why no order explains the recording, if that is seen.
fn impossible<W: Watch>(
    alloc: Global,
    recording: &Recording,
    counts: &[ValueCounts],
    watch: &mut W,
) -> Result<Repeated, AllocError>
    ensures { IfOk result (λ answer. IsRightOfRepeated recording.now answer) }
{
    if let Some(value) = outnumbered(counts) {
        if let Some(of_it) = counts.get(value) {
            let counts = *of_it;
            return Ok(Repeated::Outnumbered { value, counts });
        }
    }
    let part = part_of(alloc, recording, counts)?;
    let answer = refuted(alloc, part, watch)?;
    Ok(answer)
}

/// Whether an order explains a recording in which values are put more than once, of which these are the counts, or why
/// none does, if either is seen. An order is judged by what was recorded.
pub fn answer_of_repeated<W: Watch>(
    alloc: Global,
    recording: &Recording,
    counts: &[ValueCounts],
    watch: &mut W,
) -> Result<Repeated, AllocError>
    ensures { IfOk result (λ answer. IsRightOfRepeated recording.now answer) }
{
    let mut order = in_turn(alloc, recording, Turn::AsAnswered, watch)?;
    if order.is_none() {
        order = in_turn(alloc, recording, Turn::AsBegun, watch)?;
    }
    let answer = match order {
        Some(order) => {
            let prefix = prefix_of(alloc, recording, recording.steps.len())?;
            Repeated::Explained(Answer::Explained(prefix, order))
        }
        None => impossible(alloc, recording, counts, watch)?,
    };
    Ok(answer)
}
