//! The answer: an order, or the first step with which there is none.

ghost use Rattle.std.specs.Prelude.{◌≡◌, ◌<◌, ◌≤◌, length, IfOk, IfSome, IsSome};
ghost use Rattle.findings.specs.Filling.{IsRecordedOfAny};
ghost use Rattle.answers.specs.Answers.{IsExplanation, IsFound, IsOfOneQueue, IsRefutation, IsRight};

use deciding::has_order;
use events::{Entry, Order, Sequence};
use findings::{Findings, Lack, Witness, explains_findings, is_of_queue, is_recorded, refutes};
use prefixes::{Prefix, findings_of, prefix_of};
use recording::Recording;
use seeking::{Found, search};
use std::alloc::{AllocError, Global};

/// Hears how far the search has come.
pub trait Watch {
    /// So many steps are searched now.
    fn look(&mut self, steps: usize);
}

/// What is said of a recording.
#[derive(Drop)]
pub enum Answer {
    Explained(Prefix, Order),
    /// No order explains the first steps, up to this prefix, and one explains those before the last of them.
    Impossible(Prefix, Witness, Order),
    /// An order explains all steps; the search found none that does.
    SomeOrder,
    /// No order does; the search found no witness of that.
    NoOrder,
}

/// The order, where it explains what the first so many steps come to.
fn judge_order(
    alloc: Global,
    recording: &Recording,
    count: usize,
    findings: &Findings,
    entries: Vec<Entry>,
) -> Result<Option<Order>, AllocError>
    requires found { IsFound recording.now count findings.now }
    requires recorded { IsRecordedOfAny findings.now.events findings.now.learnt }
    ensures { IfOk result (λ found. IfSome found (λ order. IsExplanation recording.now count order)) }
{
    let order = Order {
        entries: Sequence::from_vec(entries),
    };
    if explains_findings(alloc, findings, &order)? {
        Ok(Some(order))
    } else {
        Ok(None)
    }
}

/// The order, where it explains the first so many steps, and these are seen to be those of a recording.
pub(crate) fn judge_order_of_first(
    alloc: Global,
    recording: &Recording,
    count: usize,
    entries: Vec<Entry>,
) -> Result<Option<Order>, AllocError>
    ensures { IfOk result (λ found. IfSome found (λ order. IsExplanation recording.now count order)) }
{
    let findings = findings_of(alloc, recording, count)?;
    if !is_recorded(alloc, &findings)? {
        return Ok(None);
    }
    let found = judge_order(alloc, recording, count, &findings, entries)?;
    Ok(found)
}

/// The witness, where it shows that no order explains the first so many steps.
fn judge_witness(
    alloc: Global,
    recording: &Recording,
    count: usize,
    witness: Witness,
) -> Result<Option<Witness>, AllocError>
    ensures { IfOk result (λ found. IfSome found (λ w. IsRefutation recording.now count w)) }
{
    let findings = findings_of(alloc, recording, count)?;
    if refutes(&findings, &witness) {
        Ok(Some(witness))
    } else {
        Ok(None)
    }
}

/// The call that ends last of those that are named, by the places at which they begin.
fn last_call_of_lack(lack: &Lack) -> [usize; 2] {
    match lack {
        Lack::Late { put, take } => [*put, *take],
        Lack::Few { puts, since, .. } => {
            let ahead = since.and_then(|since| since.ahead);
            [
                puts.last().copied().unwrap_or(0),
                ahead.map_or(0, |ahead| ahead.take),
            ]
        }
    }
}

/// How many steps the prefix has in which all is known that the witness names, as far as that is easily seen.
fn bound(recording: &Recording, whole: &Prefix, witness: &Witness) -> usize {
    let mut last = 0usize;
    match witness {
        Witness::Invented { take, .. } => last = end_of(whole, *take),
        Witness::Twice { first, second, .. } => {
            last = end_of(whole, *first).max(end_of(whole, *second));
        }
        Witness::PassedOver { take, lack, .. } => {
            last = end_of(whole, *take);
            for call in last_call_of_lack(lack) {
                last = last.max(end_of(whole, call));
            }
        }
        Witness::NotEmpty { take, pieces, .. } => {
            last = end_of(whole, *take);
            for piece in pieces {
                for call in last_call_of_lack(&piece.lack) {
                    last = last.max(end_of(whole, call));
                }
            }
        }
    }
    match whole.step_of.get(last) {
        Some(step) => step.saturating_add(1).min(recording.steps.len()),
        None => recording.steps.len(),
    }
}

/// The end of the call at a place.
fn end_of(whole: &Prefix, place: usize) -> usize {
    let calls = &whole.calls.calls;
    match calls.binary_search_by_key(&place, |call| call.begin) {
        Ok(number) => match calls.get(number) {
            Some(call) => call.end,
            None => 0,
        },
        Err(_) => 0,
    }
}

/// What is known of the first step with which there is no order: it comes after `low` steps, and by `high` steps. All that
/// the witness names is known after `bound` steps.
#[derive(Drop)]
struct Between {
    low: usize,
    high: usize,
    bound: usize,
    witness: Witness,
    is_lost: bool,
}

impl Between {
    /// Searches the first so many steps.
    fn look<W: Watch>(
        &mut self,
        alloc: Global,
        recording: &Recording,
        count: usize,
        watch: &mut W,
    ) -> Result<(), AllocError> {
        watch.look(count);
        let prefix = prefix_of(alloc, recording, count)?;
        match search(alloc, &prefix.calls, false)? {
            Found::Order(_) => self.low = count,
            Found::Witness(witness) => {
                self.high = count;
                self.bound = bound(recording, &prefix, &witness);
                self.witness = witness;
            }
            Found::Nothing => self.is_lost = true,
        }
        Ok(())
    }

    fn is_open(&self) -> bool {
        !self.is_lost && self.low.saturating_add(1) < self.high
    }

    /// Goes to where all is known that the witness names, as long as there is one.
    fn follow<W: Watch>(
        &mut self,
        alloc: Global,
        recording: &Recording,
        watch: &mut W,
    ) -> Result<(), AllocError> {
        for _ in 0..8u8 {
            let count = self.bound;
            if !self.is_open() || count <= self.low || count >= self.high {
                return Ok(());
            }
            self.look(alloc, recording, count, watch)?;
        }
        Ok(())
    }

    /// Steps down from above, further and further.
    fn step_down<W: Watch>(
        &mut self,
        alloc: Global,
        recording: &Recording,
        watch: &mut W,
    ) -> Result<(), AllocError> {
        let mut step = 1usize;
        for _ in 0..16u8 {
            let count = self.high.saturating_sub(step);
            if !self.is_open() || count <= self.low {
                return Ok(());
            }
            self.look(alloc, recording, count, watch)?;
            if self.low == count {
                return Ok(());
            }
            step = step.saturating_mul(16);
        }
        Ok(())
    }

    fn halve<W: Watch>(
        &mut self,
        alloc: Global,
        recording: &Recording,
        watch: &mut W,
    ) -> Result<(), AllocError> {
        for _ in 0..64u8 {
            if !self.is_open() {
                return Ok(());
            }
            let count = self.low.wrapping_add(self.high.wrapping_sub(self.low) / 2);
            self.look(alloc, recording, count, watch)?;
        }
        Ok(())
    }
}

/// Judges both sides of the step with which there is no order any more; nothing, if a judge refuses one.
fn judged(
    alloc: Global,
    recording: &Recording,
    between: Between,
) -> Result<Option<Answer>, AllocError>
    ensures { IfOk result (λ found. IfSome found (λ answer. IsRight recording.now answer)) }
{
    let Between {
        low,
        high,
        bound: _,
        witness,
        is_lost,
    } = between;
    if is_lost || high == 0 || low != high - 1 || high > recording.steps.len() {
        return Ok(None);
    }
    let before = prefix_of(alloc, recording, low)?;
    let Found::Order(entries) = search(alloc, &before.calls, true)? else {
        return Ok(None);
    };
    let Some(order) = judge_order_of_first(alloc, recording, low, entries)? else {
        return Ok(None);
    };
    let Some(witness) = judge_witness(alloc, recording, high, witness)? else {
        return Ok(None);
    };
    let prefix = prefix_of(alloc, recording, high)?;
    Ok(Some(Answer::Impossible(prefix, witness, order)))
}

/// Finds the first step with which there is no order; nothing, if that is not seen.
fn first<W: Watch>(
    alloc: Global,
    recording: &Recording,
    whole: &Prefix,
    witness: Witness,
    watch: &mut W,
) -> Result<Option<Answer>, AllocError>
    ensures { IfOk result (λ found. IfSome found (λ answer. IsRight recording.now answer)) }
{
    let mut between = Between {
        low: 0,
        high: recording.steps.len(),
        bound: bound(recording, whole, &witness),
        witness,
        is_lost: false,
    };
    between.follow(alloc, recording, watch)?;
    between.step_down(alloc, recording, watch)?;
    between.halve(alloc, recording, watch)?;
    let found = judged(alloc, recording, between)?;
    Ok(found)
}

/// What the search finds, if its judge takes it.
pub(crate) fn searched<W: Watch>(
    alloc: Global,
    recording: &Recording,
    findings: Findings,
    watch: &mut W,
) -> Result<Option<Answer>, AllocError>
    requires found { IsFound recording.now (length recording.now.steps.items) findings }
    requires recorded { IsRecordedOfAny findings.events findings.learnt }
    ensures { IfOk result (λ found. IfSome found (λ answer. IsRight recording.now answer)) }
{
    let count = recording.steps.len();
    let whole = prefix_of(alloc, recording, count)?;
    watch.look(count);
    match search(alloc, &whole.calls, true)? {
        Found::Order(entries) => {
            let found = judge_order(alloc, recording, count, &findings, entries)?;
            match found {
                Some(order) => Ok(Some(Answer::Explained(whole, order))),
                None => Ok(None),
            }
        }
        Found::Witness(witness) => {
            // (the search for the first step needs room)
            drop(findings);
            let found = first(alloc, recording, &whole, witness, watch)?;
            Ok(found)
        }
        Found::Nothing => Ok(None),
    }
}

/// Whether an order explains all steps, decided without the search, and slowly.
fn decided(alloc: Global, recording: &Recording) -> Result<Answer, AllocError>
    requires { IsOfOneQueue recording.now }
    ensures { IfOk result (λ answer. IsRight recording.now answer) }
{
    let findings = findings_of(alloc, recording, recording.steps.len())?;
    if has_order(alloc, &findings)? {
        return Ok(Answer::SomeOrder);
    }
    Ok(Answer::NoOrder)
}

/// What the steps come to, if that is seen to be a recording of a queue.
pub fn seen(alloc: Global, recording: &Recording) -> Result<Option<Findings>, AllocError>
    ensures found { IfOk result (λ seen. IfSome seen
        (λ findings. IsFound recording.now (length recording.now.steps.items) findings)) }
    ensures of_queue { IfOk result (λ seen. IsSome seen → IsOfOneQueue recording.now) }
{
    let findings = findings_of(alloc, recording, recording.steps.len())?;
    if is_of_queue(alloc, &findings)? {
        Ok(Some(findings))
    } else {
        Ok(None)
    }
}

/// Whether an order explains the recording, or why none does; the findings are what its steps come to. What the search
/// finds is judged: an order by the judge of orders, and a witness by the judge of witnesses. Where a judge refuses what
/// was found, or nothing was, it is decided without the search, in a time that rises with the fourth power of the steps.
pub fn answer_of<W: Watch>(
    alloc: Global,
    recording: &Recording,
    findings: Findings,
    watch: &mut W,
) -> Result<Answer, AllocError>
    requires found { IsFound recording.now (length recording.now.steps.items) findings }
    requires of_queue { IsOfOneQueue recording.now }
    ensures { IfOk result (λ answer. IsRight recording.now answer) }
{
    if let Some(answer) = searched(alloc, recording, findings, watch)? {
        return Ok(answer);
    }
    let answer = decided(alloc, recording)?;
    Ok(answer)
}
