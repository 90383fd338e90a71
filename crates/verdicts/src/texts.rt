//! The verdict as text.

use answers::{Answer, Repeated};
use events::Entry;
use findings::{Lack, Piece, Since, Witness, rank_of};
use prefixes::Prefix;
use recording::{Act, Recording, Said, ValueCounts, shown};
use seeking::{Known, KnownCall};
use std::alloc::{AllocError, Global};
use std::fmt::Write;
use words::{Reply, Value};

/// Text that is put together about the first steps of a recording.
#[derive(Drop)]
struct Pen<'a> {
    alloc: Global,
    recording: &'a Recording,
    prefix: &'a Prefix,
    /// For each call one more than the step that says last what became of it.
    ends: Vec<usize>,
    /// The values as they were put.
    values: Vec<usize>,
    text: String,
    /// Whether memory was refused for a part of the text. That is asked once, of the whole.
    failed: bool,
}

/// The call that a step is of, but for its begin.
fn call_ended(act: Act) -> Option<usize> {
    match act {
        Act::Answer(call, _) | Act::Refuse(call) => Some(call),
        Act::LearnTaken(call, _) | Act::LearnNotTaken(call) => Some(call),
        _ => None,
    }
}

/// For each call one more than the step that says last what became of it.
fn ends(alloc: Global, recording: &Recording, count: usize) -> Result<Vec<usize>, AllocError> {
    let mut ends = Vec::with_capacity(alloc, recording.calls.len())?;
    for _ in 0..recording.calls.len() {
        ends.push(0usize)?;
    }
    for number in 0..count.min(recording.steps.len()) {
        if let Some(call) = call_ended(recording.steps[number].act) {
            if let Some(end) = ends.get_mut(call) {
                *end = number.saturating_add(1);
            }
        }
    }
    Ok(ends)
}

/// The values by their numbers among those that are put.
fn values_by_rank(alloc: Global, recording: &Recording) -> Result<Vec<usize>, AllocError> {
    let mut pairs = Vec::with_capacity(alloc, recording.ranks.len())?;
    for (value, rank) in recording.ranks.iter().enumerate() {
        pairs.push((*rank, value))?;
    }
    pairs.sort()?;
    let mut values = Vec::with_capacity(alloc, pairs.len())?;
    for pair in &pairs {
        values.push(pair.1)?;
    }
    Ok(values)
}

/// For each value one more than the step at which it is known to have come out.
fn outs(alloc: Global, recording: &Recording) -> Result<Vec<usize>, AllocError> {
    let mut outs = Vec::with_capacity(alloc, recording.values.len())?;
    for _ in 0..recording.values.len() {
        outs.push(0usize)?;
    }
    for (number, step) in recording.steps.iter().enumerate() {
        if let Act::Answer(_, Said::Got(value)) | Act::LearnTaken(_, Said::Got(value)) = step.act {
            if let Some(out) = outs.get_mut(value) {
                *out = number.saturating_add(1);
            }
        }
    }
    Ok(outs)
}

impl<'a> Pen<'a> {
    fn new(
        alloc: Global,
        recording: &'a Recording,
        prefix: &'a Prefix,
    ) -> Result<Self, AllocError> {
        Ok(Pen {
            alloc,
            recording,
            prefix,
            ends: ends(alloc, recording, prefix.count)?,
            values: values_by_rank(alloc, recording)?,
            text: String::new(alloc),
            failed: false,
        })
    }

    /// The whole text.
    fn written(self) -> Result<String, AllocError> {
        if self.failed {
            return Err(AllocError);
        }
        Ok(self.text)
    }

    fn say(&mut self, text: &str) {
        self.failed |= self.text.push_str(text).is_err();
    }

    /// A number of things.
    fn count(&mut self, number: usize) {
        self.failed |= write!(self.text, "{number}").is_err();
    }

    /// A client or a value, as it was written.
    fn show(&mut self, json: &str) {
        match shown(self.alloc, json) {
            Ok(text) => self.say(text.as_str()),
            Err(_) => self.failed = true,
        }
    }

    /// The line of a step, and its time.
    fn line(&mut self, step: usize) {
        let Some(step) = self.recording.steps.get(step).copied() else {
            self.say("the end");
            return;
        };
        let number = step.line;
        self.failed |= write!(self.text, "line {number}").is_err();
        let time = (step.time as usize).wrapping_sub(1);
        if let Some(time) = self.recording.times.get(time) {
            let time = time.as_str();
            self.failed |= write!(self.text, " (time {time})").is_err();
        }
    }

    /// The line of a place, or of the last one.
    fn place(&mut self, place: usize) {
        match self.prefix.step_of.get(place).copied() {
            Some(step) => self.line(step),
            None => self.line(self.prefix.count.saturating_sub(1)),
        }
    }

    fn client(&mut self, call: usize) {
        let client = self
            .recording
            .calls
            .get(call)
            .copied()
            .map_or(0, |call| call.client);
        if let Some(text) = self.recording.clients.get_index(client) {
            self.show(text.as_str());
        }
    }

    fn value(&mut self, value: usize) {
        if let Some(text) = self.recording.values.get_index(value) {
            self.show(text.as_str());
        }
    }

    /// What became of a put.
    fn put_end(&mut self, call: usize) {
        let end = self.ends.get(call).copied().unwrap_or(0).wrapping_sub(1);
        let Some(step) = self.recording.steps.get(end).copied() else {
            self.say(", not answered");
            return;
        };
        match step.act {
            Act::Refuse(_) => self.say(", refused at "),
            Act::LearnTaken(_, _) => self.say(", told done at "),
            Act::LearnNotTaken(_) => self.say(", told not taken at "),
            _ => self.say(", answered at "),
        }
        self.line(end);
    }

    /// The line of a put.
    fn put(&mut self, call: usize, step: usize) {
        let Some(of) = self.recording.calls.get(call).copied() else {
            return;
        };
        let value = of.puts.unwrap_or(usize::MAX);
        self.line(step);
        if of.is_base {
            self.say(": the queue held ");
            self.value(value);
            self.say(" at first");
            return;
        }
        self.say(": client ");
        self.client(call);
        self.say(" puts ");
        self.value(value);
        self.put_end(call);
    }

    /// The line of the put at a place.
    fn put_at(&mut self, place: usize) {
        match (
            self.prefix.call_at(self.recording, place),
            self.prefix.step_of.get(place).copied(),
        ) {
            (Some(call), Some(step)) => self.put(call, step),
            _ => {}
        }
    }

    /// What a take got, as it was answered or as somebody learnt.
    fn take_end(&mut self, end: usize) {
        let Some(step) = self.recording.steps.get(end).copied() else {
            self.say(" is not answered");
            return;
        };
        let (said, found, got) = match step.act {
            Act::LearnTaken(_, said) => (
                said,
                " it is told that it found nothing",
                " it is told that it got ",
            ),
            Act::Answer(_, said) => (said, " finds nothing", " gets "),
            _ => return,
        };
        self.line(end);
        match said {
            Said::Got(value) => {
                self.say(got);
                self.value(value)
            }
            _ => self.say(found),
        }
    }

    /// The line of the take at a place.
    fn take_at(&mut self, place: usize) {
        let Some(call) = self.prefix.call_at(self.recording, place) else {
            return;
        };
        self.place(place);
        self.say(": client ");
        self.client(call);
        self.say(" takes, and at ");
        let end = self.ends.get(call).copied().unwrap_or(0).wrapping_sub(1);
        self.take_end(end);
    }

    /// The value of the put at a place.
    fn value_at(&self, place: usize) -> usize {
        self.prefix
            .call_at(self.recording, place)
            .and_then(|call| self.recording.calls.get(call).copied())
            .and_then(|call| call.puts)
            .unwrap_or(usize::MAX)
    }

    /// The value that a call with this reply put, or took.
    fn value_of_reply(&self, reply: Reply, puts: Option<usize>) -> Option<usize> {
        match reply {
            Reply::Done => Some(puts.unwrap_or(usize::MAX)),
            Reply::Got(message) => Some(self.value_of(message)),
            Reply::Empty => None,
        }
    }

    /// The value that the message stands for.
    fn value_of(&self, message: Value) -> usize {
        self.values
            .get(rank_of(message) as usize)
            .copied()
            .unwrap_or(usize::MAX)
    }

    /// Since when the values were in the queue, or not yet in it.
    fn since(&mut self, indent: &str, since: Since) {
        self.say(indent);
        self.say("takes that were over at ");
        self.place(since.place);
        match since.ahead {
            None => self.say(" came too early: what was put later is not theirs\n"),
            Some(ahead) => {
                self.say(" came too early: ");
                let value = self.value_at(ahead.put);
                self.value(value);
                self.say(", put before, came out later:\n");
                self.say(indent);
                self.say("  ");
                self.put_at(ahead.put);
                self.say("\n");
                self.say(indent);
                self.say("  ");
                self.take_at(ahead.take);
                self.say("\n")
            }
        }
    }

    /// How few takes there are.
    fn few(&mut self, indent: &str, puts: usize, takes: &[usize], bound: usize) {
        self.say(indent);
        if takes.is_empty() {
            self.say("no take begun before ");
        } else {
            self.say("only ");
            self.count(takes.len());
            self.say(" of the takes begun before ");
        }
        self.place(bound);
        if puts == 1 {
            self.say(" can have taken it");
        } else {
            self.say(" can have taken one of these ");
            self.count(puts);
        }
        let mut mark = ": of ";
        for take in takes {
            self.say(mark);
            self.place(*take);
            mark = ", of ";
        }
        self.say("\n");
    }

    /// The puts of a lack, a line for each.
    fn puts(&mut self, indent: &str, lack: &Lack) {
        match lack {
            Lack::Late { put, .. } => {
                self.say(indent);
                self.put_at(*put);
                self.say("\n");
            }
            Lack::Few { puts, .. } => {
                for put in puts {
                    self.say(indent);
                    self.put_at(*put);
                    self.say("\n");
                }
            }
        }
    }

    /// Why the values of a lack cannot be out.
    fn lack(&mut self, indent: &str, lack: &Lack, bound: usize) {
        match lack {
            Lack::Late { .. } => self.few(indent, 1, &[], bound),
            Lack::Few { puts, takes, since } => {
                self.few(indent, puts.len(), takes, bound);
                match since {
                    Some(since) => self.since(indent, *since),
                    None => {}
                }
            }
        }
    }

    /// What became of the value of one put that was passed over, in all of the recording.
    fn later_of_one(&mut self, outs: &[usize], put: usize) {
        let out = outs.get(self.value_at(put)).copied().unwrap_or(0);
        if out == 0 {
            self.say("  it never came out\n");
            return;
        }
        self.say("  it came out at ");
        self.line(out.wrapping_sub(1));
        self.say("\n");
    }

    /// What became of the values that were passed over, in all of the recording.
    fn later(&mut self, lack: &Lack) {
        let Ok(outs) = outs(self.alloc, self.recording) else {
            self.failed = true;
            return;
        };
        let puts = match lack {
            Lack::Few { puts, .. } if puts.len() > 1 => puts,
            _ => return self.later_of_one(&outs, first_put(lack)),
        };
        let mut lost = 0usize;
        for put in puts {
            if outs.get(self.value_at(*put)).copied().unwrap_or(0) == 0 {
                lost = lost.saturating_add(1);
            }
        }
        self.say("  ");
        self.count(lost);
        self.say(" of them never came out\n");
    }

    /// Values that were passed over.
    fn passed_over(&mut self, take: usize, put: usize, bound: usize, lack: &Lack) {
        let count = count_of(lack);
        if count == 1 {
            let value = self.value_at(first_put(lack));
            self.value(value);
            self.say(" was passed over\n");
        } else {
            self.count(count);
            self.say(" values were passed over\n");
        }
        self.puts("  ", lack);
        self.say("  ");
        self.put_at(put);
        self.say(if count == 1 {
            ", after that\n"
        } else {
            ", after those\n"
        });
        self.say("  ");
        self.take_at(take);
        self.say("\n");
        self.lack("  ", lack, bound);
        self.later(lack);
    }

    fn piece(&mut self, piece: &Piece) {
        self.say("  from ");
        self.place(piece.from);
        self.say(" to ");
        self.place(piece.to);
        self.say(":\n");
        self.puts("    ", &piece.lack);
        self.lack("    ", &piece.lack, piece.to);
    }

    /// A value that nobody can have put.
    fn invented(&mut self, take: usize, message: Value) {
        let value = self.value_of(message);
        self.value(value);
        self.say(" came out and was not put\n  ");
        self.take_at(take);
        self.say("\n  ");
        match self.step_of_put(value) {
            Some((call, step)) => self.put(call, step),
            None => {
                self.say("nobody had begun to put ");
                self.value(value);
            }
        }
        self.say("\n");
    }

    /// The put of a value among the first steps, and its step.
    fn step_of_put(&self, value: usize) -> Option<(usize, usize)> {
        for number in 0..self.prefix.count.min(self.recording.steps.len()) {
            if let Act::Begin(call) = self.recording.steps[number].act {
                if self
                    .recording
                    .calls
                    .get(call)
                    .copied()
                    .and_then(|call| call.puts)
                    == Some(value)
                {
                    return Some((call, number));
                }
            }
        }
        None
    }

    fn twice(&mut self, first: usize, second: usize, message: Value) {
        let value = self.value_of(message);
        self.value(value);
        self.say(" came out twice\n  ");
        self.take_at(first);
        self.say("\n  ");
        self.take_at(second);
        self.say("\n  ");
        if let Some((call, step)) = self.step_of_put(value) {
            self.put(call, step);
        }
        self.say("\n");
    }

    fn witness(&mut self, witness: &Witness) {
        match witness {
            Witness::Invented { take, value } => self.invented(*take, *value),
            Witness::Twice {
                first,
                second,
                value,
            } => self.twice(*first, *second, *value),
            Witness::PassedOver {
                take,
                put,
                bound,
                lack,
            } => { self.passed_over(*take, *put, *bound, lack) }
            Witness::NotEmpty { take, pieces, .. } => {
                self.say("a take found nothing, but the queue held something all the while\n  ");
                self.take_at(*take);
                self.say("\n");
                for piece in pieces {
                    self.piece(piece);
                }
            }
        }
    }

    /// The entry of an order.
    fn entry(&mut self, entry: Entry) {
        let Some(call) = self.prefix.call_at(self.recording, entry.place) else {
            return;
        };
        self.place(entry.place);
        let of = self.recording.calls.get(call).copied();
        if of.map_or(false, |of| of.is_base) {
            self.say(": the queue held ");
        } else {
            self.say(": ");
            self.client(call);
            self.say(match entry.reply {
                Reply::Done => " puts ",
                Reply::Got(_) => " takes ",
                Reply::Empty => " finds nothing",
            });
        }
        if let Some(value) = self.value_of_reply(entry.reply, of.and_then(|of| of.puts)) {
            self.value(value);
        }
        self.say("\n");
    }
}

/// How many puts a lack has.
fn count_of(lack: &Lack) -> usize {
    match lack {
        Lack::Late { .. } => 1,
        Lack::Few { puts, .. } => puts.len(),
    }
}

/// The first put of a lack.
fn first_put(lack: &Lack) -> usize {
    match lack {
        Lack::Late { put, .. } => *put,
        Lack::Few { puts, .. } => puts.first().copied().unwrap_or(usize::MAX),
    }
}

/// What an order has.
#[derive(Clone, Copy, Default)]
struct Counts {
    base: usize,
    puts: usize,
    gots: usize,
    empties: usize,
    untold: usize,
    untold_taken: usize,
    nothing: usize,
}

fn more(count: &mut usize) {
    *count = count.saturating_add(1);
}

/// Whether nobody was told the outcome of the call that begins at a place.
fn is_open_at(calls: &[KnownCall], place: usize) -> bool {
    let Ok(number) = calls.binary_search_by_key(&place, |call| call.begin) else {
        return false;
    };
    match calls.get(number) {
        Some(call) => matches!(call.known, Known::Open),
        None => false,
    }
}

fn counts_of(recording: &Recording, prefix: &Prefix, entries: &[Entry]) -> Counts {
    let mut counts = Counts::default();
    let calls = &prefix.calls.calls;
    for call in calls {
        match call.known {
            Known::Open => more(&mut counts.untold),
            Known::NotTaken => more(&mut counts.nothing),
            Known::Taken(_) => {}
        }
    }
    counts.nothing = counts
        .nothing
        .saturating_add(recording.calls.len().saturating_sub(calls.len()));
    for entry in entries {
        let is_base = prefix
            .call_at(recording, entry.place)
            .and_then(|call| recording.calls.get(call).copied())
            .map_or(false, |call| call.is_base);
        match entry.reply {
            Reply::Done if is_base => more(&mut counts.base),
            Reply::Done => more(&mut counts.puts),
            Reply::Got(_) => more(&mut counts.gots),
            Reply::Empty => more(&mut counts.empties),
        }
        if is_open_at(calls, entry.place) {
            more(&mut counts.untold_taken);
        }
    }
    counts
}

/// An order explains the recording.
fn explained(alloc: Global, counts: Counts) -> Result<String, AllocError> {
    let mut text = String::new(alloc);
    let puts = counts.puts;
    let gots = counts.gots;
    let empties = counts.empties;
    writeln!(
        text,
        "explained: {puts} puts, {gots} takes that got a value and {empties} that found none, in one order"
    )?;
    if counts.untold > 0 {
        let untold = counts.untold;
        let taken = counts.untold_taken;
        writeln!(
            text,
            "  of {untold} calls whose outcome nobody was told, {taken} took effect in it"
        )?;
    }
    if counts.nothing > 0 {
        let nothing = counts.nothing;
        writeln!(text, "  {nothing} calls did nothing")?;
    }
    let left = counts.base.saturating_add(puts).saturating_sub(gots);
    writeln!(text, "  it leaves {left} values in the queue")?;
    Ok(text)
}

/// No order explains the first steps.
fn impossible(
    alloc: Global,
    recording: &Recording,
    prefix: &Prefix,
    witness: &Witness,
) -> Result<String, AllocError> {
    let mut pen = Pen::new(alloc, recording, prefix)?;
    pen.say("impossible from ");
    pen.line(prefix.count.saturating_sub(1));
    pen.say(" on: ");
    pen.witness(witness);
    pen.written()
}

/// The verdict on a recording.
pub fn verdict(
    alloc: Global,
    recording: &Recording,
    answer: &Answer,
) -> Result<String, AllocError> {
    match answer {
        Answer::Explained(prefix, order) => {
            let entries = order.entries.as_slice();
            explained(alloc, counts_of(recording, prefix, entries))
        }
        Answer::Impossible(prefix, witness, _) => impossible(alloc, recording, prefix, witness),
        Answer::SomeOrder => {
            String::from_str(
                alloc,
                "explained: by some order, which the search did not find\n",
            )
        }
        Answer::NoOrder => String::from_str(
            alloc,
            "impossible: no order explains it; the search did not find why\n",
        ),
    }
}

/// A value came out more often than it was put.
fn outnumbered(
    alloc: Global,
    recording: &Recording,
    value: usize,
    counts: ValueCounts,
) -> Result<String, AllocError> {
    let mut text = String::from_str(alloc, "impossible: ")?;
    if let Some(json) = recording.values.get_index(value) {
        text.push_str(shown(alloc, json.as_str())?.as_str())?;
    }
    let takes = counts.takes;
    let live = counts.live;
    writeln!(
        text,
        " came out {takes} times, and at most {live} puts of it took effect"
    )?;
    Ok(text)
}

/// The verdict on a recording in which values are put more than once, of which these are the counts.
pub fn verdict_of_repeated(
    alloc: Global,
    recording: &Recording,
    counts: &[ValueCounts],
    answer: &Repeated,
) -> Result<String, AllocError> {
    let repeated = counts.iter().filter(|counts| counts.puts > 1).count();
    let mut text = match answer {
        Repeated::Explained(answer) => verdict(alloc, recording, answer)?,
        Repeated::Outnumbered { value, counts } => outnumbered(alloc, recording, *value, *counts)?,
        Repeated::Part(part, answer) => verdict(alloc, part, answer)?,
        Repeated::Undecided => String::from_str(
            alloc,
            "undecided: no order was found in which copies of a value come out as they were put\n",
        )?,
    };
    writeln!(text, "  {repeated} values were put more than once")?;
    if let Repeated::Part(part, _) = answer {
        if part.steps.len() < recording.steps.len() {
            text.push_str(
                "  calls on those of which several puts may have taken effect are left out\n",
            )?;
        }
    }
    Ok(text)
}

/// The entries of the order, a line for each.
pub fn print_order(
    alloc: Global,
    recording: &Recording,
    answer: &Answer,
) -> Result<String, AllocError> {
    let Answer::Explained(prefix, order) = answer else {
        return Ok(String::new(alloc));
    };
    let mut pen = Pen::new(alloc, recording, prefix)?;
    for entry in order.entries.as_slice() {
        pen.entry(*entry);
    }
    pen.written()
}
