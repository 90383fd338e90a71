//! The verdict on a recording.

use answers::{Answer, Repeated, Watch, answer_of, answer_of_repeated, seen};
use options::CheckOptions;
use rayon::prelude::*;
use recording::{Fault, Recorded, Recording, ValueCounts, read, shown, value_counts};
use std::alloc::{AllocError, Global};
use std::io::{IsTerminal, Read, Write};
use std::process::ExitCode;
use std::thread::Threads;
use std::time::{Clock, Duration};
use std::{fs, io};
use verdicts::{page_of, print_order, verdict, verdict_of_repeated};
use words::Refusal;

/// For so many milliseconds nothing is shown.
const QUIET: u64 = 2_000;

/// A line on standard error, where that is a terminal.
#[derive(Drop)]
struct Searching<'a> {
    rt: &'a HostRuntime,
    began: Option<Duration>,
    shown: bool,
}

impl<'a> Searching<'a> {
    fn new(rt: &'a HostRuntime) -> Self {
        let began = if rt.stderr().is_terminal() {
            rt.monotonic().ok()
        } else {
            None
        };
        Searching {
            rt,
            began,
            shown: false,
        }
    }

    fn is_long(&self) -> bool {
        match (self.began, self.rt.monotonic()) {
            (Some(began), Ok(now)) => now.saturating_sub(began) > Duration::from_millis(QUIET),
            _ => false,
        }
    }

    fn clear(self) {
        if self.shown {
            let _ = eprint!(self.rt; "\r\x1b[K");
        }
    }
}

impl Watch for Searching<'_> {
    fn look(&mut self, steps: usize) {
        if self.is_long() {
            self.shown = true;
            let _ = eprint!(self.rt; "\r\x1b[Klooking at the first {steps} steps");
        }
    }
}

/// All that standard input has.
fn input(rt: &HostRuntime) -> Result<Vec<u8>, Refusal> {
    let mut bytes = Vec::new(rt.alloc());
    match rt.reader().read_to_end(&mut bytes) {
        Ok(_) => Ok(bytes),
        Err(error) => Err(command_lines::refusal_of(&error)),
    }
}

/// Writes text to standard output.
fn print(rt: &HostRuntime, text: &str) -> Result<(), Refusal> {
    let mut writer = io::writer(rt);
    if writer.write_all(text.as_bytes()).is_err() || writer.flush().is_err() {
        return Err(Refusal::WriteFailed);
    }
    Ok(())
}

/// What is said of a recording: the answer where each value is put once, or else what is said of repeated ones, with
/// their counts.
#[derive(Drop)]
enum Verdict {
    Once(Answer),
    Repeated(Vec<ValueCounts>, Repeated),
}

impl Verdict {
    /// The answer, if there is one.
    fn answer(&self) -> Option<&Answer> {
        match self {
            Verdict::Once(answer) => Some(answer),
            Verdict::Repeated(_, repeated) => match repeated {
                Repeated::Explained(answer) => Some(answer),
                Repeated::Part(_, answer) => Some(answer),
                _ => None,
            },
        }
    }

    /// The part of the recording that the answer is of, if it is not of all.
    fn part(&self) -> Option<&Recording> {
        match self {
            Verdict::Once(_) => None,
            Verdict::Repeated(_, repeated) => match repeated {
                Repeated::Part(part, _) => Some(part),
                _ => None,
            },
        }
    }

    /// Whether it says that there is no order.
    fn has_none(&self) -> bool {
        match self {
            Verdict::Once(answer) => matches!(answer, Answer::Impossible(..) | Answer::NoOrder),
            Verdict::Repeated(_, repeated) => {
                matches!(repeated, Repeated::Part(..) | Repeated::Outnumbered { .. })
            }
        }
    }

    fn is_undecided(&self) -> bool {
        matches!(self, Verdict::Repeated(_, Repeated::Undecided))
    }
}

/// The status of some verdicts: 1 where one is that there is no order, else 3 where one is undecided.
fn status(verdicts: &[Verdict]) -> ExitCode {
    if verdicts.iter().any(Verdict::has_none) {
        return ExitCode::from(1);
    }
    if verdicts.iter().any(Verdict::is_undecided) {
        return ExitCode::from(3);
    }
    ExitCode::SUCCESS
}

/// The line of a step.
fn line_of(recording: &Recording, step: usize) -> Option<u32> {
    recording.steps.get(step).map(|step| step.line)
}

/// The line with which there is no order any more, if there is one.
fn bad_line(recorded: &Recorded, verdict: &Verdict) -> Option<u32> {
    let Answer::Impossible(prefix, ..) = verdict.answer()? else {
        return None;
    };
    let last = prefix.count.saturating_sub(1);
    match verdict.part() {
        Some(part) => line_of(part, last),
        None => line_of(&recorded.recording, last),
    }
}

/// The number of the queue whose first bad line comes first, or of the first queue.
fn foremost(queues: &[Recorded], verdicts: &[Verdict]) -> usize {
    let mut first = 0usize;
    let mut line = u32::MAX;
    for (number, recorded) in queues.iter().enumerate() {
        if let Some(bad) = verdicts
            .get(number)
            .and_then(|verdict| bad_line(recorded, verdict))
        {
            if bad < line {
                first = number;
                line = bad;
            }
        }
    }
    first
}

/// What the verdict says.
fn said(alloc: Global, recording: &Recording, of_it: &Verdict) -> Result<String, AllocError> {
    match of_it {
        Verdict::Once(answer) => verdict(alloc, recording, answer),
        Verdict::Repeated(counts, repeated) => {
            verdict_of_repeated(alloc, recording, counts, repeated)
        }
    }
}

/// What is said of a queue, behind its name if it has one, with the entries of the order where they are asked for.
fn text(
    rt: &HostRuntime,
    recorded: &Recorded,
    of_it: &Verdict,
    with_order: bool,
) -> Result<String, AllocError> {
    let mut text = String::new(rt.alloc());
    if let Some(name) = &recorded.queue {
        text.push_str("queue ")?;
        text.push_str(shown(rt.alloc(), name.as_str())?.as_str())?;
        text.push_str(": ")?;
    }
    text.push_str(said(rt.alloc(), &recorded.recording, of_it)?.as_str())?;
    if let Some(answer) = of_it.answer() {
        if with_order {
            let entries = print_order(rt.alloc(), &recorded.recording, answer)?;
            text.push_str(entries.as_str())?;
        }
    }
    Ok(text)
}

/// The page of a recording.
fn page(rt: &HostRuntime, recording: &Recording, of_it: &Verdict) -> Result<String, AllocError> {
    let text = said(rt.alloc(), recording, of_it)?;
    match of_it.answer() {
        Some(answer) => match of_it.part() {
            Some(part) => page_of(rt.alloc(), part, answer, text.as_str()),
            None => page_of(rt.alloc(), recording, answer, text.as_str()),
        },
        // (without an answer the page shows the calls alone)
        None => page_of(rt.alloc(), recording, &Answer::NoOrder, text.as_str()),
    }
}

/// Writes the page of a recording to a file.
fn show(
    rt: &HostRuntime,
    recording: &Recording,
    of_it: &Verdict,
    path: &str,
) -> Result<(), Refusal> {
    match page(rt, recording, of_it) {
        Ok(page) => fs::write(rt, path, page.as_bytes()).map_err(|_| Refusal::WriteFailed),
        Err(_) => Err(Refusal::NoMemory),
    }
}

/// The answer to a recording in which each value is put once.
fn answer<W: Watch>(alloc: Global, recording: &Recording, watch: &mut W) -> Result<Answer, Fault> {
    match seen(alloc, recording)? {
        Some(findings) => {
            let answer = answer_of(alloc, recording, findings, watch)?;
            Ok(answer)
        }
        None => Err(Fault::NoRecording),
    }
}

/// The verdict on a recording.
fn judged<W: Watch>(alloc: Global, recording: &Recording, watch: &mut W) -> Result<Verdict, Fault> {
    let counts = value_counts(alloc, recording)?;
    if counts.iter().any(|counts| counts.puts > 1) {
        let repeated = answer_of_repeated(alloc, recording, &counts, watch)?;
        return Ok(Verdict::Repeated(counts, repeated));
    }
    Ok(Verdict::Once(answer(alloc, recording, watch)?))
}

/// The verdict on the only recording. A terminal is told how far a long search is.
fn found(rt: &HostRuntime, recorded: &Recorded) -> Result<Vec<Verdict>, Fault> {
    let mut searching = Searching::new(rt);
    let verdict = judged(rt.alloc(), &recorded.recording, &mut searching);
    searching.clear();
    let mut verdicts = Vec::new(rt.alloc());
    verdicts.push(verdict?)?;
    Ok(verdicts)
}

/// Tells nobody.
#[derive(Drop)]
struct Silent;

impl Watch for Silent {
    fn look(&mut self, _steps: usize) {}
}

/// The verdicts on recordings, side by side.
fn found_all<H: Threads + Sync>(
    threads: &H,
    alloc: Global,
    queues: &[Recorded],
) -> Result<Vec<Verdict>, Fault> {
    let made: Result<Result<Vec<Verdict>, Fault>, _> = (0..queues.len())
        .into_par_iter()
        // A queue is much work: `rayon` would take a whole batch in one thread.
        .with_min_len(1)
        .map(|queue: usize| -> Result<Verdict, Fault> {
            match queues.get(queue) {
                Some(recorded) => judged(alloc, &recorded.recording, &mut Silent),
                None => Err(Fault::NoRecording),
            }
        })
        .collect(threads, alloc);
    match made {
        Ok(verdicts) => verdicts,
        Err(_) => Err(Fault::Memory),
    }
}

/// Says what was found of a queue.
fn tell(
    rt: &HostRuntime,
    queues: &[Recorded],
    verdicts: &[Verdict],
    queue: usize,
    with_order: bool,
) -> Result<(), Refusal> {
    let (Some(recorded), Some(verdict)) = (queues.get(queue), verdicts.get(queue)) else {
        return Ok(());
    };
    match text(rt, recorded, verdict, with_order) {
        Ok(text) => print(rt, text.as_str()),
        Err(_) => Err(Refusal::NoMemory),
    }
}

/// Says what was found of each queue, the one in front whose first bad line comes first; and shows that one on a page, if
/// one is asked for.
fn tell_all(
    rt: &HostRuntime,
    queues: &[Recorded],
    verdicts: &[Verdict],
    asked: CheckOptions<'_>,
) -> Result<(), Refusal> {
    let first = foremost(queues, verdicts);
    tell(rt, queues, verdicts, first, asked.order)?;
    for queue in 0..queues.len() {
        if queue != first {
            tell(rt, queues, verdicts, queue, asked.order)?;
        }
    }
    match (asked.page, queues.get(first), verdicts.get(first)) {
        (Some(path), Some(recorded), Some(verdict)) => show(rt, &recorded.recording, verdict, path),
        _ => Ok(()),
    }
}

/// What was found of the recordings of queues.
fn found_of<H: Threads + Sync>(
    threads: &H,
    rt: &HostRuntime,
    queues: &[Recorded],
) -> Result<Vec<Verdict>, Fault> {
    match queues {
        [recorded] => found(rt, recorded),
        _ => found_all(threads, rt.alloc(), queues),
    }
}

/// Says why a recording is refused, and answers with the status for that.
fn refused(rt: &HostRuntime, fault: &Fault) -> Result<ExitCode, Refusal> {
    if let Fault::Memory = fault {
        return Err(Refusal::NoMemory);
    }
    if eprintln!(rt; "{fault}").is_err() {
        return Err(Refusal::WriteFailed);
    }
    Ok(ExitCode::from(2))
}

/// Answers for the recordings of queues, and says which status to end with.
fn answered<H: Threads + Sync>(
    threads: &H,
    rt: &HostRuntime,
    queues: &[Recorded],
    asked: CheckOptions<'_>,
) -> Result<ExitCode, Refusal> {
    match found_of(threads, rt, queues) {
        Ok(verdicts) => match tell_all(rt, queues, &verdicts, asked) {
            Ok(()) => Ok(status(&verdicts)),
            Err(refusal) => Err(refusal),
        },
        Err(fault) => refused(rt, &fault),
    }
}

/// The verdict on the recording that standard input has, and the status to end with: 2 where a line is refused.
pub(crate) fn check<H: Threads + Sync>(
    threads: &H,
    rt: &HostRuntime,
    asked: CheckOptions<'_>,
) -> Result<ExitCode, Refusal> {
    let bytes = input(rt)?;
    let queues = read(rt.alloc(), &bytes);
    // What was read is larger, and the search needs room.
    drop(bytes);
    match queues {
        Ok(queues) => answered(threads, rt, &queues, asked),
        Err(fault) => refused(rt, &fault),
    }
}
