//! A report as a page: a column for each point.

ghost use Rattle.std.specs.Prelude.{◌≡◌, IfErr};
ghost use Rattle.grammar.specs.Grammar.{IsServedQueue};

use crate::drawing::{
    Head, MIDDLE, Rows, Sheet, TEXT_GAP, begin_body, begin_columns, begin_head, begin_page, column,
    end_page, head_height, upright_height, write_head, write_label, write_rule, write_upright,
};
use crate::frames::{Differs, Frame, frames};
use arena::Layout;
use explore::{Evictions, Point, Report, Wanted, words_kept};
use grammar::{Command, QueueLine};
use std::alloc::{AllocError, Global};
use std::fmt::Write;
use words::{Kind, Outcome, Refusal, Row, Told, Value};

/// What the page shows.
const LEGEND: &str = "<p class=\"key\"><span class=\"none\">no call announced</span>
<span class=\"open\">took no effect</span>
<span class=\"done\">took effect</span>
<span class=\"lost\">not kept: cached value above, kept value below</span></p>
<p>Each column is a crash: how many acts came before it, and what the last one did. Below: how many words the environment
kept just before it, the steps of recovery, what each client is told, what the queue holds, and a line that is green
where that is ok. Then each word that was not kept, by its number and its name: the crash took its cached value.</p>
";

/// How high the first parts are: the evictions, and the steps of recovery.
const EVICTIONS_HEIGHT: u64 = 26;

const STEPS_HEIGHT: u64 = 118;

/// The most that a bar is high.
const BAR_HEIGHT: u64 = 90;

/// The least characters that there is room for of what a client is told, of a content and of a name, and the most that
/// are shown of the first two.
const LEAST_TOLD: usize = 8;

const LEAST_CONTENT: usize = 8;

const LEAST_NAME: usize = 18;

const MOST_OF_TOLD: usize = 20;

const MOST_OF_CONTENT: usize = 32;

/// How far above the end of its part a content begins; below it is the colour of the point.
const CONTENT_GAP: u64 = 12;

/// What the points are of.
#[derive(Clone, Copy)]
struct Setting<'a> {
    queue: QueueLine,
    wanted: Wanted,
    layout: &'a Layout,
    /// What each act of the script does.
    frames: &'a [Frame],
}

/// A point as the page shows it.
#[derive(Drop)]
struct Crash<'a> {
    point: &'a Point,
    /// How many acts came before it, and the last of them.
    number: u64,
    after: Option<&'a Frame>,
    /// How many words the environment kept just before it, and the words that were not kept.
    evicted: usize,
    lost: Vec<Differs>,
}

/// How far down the parts of a picture end, and how high bars are.
#[derive(Clone, Copy)]
struct Sizes {
    clients: usize,
    /// The most steps that a recovery had, or 1.
    most_steps: u64,
    /// How high what a client is told is.
    told: u64,
    /// How far down the contents begin, and end.
    contents: u64,
    end: u64,
}

/// How far down the evictions end, and the steps of recovery.
const EVICTIONS_END: u64 = 1 + EVICTIONS_HEIGHT;

const STEPS_END: u64 = EVICTIONS_END + STEPS_HEIGHT;

/// What is drawn.
#[derive(Clone, Copy)]
struct Picture<'a> {
    crashes: &'a [Crash<'a>],
    rows: Rows<'a>,
    sizes: Sizes,
    sheet: Sheet,
}

/// The colour of what a client is told.
fn colour(told: Told) -> &'static str {
    match told {
        Told::None | Told::Row(Row::NoCall) => "none",
        Told::Verdict(verdict) => match verdict.outcome {
            Outcome::NotTaken => "open",
            Outcome::Taken(_) => "done",
        },
        Told::Row(Row::Open) => "open",
        Told::Row(_) => "done",
    }
}

/// The values that a queue holds, or a dash.
fn values(alloc: Global, content: &[Value]) -> Result<String, AllocError> {
    let mut text = String::new(alloc);
    for value in content {
        write!(text, " {value}")?;
    }
    if text.is_empty() {
        write!(text, " -")?;
    }
    Ok(text)
}

/// Those of these words that are not kept before the crash.
fn lost_of(
    alloc: Global,
    frame: Option<&Frame>,
    evicted: &[usize],
) -> Result<Vec<Differs>, AllocError> {
    let mut lost = Vec::new(alloc);
    let Some(frame) = frame else {
        return Ok(lost);
    };
    for differs in &frame.differs {
        if evicted.binary_search(&(differs.word as usize)).is_err() {
            lost.push(*differs)?;
        }
    }
    Ok(lost)
}

/// A point of a report after so many acts.
fn crash_at<'a>(
    alloc: Global,
    setting: &Setting<'a>,
    number: u64,
    point: &'a Point,
) -> Result<Crash<'a>, Refusal>
    ensures errors { IfErr result (λ e. e ≡ Refusal.NoMemory) }
{
    let after = setting.frames.get((number as usize).wrapping_sub(1));
    let words = setting.layout.size();
    let evicted = words_kept(alloc, setting.wanted.evictions, words, number)?;
    let lost = lost_of(alloc, after, &evicted).map_err(|_| Refusal::NoMemory)?;
    Ok(Crash {
        point,
        number,
        after,
        evicted: evicted.len(),
        lost,
    })
}

/// The points of a report.
fn crashes_of<'a>(
    alloc: Global,
    setting: &Setting<'a>,
    report: &'a Report,
) -> Result<Vec<Crash<'a>>, Refusal>
    ensures errors { IfErr result (λ e. e ≡ Refusal.NoMemory) }
{
    let mut crashes = Vec::new(alloc);
    for (place, point) in report.points.iter().enumerate() {
        let number = setting.wanted.part.from.saturating_add(place as u64);
        let crash = crash_at(alloc, setting, number, point)?;
        crashes.push(crash).map_err(|_| Refusal::NoMemory)?;
    }
    Ok(crashes)
}

/// The words that are ever lost, ascending.
fn lost_words(alloc: Global, crashes: &[Crash<'_>]) -> Result<Vec<u64>, AllocError> {
    let mut words = Vec::new(alloc);
    for crash in crashes {
        for differs in &crash.lost {
            words.push(differs.word)?;
        }
    }
    words.sort()?;
    words.dedup();
    Ok(words)
}

/// What the clients of a queue are told.
fn tellings(point: &Point, clients: usize) -> &[Told] {
    &point.told[..clients.min(point.told.len())]
}

/// The length of the longest of these tellings.
fn longest_of(alloc: Global, told: &[Told]) -> Result<usize, AllocError> {
    let mut longest = 0usize;
    for told in told {
        longest = longest.max(format!(in alloc; "{told}")?.len());
    }
    Ok(longest)
}

/// How large the parts of a picture are.
fn sizes_of(alloc: Global, clients: usize, crashes: &[Crash<'_>]) -> Result<Sizes, AllocError> {
    let mut most_steps = 1;
    let mut longest_told = LEAST_TOLD;
    let mut longest = LEAST_CONTENT;
    for crash in crashes {
        let point = crash.point;
        most_steps = most_steps.max(point.steps);
        longest_told = longest_told.max(longest_of(alloc, tellings(point, clients))?);
        longest = longest.max(values(alloc, &point.content)?.len());
    }
    let told = upright_height(longest_told, MOST_OF_TOLD);
    let contents = STEPS_END.saturating_add(told.saturating_mul(clients as u64));
    let content = upright_height(longest, MOST_OF_CONTENT).saturating_add(CONTENT_GAP);
    Ok(Sizes {
        clients,
        most_steps,
        told,
        contents,
        end: contents.saturating_add(content),
    })
}

/// The steps of a point's recovery, as a bar with their number above it.
fn write_bar(text: &mut String, sizes: Sizes, steps: u64) -> Result<(), AllocError> {
    let height = steps.saturating_mul(BAR_HEIGHT) / sizes.most_steps.max(1);
    let top = STEPS_END.saturating_sub(TEXT_GAP).saturating_sub(height);
    writeln!(
        text,
        "<rect class=\"bar\" x=\"9\" y=\"{top}\" width=\"16\" height=\"{height}\"/>"
    )?;
    writeln!(
        text,
        "<text class=\"number\" x=\"{MIDDLE}\" y=\"{}\">{steps}</text>",
        top.saturating_sub(4)
    )
}

/// What each client is told, in a box of its colour.
fn write_told(
    alloc: Global,
    text: &mut String,
    sizes: Sizes,
    told: &[Told],
) -> Result<(), AllocError> {
    let mut end = STEPS_END;
    for told in told {
        let top = end.saturating_add(2);
        end = end.saturating_add(sizes.told);
        writeln!(
            text,
            "<rect class=\"{}\" x=\"1\" y=\"{top}\" width=\"32\" height=\"{}\" rx=\"4\"/>",
            colour(*told),
            sizes.told.saturating_sub(4)
        )?;
        let words = format!(in alloc; "{told}")?;
        write_upright(alloc, text, end, words.as_str(), MOST_OF_TOLD)?;
    }
    Ok(())
}

/// What the queue holds at a point, and below whether that is right.
fn write_content(
    alloc: Global,
    text: &mut String,
    sizes: Sizes,
    point: &Point,
) -> Result<(), AllocError> {
    let content = values(alloc, &point.content)?;
    let end = sizes.end.saturating_sub(CONTENT_GAP);
    write_upright(alloc, text, end, content.as_str(), MOST_OF_CONTENT)?;
    let ok = if point.ok { "done" } else { "bad" };
    let top = sizes.end.saturating_sub(TEXT_GAP);
    writeln!(
        text,
        "<rect class=\"{ok}\" x=\"1\" y=\"{top}\" width=\"32\" height=\"6\"/>"
    )
}

/// A column: one point.
fn write_crash(
    alloc: Global,
    text: &mut String,
    picture: &Picture<'_>,
    place: u64,
    crash: &Crash<'_>,
) -> Result<(), AllocError> {
    let sizes = picture.sizes;
    let left = column(place);
    writeln!(text, "<g transform=\"translate({left},0)\">")?;
    let evicted = crash.evicted;
    writeln!(
        text,
        "<text class=\"number faint\" x=\"{MIDDLE}\" y=\"18\">{evicted}</text>"
    )?;
    write_bar(text, sizes, crash.point.steps)?;
    write_told(alloc, text, sizes, tellings(crash.point, sizes.clients))?;
    write_content(alloc, text, sizes, crash.point)?;
    writeln!(text, "</g>")?;
    for differs in &crash.lost {
        picture.rows.cell(alloc, text, place, *differs, "lost")?;
    }
    Ok(())
}

/// All columns.
fn write_crashes(
    alloc: Global,
    text: &mut String,
    picture: &Picture<'_>,
) -> Result<(), AllocError> {
    for (place, crash) in picture.crashes.iter().enumerate() {
        write_crash(alloc, text, picture, place as u64, crash)?;
    }
    Ok(())
}

/// A part of the picture: its name, and how far down it begins.
#[derive(Drop)]
struct Part {
    name: String,
    top: u64,
}

/// The parts above the words.
fn parts_of(alloc: Global, sizes: Sizes) -> Result<Vec<Part>, AllocError> {
    let mut parts = Vec::new(alloc);
    let name = String::from_str(alloc, "words kept")?;
    parts.push(Part { name, top: 1 })?;
    let name = String::from_str(alloc, "recovery steps")?;
    let top = EVICTIONS_END;
    parts.push(Part { name, top })?;
    let mut top = STEPS_END;
    for client in 0..sizes.clients {
        let name = format!(in alloc; "client {client} is told")?;
        parts.push(Part { name, top })?;
        top = top.saturating_add(sizes.told);
    }
    let name = String::from_str(alloc, "content")?;
    let top = sizes.contents;
    parts.push(Part { name, top })?;
    Ok(parts)
}

/// The names of the parts and of the words.
fn write_labels(
    alloc: Global,
    text: &mut String,
    picture: &Picture<'_>,
    parts: &[Part],
) -> Result<(), AllocError> {
    let width = picture.sheet.names;
    for part in parts {
        write_label(text, width, part.top, part.name.as_str())?;
    }
    picture.rows.labels(alloc, text, width)
}

/// The rules above the parts and the words.
fn write_rules(text: &mut String, picture: &Picture<'_>, parts: &[Part]) -> Result<(), AllocError> {
    let width = picture.sheet.columns;
    for part in parts {
        write_rule(text, width, part.top)?;
    }
    picture.rows.rules(text, width)
}

/// The heads of all columns, and the name of their row.
fn write_heads(alloc: Global, text: &mut String, picture: &Picture<'_>) -> Result<(), AllocError> {
    let sheet = picture.sheet;
    begin_head(text, sheet, "crash after")?;
    for (place, crash) in picture.crashes.iter().enumerate() {
        let head = Head {
            number: crash.number,
            frame: crash.after,
        };
        let layout = picture.rows.layout;
        write_head(alloc, text, sheet, layout, place as u64, head)?;
    }
    Ok(())
}

/// The frame with all that is drawn.
fn write_picture(
    alloc: Global,
    text: &mut String,
    picture: &Picture<'_>,
) -> Result<(), AllocError> {
    let parts = parts_of(alloc, picture.sizes)?;
    write_heads(alloc, text, picture)?;
    begin_body(text, picture.sheet)?;
    write_labels(alloc, text, picture, &parts)?;
    begin_columns(text, picture.sheet, picture.sheet.body)?;
    write_rules(text, picture, &parts)?;
    write_crashes(alloc, text, picture)
}

/// What the page says before its picture.
fn write_heading(
    text: &mut String,
    setting: &Setting<'_>,
    report: &Report,
) -> Result<(), AllocError> {
    let queue = setting.queue;
    let kind = match queue.kind {
        Kind::Durable => "durable",
        Kind::Log => "log",
    };
    write!(
        text,
        "<p>queue {kind} {} {}; ",
        queue.clients, queue.records
    )?;
    match setting.wanted.evictions {
        Evictions::None => write!(text, "no word kept before a crash")?,
        Evictions::All => write!(text, "every word kept before a crash")?,
        Evictions::Drawn { state } => write!(text, "words drawn from {state} kept before a crash")?,
    }
    let points = report.points.len();
    writeln!(text, "; points {points} bad {}</p>\n{LEGEND}", report.bad)
}

/// What is drawn of crashes.
fn picture_of<'a>(
    alloc: Global,
    clients: usize,
    rows: Rows<'a>,
    crashes: &'a [Crash<'a>],
    frames: &[Frame],
) -> Result<Picture<'a>, AllocError> {
    let sizes = sizes_of(alloc, clients, crashes)?;
    let rows = Rows {
        top: sizes.end,
        ..rows
    };
    let sheet = Sheet {
        names: rows.width(alloc, LEAST_NAME)?,
        columns: column(crashes.len() as u64),
        head: head_height(alloc, rows.layout, frames)?,
        body: rows.end().saturating_add(2),
    };
    Ok(Picture {
        crashes,
        rows,
        sizes,
        sheet,
    })
}

/// The whole page.
fn write_page(
    alloc: Global,
    text: &mut String,
    setting: &Setting<'_>,
    report: &Report,
    crashes: &[Crash<'_>],
) -> Result<(), AllocError> {
    let words = lost_words(alloc, crashes)?;
    let rows = Rows {
        layout: setting.layout,
        words: &words,
        top: 0,
    };
    let clients = setting.queue.clients as usize;
    let picture = picture_of(alloc, clients, rows, crashes, setting.frames)?;
    begin_page(text, "A crash at every point")?;
    write_heading(text, setting, report)?;
    write_picture(alloc, text, &picture)?;
    end_page(text)
}

/// The page of a report on the points of a script, or NoMemory.
pub(crate) fn page(
    alloc: Global,
    queue: QueueLine,
    commands: &[Command],
    wanted: Wanted,
    report: &Report,
) -> Result<Vec<u8>, Refusal>
    requires { IsServedQueue queue }
    ensures errors { IfErr result (λ e. e ≡ Refusal.NoMemory) }
{
    let layout = queue.layout()?;
    let frames = frames(alloc, layout, commands)?;
    let setting = Setting {
        queue,
        wanted,
        layout: &layout,
        frames: &frames,
    };
    let crashes = crashes_of(alloc, &setting, report)?;
    let mut text = String::new(alloc);
    match write_page(alloc, &mut text, &setting, report, &crashes) {
        Ok(()) => Ok(text.into_bytes()),
        Err(_) => Err(Refusal::NoMemory),
    }
}
