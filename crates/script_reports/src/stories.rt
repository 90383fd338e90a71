//! A run of a script as a page: its acts in a lane for each client, and below them the words that differ.

ghost use Rattle.std.specs.Prelude.{◌≡◌, IfErr};
ghost use Rattle.grammar.specs.Grammar.{IsServedQueue};

use crate::drawing::{
    COLUMN_WIDTH, Head, Rows, Sheet, begin_body, begin_columns, begin_head, begin_page, column,
    end_page, head_height, write_head, write_label, write_rule,
};
use crate::frames::{Frame, frames};
use crate::texts::Called;
use arena::Layout;
use grammar::{QueueLine, Script};
use interleave::Act;
use std::alloc::{AllocError, Global};
use std::fmt::Write;
use words::{Call, Kind, Refusal};

/// What the page shows.
const LEGEND: &str = "<p class=\"key\"><span class=\"done\">answered</span>
<span class=\"open\">interrupted, or still open</span>
<span class=\"differs\">cached value above, kept value below</span>
<span class=\"lost\">cached value that a crash took</span></p>
<p>Each column is an act: whose it is, by the client's number, and what it did to which word. A client has a lane, and
its calls are bars in it. A crash is a line across. Below stands each word that ever differs, by its number and its
name, where its two values are not the same.</p>
";

/// How high a lane is.
const LANE_HEIGHT: u64 = 34;

/// The least characters that names have room for.
const LEAST_NAME: usize = 12;

/// A call of a client on the page: from its act up to that with which it ended.
#[derive(Drop)]
struct Bar {
    client: u64,
    from: u64,
    to: u64,
    call: Call,
    answer: Option<String>,
}

/// The end of a call that began at an act: the act, and whether it is an answer.
fn end_of(frames: &[Frame], from: usize, client: u8) -> (usize, bool) {
    for number in from..frames.len() {
        match frames[number].act {
            Act::Step { client: other } => {
                if other.0 == client && frames[number].made.reply.is_some() {
                    return (number, true);
                }
            }
            Act::Crash => return (number, false),
            _ => {}
        }
    }
    (frames.len(), false)
}

/// The call that begins with an act, if one does.
fn bar_of(alloc: Global, frames: &[Frame], from: usize) -> Result<Option<Bar>, AllocError> {
    let Some(frame) = frames.get(from) else {
        return Ok(None);
    };
    let Act::Start { client, call, .. } = frame.act else {
        return Ok(None);
    };
    let (to, is_answer) = end_of(frames, from, client.0);
    let mut answer = None;
    if let Some(frame) = frames.get(to) {
        if let Some(reply) = frame.made.reply {
            if is_answer {
                answer = Some(format!(in alloc; "{reply}")?);
            }
        }
    }
    Ok(Some(Bar {
        client: u64::from(client.0),
        from: from as u64,
        to: to as u64,
        call,
        answer,
    }))
}

/// A call in its client's lane.
fn write_bar(text: &mut String, bar: &Bar) -> Result<(), AllocError> {
    let top = lane_of(bar.client).saturating_add(5);
    let left = column(bar.from).saturating_add(1);
    let mut right = column(bar.to);
    let mut class = "open";
    if bar.answer.is_some() {
        right = right.saturating_add(COLUMN_WIDTH).saturating_sub(1);
        class = "done";
    }
    let width = right.saturating_sub(left);
    writeln!(
        text,
        "<rect class=\"{class}\" x=\"{left}\" y=\"{top}\" width=\"{width}\" height=\"24\" rx=\"4\"/>"
    )?;
    let called = Called(bar.call);
    let left = left.saturating_add(4);
    let base = top.saturating_add(16);
    write!(text, "<text x=\"{left}\" y=\"{base}\">{called}")?;
    if let Some(answer) = &bar.answer {
        write!(text, ": {answer}")?;
    }
    writeln!(text, "</text>")
}

/// A line across where everything stopped.
fn write_crash(text: &mut String, place: u64, end: u64) -> Result<(), AllocError> {
    let x = column(place);
    writeln!(
        text,
        "<line class=\"crash\" x1=\"{x}\" x2=\"{x}\" y2=\"{end}\"/>"
    )
}

/// The words that ever differ, ascending.
fn words_of(alloc: Global, frames: &[Frame]) -> Result<Vec<u64>, AllocError> {
    let mut words = Vec::new(alloc);
    for frame in frames {
        for differs in &frame.differs {
            words.push(differs.word)?;
        }
    }
    words.sort()?;
    words.dedup();
    Ok(words)
}

/// What is drawn: the frames, the rows of the words, how many clients there are, and how large all is.
#[derive(Clone, Copy)]
struct Picture<'a> {
    frames: &'a [Frame],
    rows: Rows<'a>,
    clients: u64,
    sheet: Sheet,
}

/// The words that differ after an act; at a crash those that differed before it, which it took away.
fn write_words(
    alloc: Global,
    text: &mut String,
    picture: &Picture<'_>,
    place: usize,
) -> Result<(), AllocError> {
    let Some(frame) = picture.frames.get(place) else {
        return Ok(());
    };
    let mut shown = frame;
    let mut class = "differs";
    if frame.act == Act::Crash {
        class = "lost";
        if let Some(before) = picture.frames.get(place.saturating_sub(1)) {
            shown = before;
        }
    }
    for differs in &shown.differs {
        picture
            .rows
            .cell(alloc, text, place as u64, *differs, class)?;
    }
    Ok(())
}

/// Where the lane of a client begins.
fn lane_of(client: u64) -> u64 {
    client.saturating_mul(LANE_HEIGHT).saturating_add(1)
}

/// The labels of lanes and of words.
fn write_labels(alloc: Global, text: &mut String, picture: &Picture<'_>) -> Result<(), AllocError> {
    let width = picture.sheet.names;
    for client in 0..picture.clients {
        let what = format!(in alloc; "client {client}")?;
        write_label(text, width, lane_of(client), what.as_str())?;
    }
    picture.rows.labels(alloc, text, width)
}

/// The rules above lanes and words.
fn write_rules(text: &mut String, picture: &Picture<'_>) -> Result<(), AllocError> {
    let width = picture.sheet.columns;
    for client in 0..picture.clients {
        write_rule(text, width, lane_of(client))?;
    }
    picture.rows.rules(text, width)
}

/// All acts.
fn write_acts(alloc: Global, text: &mut String, picture: &Picture<'_>) -> Result<(), AllocError> {
    for place in 0..picture.frames.len() {
        write_words(alloc, text, picture, place)?;
        if let Some(bar) = bar_of(alloc, picture.frames, place)? {
            write_bar(text, &bar)?;
        }
        if picture.frames[place].act == Act::Crash {
            write_crash(text, place as u64, picture.sheet.body)?;
        }
    }
    Ok(())
}

/// The heads of all columns.
fn write_heads(alloc: Global, text: &mut String, picture: &Picture<'_>) -> Result<(), AllocError> {
    let sheet = picture.sheet;
    begin_head(text, sheet, "act")?;
    for (place, frame) in picture.frames.iter().enumerate() {
        let head = Head {
            number: (place as u64).saturating_add(1),
            frame: Some(frame),
        };
        let layout = picture.rows.layout;
        write_head(alloc, text, sheet, layout, place as u64, head)?;
    }
    Ok(())
}

/// The frame with all that is drawn.
fn write_picture(
    alloc: Global,
    text: &mut String,
    picture: &Picture<'_>,
) -> Result<(), AllocError> {
    write_heads(alloc, text, picture)?;
    begin_body(text, picture.sheet)?;
    write_labels(alloc, text, picture)?;
    begin_columns(text, picture.sheet, picture.sheet.body)?;
    write_rules(text, picture)?;
    write_acts(alloc, text, picture)
}

/// The whole page.
fn write_page<'x>(
    alloc: Global,
    text: &mut String,
    queue: QueueLine,
    layout: &'x Layout,
    frames: &'x [Frame],
) -> Result<(), AllocError> {
    let words = words_of(alloc, frames)?;
    let clients = u64::from(queue.clients);
    let kind = match queue.kind {
        Kind::Durable => "durable",
        Kind::Log => "log",
    };
    let rows = Rows {
        layout,
        words: &words,
        top: lane_of(clients),
    };
    let count = frames.len();
    let sheet = Sheet {
        names: rows.width(alloc, LEAST_NAME)?,
        columns: column(count as u64).saturating_add(1),
        head: head_height(alloc, layout, frames)?,
        body: rows.end().saturating_add(2),
    };
    let picture = Picture {
        frames,
        rows,
        clients,
        sheet,
    };
    begin_page(text, "A script, act by act")?;
    let (clients, records) = (queue.clients, queue.records);
    writeln!(
        text,
        "<p>queue {kind} {clients} {records}; acts {count}</p>"
    )?;
    write!(text, "{LEGEND}")?;
    write_picture(alloc, text, &picture)?;
    end_page(text)
}

/// The page of a queue's script.
fn story_of(alloc: Global, queue: QueueLine, script: &Script) -> Result<Vec<u8>, Refusal>
    requires { IsServedQueue queue }
    ensures errors { IfErr result (λ e. e ≡ Refusal.NoMemory) }
{
    let layout = queue.layout()?;
    let frames = frames(alloc, layout, script.commands())?;
    let mut text = String::new(alloc);
    match write_page(alloc, &mut text, queue, &layout, &frames) {
        Ok(()) => Ok(text.into_bytes()),
        Err(_) => Err(Refusal::NoMemory),
    }
}

/// The page of a script's run, empty where the script has no queue; or NoMemory.
pub(crate) fn story(alloc: Global, script: &Script) -> Result<Vec<u8>, Refusal>
    ensures errors { IfErr result (λ e. e ≡ Refusal.NoMemory) }
{
    match script.queue() {
        Some(queue) => story_of(alloc, queue, script),
        None => Ok(Vec::new(alloc)),
    }
}
