//! The reports on a script, as text.

ghost use Rattle.std.specs.Prelude.{◌≡◌, ◌<◌, ◌≤◌, ◌++◌, OnOk, IfOk, IfErr, string_bytes};
ghost use Rattle.words.specs.declared.limits.TheConstants.{MAX_CLIENTS};
ghost use Rattle.playing.specs.Prints.{values_text};
ghost use Rattle.script_reports.specs.Reports.{calls_text, content_text, end_text, steps_text, told_all_text, line_of, points_text, stopped_text, text_of_report, most_steps as most_steps_of};

use crate::pictures::page;
use explore::{Alone, Point, Report, Wanted, Watch, alone, watched_points};
use grammar::Script;
use std::alloc::Global;
use std::fmt::Write;
use std::thread::Threads;
use words::{Refusal, Told, Value};

/// Writes what clients are told, parted by commas.
fn write_told(text: &mut String, told: &[Told]) -> Result<(), Refusal>
    ensures text { OnOk result (string_bytes text.new ≡ string_bytes text.old ++ told_all_text told.now) }
    ensures errors { IfErr result (λ e. e ≡ Refusal.NoMemory) }
{
    let Some((first, rest)) = told.split_first() else {
        return Ok(());
    };
    write!(text, "{first}").map_err(|_| Refusal::NoMemory)?;
    for told in rest {
        write!(text, ", {told}").map_err(|_| Refusal::NoMemory)?;
    }
    Ok(())
}

/// Writes the values that a queue holds, each after a space.
fn write_values(text: &mut String, values: &[Value]) -> Result<(), Refusal>
    ensures text { OnOk result (string_bytes text.new ≡ string_bytes text.old ++ values_text values.now) }
    ensures errors { IfErr result (λ e. e ≡ Refusal.NoMemory) }
{
    if values.is_empty() {
        return write!(text, " -").map_err(|_| Refusal::NoMemory);
    }
    for value in values {
        write!(text, " {value}").map_err(|_| Refusal::NoMemory)?;
    }
    Ok(())
}

/// Writes the number of a point, and how many steps recovery had.
fn write_steps(text: &mut String, number: u128, steps: u64) -> Result<(), Refusal>
    ensures text { OnOk result (string_bytes text.new ≡ string_bytes text.old ++ steps_text number steps) }
    ensures errors { IfErr result (λ e. e ≡ Refusal.NoMemory) }
{
    write!(text, "point {number}: recovery {steps}; told ").map_err(|_| Refusal::NoMemory)
}

/// Writes what a queue holds.
fn write_content(text: &mut String, content: &[Value]) -> Result<(), Refusal>
    ensures text { OnOk result (string_bytes text.new ≡ string_bytes text.old ++ content_text content.now) }
    ensures errors { IfErr result (λ e. e ≡ Refusal.NoMemory) }
{
    write!(text, "; content").map_err(|_| Refusal::NoMemory)?;
    write_values(text, content)
}

/// Writes whether a point is ok, and ends its line.
fn write_end(text: &mut String, ok: bool) -> Result<(), Refusal>
    ensures text { OnOk result (string_bytes text.new ≡ string_bytes text.old ++ end_text ok) }
    ensures errors { IfErr result (λ e. e ≡ Refusal.NoMemory) }
{
    let word = if ok { "ok" } else { "bad" };
    writeln!(text, "; {word}").map_err(|_| Refusal::NoMemory)
}

/// Writes the line of a point.
fn write_point(
    text: &mut String,
    clients: usize,
    number: u128,
    point: &Point,
) -> Result<(), Refusal>
    requires { clients ≤ MAX_CLIENTS }
    ensures text { OnOk result (string_bytes text.new ≡ string_bytes text.old ++ line_of clients number point.now) }
    ensures errors { IfErr result (λ e. e ≡ Refusal.NoMemory) }
{
    write_steps(text, number, point.steps)?;
    write_told(text, &point.told[..clients])?;
    write_content(text, &point.content)?;
    write_end(text, point.ok)
}

/// The lines of a report on a queue of so many clients, whose points are numbered from here.
fn report_text(
    alloc: Global,
    clients: usize,
    from: u64,
    report: &Report,
) -> Result<Vec<u8>, Refusal>
    requires { clients ≤ MAX_CLIENTS }
    ensures text { IfOk result (λ text. text.items ≡ text_of_report clients from report.now) }
    ensures errors { IfErr result (λ e. e ≡ Refusal.NoMemory) }
{
    let mut text = String::new(alloc);
    for (place, point) in report.points.iter().enumerate() {
        write_point(&mut text, clients, u128::from(from) + place as u128, point)?;
    }
    writeln!(text, "points {} bad {}", report.points.len(), report.bad).map_err(
        |_| Refusal::NoMemory,
    )?;
    Ok(text.into_bytes())
}

/// A report as text, and as a page.
#[derive(Drop)]
pub(crate) struct Pictured {
    pub(crate) text: Vec<u8>,
    pub(crate) page: Vec<u8>,
}

/// What a crash at each wanted point of a script comes to, as text: the whole of it, or NoMemory.
pub(crate) fn points_text<R: Threads + Sync, W: Watch>(
    rt: &R,
    alloc: Global,
    script: &Script,
    wanted: Wanted,
    watch: &mut W,
) -> Result<Vec<u8>, Refusal>
    ensures text { IfOk result (λ text. text.items ≡ points_text wanted script.now.queue script.now.commands) }
    ensures errors { IfErr result (λ e. e ≡ Refusal.NoMemory) }
{
    let Some(queue) = script.queue() else {
        return Ok(Vec::new(alloc));
    };
    let report = watched_points(rt, alloc, script, wanted, watch)?;
    report_text(alloc, queue.clients as usize, wanted.part.from, &report)
}

/// The same, and beside it the page that shows it, which is empty where the script has no queue.
pub(crate) fn pictured_points<R: Threads + Sync, W: Watch>(
    rt: &R,
    alloc: Global,
    script: &Script,
    wanted: Wanted,
    watch: &mut W,
) -> Result<Pictured, Refusal>
    ensures text { IfOk result (λ found. found.text.items
        ≡ points_text wanted script.now.queue script.now.commands) }
    ensures errors { IfErr result (λ e. e ≡ Refusal.NoMemory) }
{
    let Some(queue) = script.queue() else {
        return Ok(Pictured {
            text: Vec::new(alloc),
            page: Vec::new(alloc),
        });
    };
    let report = watched_points(rt, alloc, script, wanted, watch)?;
    let text = report_text(alloc, queue.clients as usize, wanted.part.from, &report)?;
    let page = page(alloc, queue, script.commands(), wanted, &report)?;
    Ok(Pictured { text, page })
}

/// The most steps that a call took.
fn most_steps(calls: &[Alone]) -> u32
    ensures { result ≡ most_steps_of calls.now }
{
    let mut most = 0;
    for call in calls {
        most = most.max(call.steps);
    }
    most
}

/// The lines of calls that went on alone.
fn calls_text(alloc: Global, calls: &[Alone]) -> Result<Vec<u8>, Refusal>
    ensures text { IfOk result (λ text. text.items ≡ calls_text calls.now) }
    ensures errors { IfErr result (λ e. e ≡ Refusal.NoMemory) }
{
    let mut text = String::new(alloc);
    for call in calls {
        writeln!(text, "{call}").map_err(|_| Refusal::NoMemory)?;
    }
    writeln!(text, "alone {} most {}", calls.len(), most_steps(calls)).map_err(
        |_| Refusal::NoMemory,
    )?;
    Ok(text.into_bytes())
}

/// What becomes of each call that stopped, as text: the whole of it, or NoMemory.
pub(crate) fn stopped_text(alloc: Global, script: &Script) -> Result<Vec<u8>, Refusal>
    ensures text { IfOk result (λ text. text.items ≡ stopped_text script.now.queue script.now.commands) }
    ensures errors { IfErr result (λ e. e ≡ Refusal.NoMemory) }
{
    if script.queue().is_none() {
        return Ok(Vec::new(alloc));
    }
    calls_text(alloc, &alone(alloc, script)?)
}
