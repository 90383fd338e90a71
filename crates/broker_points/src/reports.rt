//! The report on a script, as text.

ghost use Rattle.std.specs.Prelude.{◌≡◌, ◌++◌, OnOk, IfOk, IfErr, count_by, map, not};
ghost use Rattle.std.specs.List.{concat};
ghost use Rattle.broker_lines.specs.Grammar.{counts_by, IsServedBroker};
ghost use Rattle.broker_points.specs.Run.{count_text, IsReport, IsReportOf};
ghost use Rattle.broker_points.specs.Sweep.{report_on, text_of};

use crate::acts::accepted_acts;
use crate::point::Point;
use crate::sweep::{Schedule, all_points};
use broker_lines::{BrokerLine, Statement};
use broker_script::{Player, Script};
use explore::{Evictions, Watch};
use std::alloc::Global;
use std::fmt::Write;
use std::thread::Threads;
use words::Refusal;

/// Adds the line of a point.
fn append(text: &mut Vec<u8>, line: &[u8]) -> Result<(), Refusal>
    ensures text { OnOk result (text.new.items ≡ text.old.items ++ line.now) }
    ensures errors { IfErr result (λ e. e ≡ Refusal.NoMemory) }
{
    text.extend_from_slice(line).map_err(|_| Refusal::NoMemory)
}

/// The lines of all points, one after the other.
fn lines_text(alloc: Global, points: &[Point]) -> Result<Vec<u8>, Refusal>
    ensures text { IfOk result (λ text. text.items ≡ concat (map text_of points.now)) }
    ensures errors { IfErr result (λ e. e ≡ Refusal.NoMemory) }
{
    let mut text = Vec::new(alloc);
    for point in points {
        append(&mut text, &point.text)?;
    }
    Ok(text)
}

/// How many points are not ok.
fn bad_count(points: &[Point]) -> usize
    ensures { result ≡ count_by (λ point. not point.ok) points.now }
{
    points.iter().filter(|point| !point.ok).count()
}

/// The line that counts points, and those that are not ok.
fn count_line(alloc: Global, points: usize, bad: usize) -> Result<Vec<u8>, Refusal>
    ensures text { IfOk result (λ text. text.items ≡ count_text points bad) }
    ensures errors { IfErr result (λ e. e ≡ Refusal.NoMemory) }
{
    let mut text = String::new(alloc);
    writeln!(text, "points {points} bad {bad}").map_err(|_| Refusal::NoMemory)?;
    Ok(text.into_bytes())
}

/// The text of a report on points.
fn report_text(alloc: Global, points: &[Point]) -> Result<Vec<u8>, Refusal>
    ensures text { IfOk result (λ text. text.items ≡ report_on points.now) }
    ensures errors { IfErr result (λ e. e ≡ Refusal.NoMemory) }
{
    let mut text = lines_text(alloc, points)?;
    let last = count_line(alloc, points.len(), bad_count(points))?;
    append(&mut text, &last)?;
    Ok(text)
}

/// What a crash at each point of these lines comes to, on a new broker, as text.
fn report_of<R: Threads + Sync, W: Watch>(
    rt: &R,
    alloc: Global,
    broker: BrokerLine,
    statements: &[Statement],
    evictions: Evictions,
    watch: &mut W,
) -> Result<Vec<u8>, Refusal>
    requires { IsServedBroker broker }
    ensures report { IfOk result (λ text. IsReportOf (counts_by broker) statements.now evictions text.items) }
    ensures errors { IfErr result (λ e. e ≡ Refusal.NoMemory) }
{
    let player = Player::new(alloc, broker.clients, broker.records)?;
    let acts = accepted_acts(alloc, player, statements)?;
    let schedule = Schedule {
        broker,
        acts,
        evictions,
    };
    let points = all_points(rt, alloc, &schedule, watch)?;
    report_text(alloc, &points)
}

/// What a crash of the whole broker at each point of a script comes to, as text: a line for each point, before the
/// first act that is accepted and after each, and one that counts them. Points are made in several threads. A script
/// without a broker has none, and no text. It is refused for want of memory alone (NoMemory).
pub(crate) fn report<R: Threads + Sync, W: Watch>(
    rt: &R,
    alloc: Global,
    script: &Script,
    evictions: Evictions,
    watch: &mut W,
) -> Result<Vec<u8>, Refusal>
    ensures report { IfOk result (λ text. IsReport script.now.broker script.now.statements evictions text.items) }
    ensures errors { IfErr result (λ e. e ≡ Refusal.NoMemory) }
{
    let Some(broker) = script.broker() else {
        return Ok(Vec::new(alloc));
    };
    report_of(rt, alloc, broker, script.statements(), evictions, watch)
}
