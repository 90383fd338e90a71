//! A crash at every point of a script.

ghost use Rattle.std.specs.Prelude.{◌≡◌, ◌+◌, ◌-◌, ◌*◌, ◌<◌, ◌≤◌, ◌++◌, min, OnOk, IfOk, IfErr, length, not, count_by};
ghost use Rattle.std.specs.List.{flat_map};
ghost use Rattle.explore.specs.Pieces.{found_in_piece, found_in_range};
ghost use Rattle.explore.specs.Points.{all_found, found_on, wanted_of};

use crate::acts::accepted_acts;
use crate::evictions::Evictions;
use crate::part::Wanted;
use crate::point::Point;
use crate::walk::{evicted_points, stopped_points};
use crate::watch::Watch;
use arena::Layout;
use grammar::Script;
use interleave::Act;
use rayon::prelude::*;
use std::alloc::Global;
use std::thread::Threads;
use words::Refusal;

/// What a crash at each point of a script comes to, in the order of the points.
#[derive(Drop)]
pub struct Report {
    pub points: Vec<Point>,
    /// How many of the points are not ok.
    pub bad: u64,
}

/// What is done before each crash.
#[derive(Drop)]
struct Schedule {
    layout: Layout,
    acts: Vec<Act>,
    evictions: Evictions,
}

// A piece makes the acts before its first point once more: more points a piece are fewer acts made again. A batch has
// some pieces for each processor, and between two batches `watch` is told how far the run is.
/// How many points one worker makes, one after another.
pub const PIECE: usize = 128;

/// How many pieces are made at once.
const PIECES: usize = 32;

/// How many points are made at once.
const AT_ONCE: usize = PIECES * PIECE;

/// Where the batch ends that begins at this one, of those up to another.
fn end_of_batch(from: usize, to: usize) -> usize
    requires { from < to }
    ensures later { from < result }
    ensures within { result ≤ to }
{
    if to - from < AT_ONCE {
        to
    } else {
        from + AT_ONCE
    }
}

/// The points of a piece of a batch.
fn piece_points(
    alloc: Global,
    schedule: &Schedule,
    from: usize,
    to: usize,
    piece: usize,
) -> Result<Vec<Point>, Refusal>
    requires some { from + piece * PIECE < to }
    requires within { to ≤ length schedule.now.acts.items + 1 }
    ensures points { IfOk result
        (λ points. all_found points.items ≡ found_in_piece schedule.now from to piece) }
    ensures errors { IfErr result (λ e. e ≡ Refusal.NoMemory) }
{
    let first = from + piece * PIECE;
    let end = first + PIECE.min(to - first);
    let layout = schedule.layout;
    match schedule.evictions {
        Evictions::None => stopped_points(alloc, layout, &schedule.acts, first, end),
        evictions => evicted_points(alloc, layout, &schedule.acts, evictions, first, end),
    }
}

/// The points of pieces, one after another.
fn joined(alloc: Global, pieces: Vec<Vec<Point>>) -> Result<Vec<Point>, Refusal>
    ensures points { IfOk result (λ points. points.items ≡ flat_map (λ piece. piece.items) pieces.items) }
    ensures errors { IfErr result (λ e. e ≡ Refusal.NoMemory) }
{
    let mut points = Vec::new(alloc);
    for piece in pieces {
        append(&mut points, piece)?;
    }
    Ok(points)
}

/// The points from one on, up to another, made in parallel.
fn some_points<R: Threads + Sync>(
    rt: &R,
    alloc: Global,
    schedule: &Schedule,
    from: usize,
    to: usize,
) -> Result<Vec<Point>, Refusal>
    requires ordered { from ≤ to }
    requires within { to ≤ length schedule.now.acts.items + 1 }
    ensures points { IfOk result (λ points. all_found points.items ≡ found_in_range schedule.now from to) }
    ensures errors { IfErr result (λ e. e ≡ Refusal.NoMemory) }
{
    let pieces = (to - from).div_ceil(PIECE);
    let made: Result<Result<Vec<Vec<Point>>, Refusal>, _> = (0..pieces)
        .into_par_iter()
        // A piece is much work: `rayon` would make a whole batch in one thread.
        .with_min_len(1)
        .map(
            |piece: usize| -> Result<Vec<Point>, Refusal>
                requires { (from + piece * PIECE < to) × (to ≤ length schedule.now.acts.items + 1) }
                ensures points { IfOk result
                    (λ points. all_found points.items ≡ found_in_piece schedule.entry.now from to piece) }
                ensures errors { IfErr result (λ e. e ≡ Refusal.NoMemory) }
            { piece_points(alloc, schedule, from, to, piece) },
        )
        .collect(rt, alloc);
    match made {
        Ok(Ok(pieces)) => joined(alloc, pieces),
        Ok(Err(refusal)) => Err(refusal),
        Err(_) => Err(Refusal::NoMemory),
    }
}

/// Adds a batch of points, in their order.
fn append(points: &mut Vec<Point>, mut batch: Vec<Point>) -> Result<(), Refusal>
    ensures points { OnOk result (points.new.items ≡ points.old.items ++ batch.items) }
    ensures errors { IfErr result (λ e. e ≡ Refusal.NoMemory) }
{
    points.append(&mut batch).map_err(|_| Refusal::NoMemory)
}

/// The points of a schedule from one on, up to another.
fn all_points<R: Threads + Sync, W: Watch>(
    rt: &R,
    alloc: Global,
    schedule: &Schedule,
    from: usize,
    to: usize,
    watch: &mut W,
) -> Result<Vec<Point>, Refusal>
    requires ordered { from ≤ to }
    requires within { to ≤ length schedule.now.acts.items + 1 }
    ensures points { IfOk result (λ points. all_found points.items ≡ found_in_range schedule.now from to) }
    ensures errors { IfErr result (λ e. e ≡ Refusal.NoMemory) }
{
    let count = to - from;
    let mut points = Vec::new(alloc);
    'made: while points.len() < count {
        let begun = from + points.len();
        let end = end_of_batch(begun, to);
        let more = some_points(rt, alloc, schedule, begun, end)?;
        append(&mut points, more)?;
        watch.note((end - from) as u64, count as u64);
    }
    Ok(points)
}

/// A report of points: it counts those that are not ok.
fn report_of(points: Vec<Point>) -> Report
    ensures points { result.points.items ≡ points.items }
    ensures bad { result.bad ≡ count_by (λ point. not point.ok) points.items }
{
    let bad = points.iter().filter(|point| !point.ok).count() as u64;
    Report { points, bad }
}

/// What a crash at each wanted point of a script comes to: before its first act that is accepted, and after each. For
/// each the environment keeps the words that are to be evicted, everything stops in a world that made the acts up to
/// there, and recovery goes on to its end. Points are made in several threads, and `watch` is told how many. A script
/// without a queue has none, and so has a part past the last point. It is refused for want of memory alone (NoMemory).
pub fn watched_points<R: Threads + Sync, W: Watch>(
    rt: &R,
    alloc: Global,
    script: &Script,
    wanted: Wanted,
    watch: &mut W,
) -> Result<Report, Refusal>
    ensures points { IfOk result (λ report. all_found report.points.items ≡ wanted_of wanted script.now) }
    ensures bad { IfOk result (λ report. report.bad ≡ 0) }
    ensures errors { IfErr result (λ e. e ≡ Refusal.NoMemory) }
{
    let Some(queue) = script.queue() else {
        return Ok(report_of(Vec::new(alloc)));
    };
    let layout = queue.layout()?;
    let acts = accepted_acts(alloc, layout, script.commands())?;
    let (from, to) = wanted.part.ends(acts.len() + 1);
    let schedule = Schedule {
        layout,
        acts,
        evictions: wanted.evictions,
    };
    Ok(report_of(all_points(rt, alloc, &schedule, from, to, watch)?))
}
