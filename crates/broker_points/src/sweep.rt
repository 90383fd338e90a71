//! A crash of a whole broker at every point of a script.

ghost use Rattle.std.specs.Prelude.{◌≡◌, ◌+◌, ◌-◌, ◌<◌, ◌≤◌, ◌++◌, IsTrue, OnOk, IfOk, IfErr, length, map};
ghost use Rattle.std.specs.List.{range_with_len};
ghost use Rattle.broker_lines.specs.Grammar.{IsServedBroker};
ghost use Rattle.broker_points.specs.Sweep.{AreAllPointsOf, AreOk, ArePointsOf, IsPointOf};

use crate::point::{Point, crash};
use broker_lines::{BrokerLine, Statement};
use explore::{Evictions, Watch};
use rayon::prelude::*;
use std::alloc::Global;
use std::thread::Threads;
use words::Refusal;

/// What is done before each crash.
#[derive(Drop)]
pub(crate) struct Schedule {
    pub(crate) broker: BrokerLine,
    pub(crate) acts: Vec<Statement>,
    pub(crate) evictions: Evictions,
}

// Points of one batch cost about the same, so no thread waits long for another. Between two batches `watch` is told how
// far the run is.
/// How many points are made at once.
const AT_ONCE: usize = 256;

/// Where the batch ends that begins at this one of so many points.
fn end_of_batch(from: usize, count: usize) -> usize
    requires { from < count }
    ensures later { from < result }
    ensures within { result ≤ count }
{
    if count - from < AT_ONCE {
        count
    } else {
        from + AT_ONCE
    }
}

/// The points from one on, up to another, made in parallel.
fn some_points<R: Threads + Sync>(
    rt: &R,
    alloc: Global,
    schedule: &Schedule,
    from: usize,
    to: usize,
) -> Result<Vec<Point>, Refusal>
    requires served { IsServedBroker schedule.now.broker }
    requires ordered { from ≤ to }
    requires within { to ≤ length schedule.now.acts.items + 1 }
    ensures points { IfOk result (λ points. ArePointsOf schedule.now (range_with_len from (to - from)) points.items) }
    ensures ok { IfOk result (λ points. AreOk points.items) }
    ensures errors { IfErr result (λ e. e ≡ Refusal.NoMemory) }
{
    let made: Result<Result<Vec<Point>, Refusal>, _> = (from..to)
        .into_par_iter()
        // A point is much work: `rayon` would make a whole batch in one thread.
        .with_min_len(1)
        .map(
            |point: usize| -> Result<Point, Refusal>
                requires served { IsServedBroker schedule.now.broker }
                requires within { point ≤ length schedule.now.acts.items }
                ensures point { IfOk result (λ found. IsPointOf schedule.entry.now point found.text.items) }
                ensures ok { IfOk result (λ found. IsTrue found.ok) }
                ensures errors { IfErr result (λ e. e ≡ Refusal.NoMemory) }
            {
                crash(
                    alloc,
                    &schedule.broker,
                    &schedule.acts[..point],
                    schedule.evictions,
                )
            },
        )
        .collect(rt, alloc);
    match made {
        Ok(points) => points,
        Err(_) => Err(Refusal::NoMemory),
    }
}

/// Adds a batch of points, in their order.
fn append(points: &mut Vec<Point>, mut batch: Vec<Point>) -> Result<(), Refusal>
    ensures points { OnOk result (points.new.items ≡ points.old.items ++ batch.items) }
    ensures errors { IfErr result (λ e. e ≡ Refusal.NoMemory) }
{
    points.append(&mut batch).map_err(|_| Refusal::NoMemory)
}

/// All points of a schedule: before its first act, and after each.
pub(crate) fn all_points<R: Threads + Sync, W: Watch>(
    rt: &R,
    alloc: Global,
    schedule: &Schedule,
    watch: &mut W,
) -> Result<Vec<Point>, Refusal>
    requires { IsServedBroker schedule.now.broker }
    ensures points { IfOk result
        (λ points. AreAllPointsOf schedule.now points.items) }
    ensures ok { IfOk result (λ points. AreOk points.items) }
    ensures errors { IfErr result (λ e. e ≡ Refusal.NoMemory) }
{
    let count = schedule.acts.len() + 1;
    let mut points = Vec::new(alloc);
    'made: while points.len() < count {
        let from = points.len();
        let to = end_of_batch(from, count);
        let more = some_points(rt, alloc, schedule, from, to)?;
        append(&mut points, more)?;
        watch.note(to as u64, count as u64);
    }
    Ok(points)
}
