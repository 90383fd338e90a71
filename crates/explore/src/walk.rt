//! Points that one worker makes, one after another.

ghost use Rattle.std.specs.Prelude.{◌≡◌, ◌<◌, ◌≤◌, ◌+◌, ◌-◌, OnOk, IfOk, IfErr, length};
ghost use Rattle.arena.specs.Layout.{size_of};
ghost use Rattle.interleave.specs.Holds.{Holds};
ghost use Rattle.interleave.specs.State.{new_world};
ghost use Rattle.explore.specs.Points.{all_found, found_between, found_stopped, found_unevicted, AddsFound, MakesNextAct};

use crate::attempts::{attempt, attempt_all};
use crate::evictions::Evictions;
use crate::point::{Point, crash};
use crate::spare::Spare;
use crate::stop::{Probe, stop};
use arena::Layout;
use interleave::{Act, World};
use playing::push;
use std::alloc::Global;
use words::Refusal;

/// Adds what is found if a world stops now.
fn add_stop(
    points: &mut Vec<Point>,
    alloc: Global,
    world: &World,
    probe: &mut Probe,
) -> Result<(), Refusal>
    requires holds { Holds world.now.now }
    requires size { length probe.old.copy.words.kept ≡ length world.now.now.words.kept }
    ensures points { OnOk result (AddsFound points.old.items points.new.items (found_stopped world.now.now)) }
    ensures size { length probe.new.copy.words.kept ≡ length probe.old.copy.words.kept }
    ensures errors { IfErr result (λ e. e ≡ Refusal.NoMemory) }
{
    let found = stop(alloc, world, probe, points.last())?;
    push(points, found)
}

/// Makes the act at this place, if there is one.
fn go_on(world: &mut World, acts: &[Act], point: usize) -> Result<(), Refusal>
    ensures world { OnOk result (MakesNextAct acts.now point world.old.now world.new.now) }
    ensures errors { IfErr result (λ e. e ≡ Refusal.NoMemory) }
{
    if point < acts.len() {
        attempt(world, acts[point])?;
    }
    Ok(())
}

/// Adds what is found if a world stops now, and makes the act at this place, if there is one.
fn pass_point(
    points: &mut Vec<Point>,
    alloc: Global,
    world: &mut World,
    probe: &mut Probe,
    acts: &[Act],
    point: usize,
) -> Result<(), Refusal>
    requires holds { Holds world.old.now }
    requires size { length probe.old.copy.words.kept ≡ length world.old.now.words.kept }
    ensures points { OnOk result (AddsFound points.old.items points.new.items (found_stopped world.old.now)) }
    ensures size { length probe.new.copy.words.kept ≡ length probe.old.copy.words.kept }
    ensures world { OnOk result (MakesNextAct acts.now point world.old.now world.new.now) }
    ensures errors { IfErr result (λ e. e ≡ Refusal.NoMemory) }
{
    add_stop(points, alloc, world, probe)?;
    go_on(world, acts, point)
}

/// Makes the acts before a point in a new world, and gives the points from there on, up to another. At each a copy of
/// what the world keeps recovers.
fn stops_in(
    alloc: Global,
    world: &mut World,
    probe: &mut Probe,
    acts: &[Act],
    from: usize,
    to: usize,
) -> Result<Vec<Point>, Refusal>
    requires ordered { from < to }
    requires within { to ≤ length acts.now + 1 }
    requires world { world.old.now ≡ new_world world.old.now.shape }
    requires size { length probe.old.copy.words.kept ≡ size_of world.old.now.shape }
    ensures points { IfOk result
        (λ points. all_found points.items ≡ found_unevicted world.old.now.shape acts.now from to) }
    ensures errors { IfErr result (λ e. e ≡ Refusal.NoMemory) }
{
    attempt_all(world, &acts[..from])?;
    let mut points = Vec::new(alloc);
    for point in from..to {
        // Its clauses make known what holds of the world.
        let _ = world.history();
        pass_point(&mut points, alloc, world, probe, acts, point)?;
    }
    Ok(points)
}

/// Makes the acts in a new world, and gives the points from one on, up to another.
fn stops_of(
    alloc: Global,
    world: &mut World,
    acts: &[Act],
    from: usize,
    to: usize,
) -> Result<Vec<Point>, Refusal>
    requires ordered { from < to }
    requires within { to ≤ length acts.now + 1 }
    requires world { world.old.now ≡ new_world world.old.now.shape }
    ensures points { IfOk result
        (λ points. all_found points.items ≡ found_unevicted world.old.now.shape acts.now from to) }
    ensures errors { IfErr result (λ e. e ≡ Refusal.NoMemory) }
{
    let mut probe = Probe::new(alloc, *world.layout())?;
    stops_in(alloc, world, &mut probe, acts, from, to)
}

/// The points from one on, up to another, where no word is evicted: one world makes all acts.
pub(crate) fn stopped_points(
    alloc: Global,
    layout: Layout,
    acts: &[Act],
    from: usize,
    to: usize,
) -> Result<Vec<Point>, Refusal>
    requires ordered { from < to }
    requires within { to ≤ length acts.now + 1 }
    ensures points { IfOk result (λ points. all_found points.items ≡ found_unevicted layout acts.now from to) }
    ensures errors { IfErr result (λ e. e ≡ Refusal.NoMemory) }
{
    let mut world = World::make(alloc, layout)?;
    stops_of(alloc, &mut world, acts, from, to)
}

/// The same where words are evicted. An eviction may make a call take effect, and which one is the world's to know: so
/// each point has a world of its own, which makes all acts.
pub(crate) fn evicted_points(
    alloc: Global,
    layout: Layout,
    acts: &[Act],
    evictions: Evictions,
    from: usize,
    to: usize,
) -> Result<Vec<Point>, Refusal>
    requires ordered { from < to }
    requires within { to ≤ length acts.now + 1 }
    ensures points { IfOk result
        (λ points. all_found points.items ≡ found_between layout acts.now evictions from to) }
    ensures errors { IfErr result (λ e. e ≡ Refusal.NoMemory) }
{
    let mut spare = Spare::none();
    let mut points = Vec::new(alloc);
    for point in from..to {
        push(
            &mut points,
            crash(alloc, &mut spare, layout, &acts[..point], evictions)?,
        )?;
    }
    Ok(points)
}
