//! What a crash after some acts comes to.

ghost use Rattle.std.specs.Prelude.{◌≡◌, IfOk, IfErr, length, map};
ghost use Rattle.std.specs.List.{range_with_len};
ghost use Rattle.interleave.specs.State.{new_world};
ghost use Rattle.explore.specs.Points.{found_of, found_in, found_after};
ghost use Rattle.playing.specs.Transcript.{told_at};

use crate::attempts::{attempt_all, most_to_ready, repeat};
use crate::evictions::{Evictions, evict_words};
use crate::spare::Spare;
use arena::Layout;
use history::check_content;
use interleave::{Act, World};
use std::alloc::Global;
use words::{Client, MAX_CLIENTS, Refusal, Reports, Told, Value};

/// What a crash at one point of a script comes to, once recovery has ended.
#[derive(Drop)]
pub struct Point {
    /// How many steps recovery had.
    pub steps: u64,
    /// What each client is told, and None past the last client.
    pub told: Reports,
    /// What the queue holds, the first value first.
    pub content: Vec<Value>,
    /// Whether the order in which calls took effect explains all that happened, and its replay leaves that content.
    pub ok: bool,
}

/// What each client was told.
fn reports(world: &World) -> Reports
    ensures { result ≡ map (told_at world.now.now) (range_with_len 0 MAX_CLIENTS) }
{
    let mut told = [Told::None; MAX_CLIENTS];
    for number in 0..MAX_CLIENTS {
        told[number] = world.told(Client(number as u8));
    }
    told
}

/// What is found in a world, after so many steps of recovery.
fn found(alloc: Global, world: &World, steps: u32) -> Result<Point, Refusal>
    ensures found { IfOk result (λ point. found_of point ≡ found_in world.now.now steps) }
    ensures errors { IfErr result (λ e. e ≡ Refusal.NoMemory) }
{
    let content = world.content()?;
    let ok = check_content(alloc, world.history(), &world.order()?, &content)?;
    Ok(Point {
        steps: u64::from(steps),
        told: reports(world),
        content,
        ok,
    })
}

/// What a crash comes to in a new world that makes these acts first.
fn crash_in(
    alloc: Global,
    world: &mut World,
    acts: &[Act],
    evictions: Evictions,
) -> Result<Point, Refusal>
    requires { world.old.now ≡ new_world world.old.now.shape }
    // Long, since the world's layout has no name of its own here.
    ensures found { IfOk result (λ found. found_of found
        ≡ found_after world.old.now.shape acts.now evictions (length acts.now)) }
    ensures errors { IfErr result (λ e. e ≡ Refusal.NoMemory) }
{
    attempt_all(world, acts)?;
    evict_words(world, evictions, acts.len() as u64);
    world.crash()?;
    let most = most_to_ready(world.layout());
    // Steps once the queue is ready are refused, and not counted.
    let steps = repeat(world, &Act::Recover, most)?;
    found(alloc, world, steps)
}

/// A new world makes these acts, then the environment evicts what it is to evict at this point, everything stops, and
/// recovery goes on to its end.
pub(crate) fn crash(
    alloc: Global,
    spare: &mut Spare,
    layout: Layout,
    acts: &[Act],
    evictions: Evictions,
) -> Result<Point, Refusal>
    ensures found { IfOk result (λ found. found_of found
        ≡ found_after layout acts.now evictions (length acts.now)) }
    ensures errors { IfErr result (λ e. e ≡ Refusal.NoMemory) }
{
    let mut world = spare.world(alloc, layout)?;
    let found = crash_in(alloc, &mut world, acts, evictions);
    spare.keep(world);
    found
}
