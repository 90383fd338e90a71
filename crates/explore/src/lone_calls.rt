//! Calls that stopped, each going on alone.

ghost use Rattle.std.specs.Prelude.{◌≡◌, ◌≤◌, ◌+◌, ◌++◌, Ok, false, OnOk, IfOk, IfErr, All, length};
ghost use Rattle.words.specs.declared.limits.TheConstants.{MAX_STEPS_ALONE};
ghost use Rattle.interleave.specs.State.{after_acts, new_world};
ghost use Rattle.explore.specs.Stopped.{alone_after, alone_at_each, alone_of, lone_answer};

use crate::acts::accepted_acts;
use crate::answers::Alone;
use crate::attempts::{attempt_all, pass_over};
use arena::Layout;
use grammar::Script;
use interleave::{Act, World};
use playing::push;
use std::alloc::Global;
use words::{Client, Refusal};

/// Makes this a new world that has made these acts.
fn make_again(world: &mut World, alloc: Global, layout: Layout, acts: &[Act]) -> Result<(), Refusal>
    ensures world { OnOk result (world.new.now ≡ after_acts (new_world layout) acts.now) }
    ensures errors { IfErr result (λ e. e ≡ Refusal.NoMemory) }
{
    *world = World::make(alloc, layout)?;
    attempt_all(world, acts)
}

/// A client's call goes on alone to its answer, which is added. It answers whether there was such a call: where the
/// client has none, or recovery is under way, nothing happens.
fn go_alone(
    found: &mut Vec<Alone>,
    world: &mut World,
    point: u64,
    client: Client,
) -> Result<bool, Refusal>
    ensures found { OnOk result (found.new.items ≡ found.old.items ++ lone_answer point world.old.now client) }
    ensures same { result ≡ Ok false → world.new.now ≡ world.old.now }
    ensures errors { IfErr result (λ e. e ≡ Refusal.NoMemory) }
{
    match world.run_alone(client) {
        Ok((reply, steps)) => {
            let alone = Alone {
                point,
                client,
                reply,
                steps,
            };
            push(found, alone)?;
            Ok(true)
        }
        Err(refusal) => {
            pass_over(refusal)?;
            Ok(false)
        }
    }
}

/// Adds what becomes of a client's call, where it goes on alone in a world that has made these acts. It is such a world
/// again then.
fn add_client(
    found: &mut Vec<Alone>,
    alloc: Global,
    world: &mut World,
    layout: Layout,
    acts: &[Act],
    client: Client,
) -> Result<(), Refusal>
    requires { world.old.now ≡ after_acts (new_world layout) acts.now }
    ensures world { OnOk result (world.new.now ≡ world.old.now) }
    ensures found { OnOk result (found.new.items
        ≡ found.old.items ++ lone_answer (length acts.now) world.old.now client) }
    ensures errors { IfErr result (λ e. e ≡ Refusal.NoMemory) }
{
    if go_alone(found, world, acts.len() as u64, client)? {
        // The call has changed its world: the next one stopped in another.
        make_again(world, alloc, layout, acts)?;
    }
    Ok(())
}

/// A new world makes these acts, and what becomes of each client's call is added, where it goes on alone.
fn add_each(
    found: &mut Vec<Alone>,
    alloc: Global,
    world: &mut World,
    layout: Layout,
    acts: &[Act],
) -> Result<(), Refusal>
    requires { world.old.now ≡ new_world layout }
    ensures found { OnOk result (found.new.items
        ≡ found.old.items ++ alone_after layout acts.now (length acts.now)) }
    ensures errors { IfErr result (λ e. e ≡ Refusal.NoMemory) }
{
    attempt_all(world, acts)?;
    for number in 0..world.layout().clients() {
        add_client(found, alloc, world, layout, acts, Client(number as u8))?;
    }
    Ok(())
}

/// Adds what becomes of each client's call after these acts, where it goes on alone.
fn add_clients(
    found: &mut Vec<Alone>,
    alloc: Global,
    layout: Layout,
    acts: &[Act],
) -> Result<(), Refusal>
    ensures found { OnOk result (found.new.items
        ≡ found.old.items ++ alone_after layout acts.now (length acts.now)) }
    ensures errors { IfErr result (λ e. e ≡ Refusal.NoMemory) }
{
    let mut world = World::make(alloc, layout)?;
    add_each(found, alloc, &mut world, layout, acts)
}

/// What becomes of each call that stopped, at each point.
fn alone_on(alloc: Global, layout: Layout, acts: &[Act]) -> Result<Vec<Alone>, Refusal>
    ensures found { IfOk result (λ found. found.items ≡ alone_at_each layout acts.now) }
    ensures errors { IfErr result (λ e. e ≡ Refusal.NoMemory) }
{
    let mut found = Vec::new(alloc);
    for point in 0..acts.len() + 1 {
        add_clients(&mut found, alloc, layout, &acts[..point])?;
    }
    Ok(found)
}

/// Each call that is under way at a point of a script, with the queue ready, goes on alone to its answer: by the order
/// of the points, and then of the clients. For each a new world makes the acts up to there. A script without a queue
/// has none. It is refused for want of memory alone (NoMemory).
pub fn alone(alloc: Global, script: &Script) -> Result<Vec<Alone>, Refusal>
    ensures found { IfOk result (λ found. found.items ≡ alone_of script.now.queue script.now.commands) }
    ensures few { IfOk result (λ found. All (λ alone. alone.steps ≤ MAX_STEPS_ALONE) found.items) }
    ensures errors { IfErr result (λ e. e ≡ Refusal.NoMemory) }
{
    let Some(queue) = script.queue() else {
        return Ok(Vec::new(alloc));
    };
    let layout = queue.layout()?;
    let acts = accepted_acts(alloc, layout, script.commands())?;
    alone_on(alloc, layout, &acts)
}
