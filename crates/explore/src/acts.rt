//! The acts of a script.

ghost use Rattle.std.specs.Prelude.{◌≡◌, ◌++◌, ◌∷◌, [], OnOk, IfOk, IfErr, replicate};
ghost use Rattle.interleave.specs.State.{after_acts, new_world};
ghost use Rattle.protocol.specs.declared.acts.Act.TheVariants.{Start};
ghost use Rattle.explore.specs.Acts.{accepted_by, accepted_of, acts_of, attempts_of, IsSteady};

use crate::attempts::{attempt, most_to_ready, repeat};
use arena::Layout;
use grammar::Command;
use interleave::{Act, World};
use playing::push;
use std::alloc::Global;
use words::{Call, Client, MAX_STEPS_ALONE, Refusal};

/// Adds an act.
fn add(acts: &mut Vec<Act>, act: &Act) -> Result<(), Refusal>
    ensures acts { OnOk result (acts.new.items ≡ acts.old.items ++ act.now ∷ []) }
    ensures errors { IfErr result (λ e. e ≡ Refusal.NoMemory) }
{
    match act {
        Act::Start {
            client,
            number,
            call,
        } => push(acts, start(*client, *number, *call)),
        Act::Step { client } => push(acts, Act::Step { client: *client }),
        Act::Evict { at } => push(acts, Act::Evict { at: *at }),
        Act::Crash => push(acts, Act::Crash),
        Act::Recover => push(acts, Act::Recover),
    }
}

/// Adds an act so many times.
fn push_all(acts: &mut Vec<Act>, act: &Act, times: u32) -> Result<(), Refusal>
    ensures acts { OnOk result (acts.new.items ≡ acts.old.items ++ replicate times act.now) }
    ensures errors { IfErr result (λ e. e ≡ Refusal.NoMemory) }
{
    for _ in 0..times {
        add(acts, act)?;
    }
    Ok(())
}

/// Attempts an act once, and adds it where it was accepted.
fn once(world: &mut World, acts: &mut Vec<Act>, act: &Act) -> Result<(), Refusal>
    ensures world { OnOk result (world.new.now ≡ after_acts world.old.now (act.now ∷ [])) }
    ensures acts { OnOk result (acts.new.items ≡ acts.old.items ++ accepted_of world.old.now (act.now ∷ [])) }
    ensures errors { IfErr result (λ e. e ≡ Refusal.NoMemory) }
{
    if attempt(world, *act)? {
        add(acts, act)?;
    }
    Ok(())
}

/// Attempts an act at most so many times and until it is refused, and adds it as often as it was accepted.
fn some(world: &mut World, acts: &mut Vec<Act>, act: &Act, most: u32) -> Result<(), Refusal>
    requires { IsSteady act.now }
    ensures world { OnOk result (world.new.now ≡ after_acts world.old.now (replicate most act.now)) }
    ensures acts { OnOk result (acts.new.items ≡ acts.old.items ++ accepted_of world.old.now (replicate most act.now)) }
    ensures errors { IfErr result (λ e. e ≡ Refusal.NoMemory) }
{
    let times = repeat(world, act, most)?;
    push_all(acts, act, times)
}

/// A client's call begins.
fn start(client: Client, number: u64, call: Call) -> Act
    ensures { result ≡ Start client number call }
{
    Act::Start {
        client,
        number,
        call,
    }
}

/// Attempts what a command asks for, and adds the acts that were accepted.
fn follow(world: &mut World, acts: &mut Vec<Act>, command: Command) -> Result<(), Refusal>
    ensures world { OnOk result (world.new.now ≡ after_acts world.old.now (attempts_of world.old.now.shape command)) }
    ensures acts { OnOk result (acts.new.items ≡ acts.old.items ++ accepted_by world.old.now command) }
    ensures errors { IfErr result (λ e. e ≡ Refusal.NoMemory) }
{
    // Steps past the answer, or once the queue is ready, are refused, and so no acts: the greatest count will do.
    match command {
        Command::Enq { client, value } => once(world, acts, &start(client, 0, Call::Enq(value))),
        Command::NumberedEnq {
            client,
            number,
            value,
        } => once(world, acts, &start(client, number, Call::Enq(value))),
        Command::Deq { client } => once(world, acts, &start(client, 0, Call::Deq)),
        Command::NumberedDeq { client, number } => {
            once(world, acts, &start(client, number, Call::Deq))
        }
        Command::Step { client, most } => some(world, acts, &Act::Step { client }, most),
        Command::End { client } => some(world, acts, &Act::Step { client }, MAX_STEPS_ALONE),
        Command::Evict { word } => once(world, acts, &Act::Evict { at: word as usize }),
        Command::Crash => once(world, acts, &Act::Crash),
        Command::Recover => {
            let most = most_to_ready(world.layout());
            some(world, acts, &Act::Recover, most)
        }
        Command::RecoverBy { most } => some(world, acts, &Act::Recover, most),
        Command::Content | Command::Order | Command::Again => Ok(()),
    }
}

/// The acts of commands that a new world accepts, in order.
fn accepted_in(alloc: Global, world: &mut World, commands: &[Command]) -> Result<Vec<Act>, Refusal>
    requires { world.old.now ≡ new_world world.old.now.shape }
    ensures acts { IfOk result (λ acts. acts.items ≡ acts_of world.old.now.shape commands.now) }
    ensures errors { IfErr result (λ e. e ≡ Refusal.NoMemory) }
{
    let mut acts = Vec::new(alloc);
    for command in commands {
        follow(world, &mut acts, *command)?;
    }
    Ok(acts)
}

/// The acts of commands on a new world that are accepted, in order.
pub fn accepted_acts(
    alloc: Global,
    layout: Layout,
    commands: &[Command],
) -> Result<Vec<Act>, Refusal>
    ensures acts { IfOk result (λ acts. acts.items ≡ acts_of layout commands.now) }
    ensures errors { IfErr result (λ e. e ≡ Refusal.NoMemory) }
{
    let mut world = World::make(alloc, layout)?;
    accepted_in(alloc, &mut world, commands)
}
