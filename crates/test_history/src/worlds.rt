//! The life of one queue in a run of acts: a stop among them, the end of its history, and a queue on what its words keep.

use arena::Layout;
use interleave::{Act, World};
use std::alloc::{AllocError, Global};
use std::test::Fail;
use test_support::{are_items, item};
use words::{Call, Client, Kind, Outcome, Refusal, Reply, Told, Verdict};

const CLIENT: Client = Client(0);

/// A put with more steps than it has, and a stop with more steps of recovery than that takes: these are refused.
fn put_and_stop(alloc: Global) -> Result<Vec<Act>, AllocError> {
    let mut acts = Vec::new(alloc);
    acts.push(Act::Start {
        client: CLIENT,
        number: 1,
        call: Call::Enq(item(7)),
    })?;
    for _ in 0..64 {
        acts.push(Act::Step { client: CLIENT })?;
    }
    acts.push(Act::Crash)?;
    for _ in 0..64 {
        acts.push(Act::Recover)?;
    }
    Ok(acts)
}

/// Whether the queue holds the one item, and its client is told of the put.
fn has_the_put(world: &World) -> Result<bool, Refusal> {
    let put = Verdict {
        number: 1,
        outcome: Outcome::Taken(Reply::Done),
    };
    let is_told = world.told(CLIENT) == Told::Verdict(put);
    Ok(is_told && are_items(world.content()?.as_slice(), &[7]))
}

fn lives_on(alloc: Global) -> Result<bool, Fail> {
    let layout = Layout::make(Kind::Log, 1, 4)?;
    let acts = put_and_stop(alloc)?;
    let mut world = World::make(alloc, layout)?;
    let ran = world.run(acts.as_slice());
    let is_put = ran.refused > 0 && has_the_put(&world)?;
    world.rotate()?;
    let is_kept = world.history().events.len() == 0 && has_the_put(&world)?;
    let booted = World::boot(alloc, layout, world.into_memory())?;
    Ok(is_put && is_kept && booted.is_down() && are_items(booted.content()?.as_slice(), &[7]))
}

#[test]
fn a_queue_lives_on(rt: HostRuntime) -> Result<(), Fail> {
    assert!(rt; lives_on(rt.alloc())?);
    Ok(())
}
