//! Acts attempted on a world, one after another.

ghost use Rattle.std.specs.Prelude.{◌≡◌, ◌≢◌, ◌≤◌, OnOk, IfOk, IfErr, false, is_ok, replicate};
ghost use Rattle.interleave.specs.Calls.{is_no_memory};
ghost use Rattle.interleave.specs.State.{after_act, after_acts, is_accepted, taken_of, most_to_ready};
ghost use Rattle.explore.specs.Acts.{IsSteady};

use arena::Layout;
use interleave::{Act, World};
use words::{Refusal, STEPS_BESIDES, STEPS_PER_CLIENT, STEPS_PER_RECORD};

/// Whether an act was accepted; want of memory is no answer.
fn accepted<T: Drop>(answer: &Result<T, Refusal>) -> Result<bool, Refusal>
    ensures memory { OnOk result (is_no_memory answer.now ≡ false) }
    ensures accepted { IfOk result (λ taken. taken ≡ is_ok answer.now) }
    ensures errors { IfErr result (λ e. e ≡ Refusal.NoMemory) }
{
    match answer {
        Ok(_) => Ok(true),
        Err(Refusal::NoMemory) => Err(Refusal::NoMemory),
        Err(_) => Ok(false),
    }
}

/// Passes over why something was refused; want of memory stays a refusal.
pub(crate) fn pass_over(refusal: Refusal) -> Result<(), Refusal>
    ensures another { OnOk result (refusal ≢ Refusal.NoMemory) }
    ensures errors { IfErr result (λ e. e ≡ Refusal.NoMemory) }
{
    match refusal {
        Refusal::NoMemory => Err(refusal),
        _ => Ok(()),
    }
}

/// Attempts an act, and answers whether it was accepted.
pub fn attempt(world: &mut World, act: Act) -> Result<bool, Refusal>
    ensures world { OnOk result (world.new.now ≡ after_act world.old.now act) }
    ensures accepted { IfOk result (λ taken. taken ≡ is_accepted world.old.now act) }
    ensures errors { IfErr result (λ e. e ≡ Refusal.NoMemory) }
{
    match act {
        Act::Start {
            client,
            number,
            call,
        } => accepted(&world.start(client, number, call)),
        Act::Step { client } => accepted(&world.step(client)),
        Act::Evict { at } => accepted(&world.evict(at)),
        Act::Crash => accepted(&world.crash()),
        Act::Recover => accepted(&world.recover_step()),
    }
}

/// Attempts acts, in order. One that is refused is passed over.
pub(crate) fn attempt_all(world: &mut World, acts: &[Act]) -> Result<(), Refusal>
    ensures world { OnOk result (world.new.now ≡ after_acts world.old.now acts.now) }
    ensures errors { IfErr result (λ e. e ≡ Refusal.NoMemory) }
{
    for act in acts {
        attempt(world, *act)?;
    }
    Ok(())
}

/// Attempts an act again and again, at most so many times and until it is refused, and answers how often it was
/// accepted. It has to be one that changes nothing where it is refused.
pub(crate) fn repeat(world: &mut World, act: &Act, most: u32) -> Result<u32, Refusal>
    requires { IsSteady act.now }
    ensures world { OnOk result (world.new.now ≡ after_acts world.old.now (replicate most act.now)) }
    ensures accepted { IfOk result (λ taken. taken ≡ taken_of world.old.now (replicate most act.now)) }
    ensures few { IfOk result (λ taken. taken ≤ most) }
    ensures errors { IfErr result (λ e. e ≡ Refusal.NoMemory) }
{
    for taken in 0..most {
        if !attempt(world, *act)? {
            return Ok(taken);
        }
    }
    Ok(most)
}

/// No recovery has more steps than these.
pub(crate) fn most_to_ready(layout: &Layout) -> u32
    ensures { result ≡ most_to_ready layout.now }
{
    STEPS_PER_RECORD * (layout.clients() * layout.records())
        + STEPS_PER_CLIENT * layout.clients()
        + STEPS_BESIDES
}
