//! A world whose steps tell which access they made.

ghost use Rattle.std.specs.Prelude.{◌≡◌, IfErr, IfOk, OnOk};
ghost use Rattle.interleave.specs.Asked.{HoldsOver};
ghost use Rattle.interleave.specs.Calls.{is_no_memory};
ghost use Rattle.interleave.specs.State.{after_act, after_attempt, new_world};
ghost use Rattle.protocol.specs.declared.acts.Act.TheVariants.{Crash, Evict, Recover, Start, Step};
ghost use Rattle.script_reports.specs.Stage.{IsLeftBy};

use crate::watched::{Access, Watched};
use arena::Layout;
use interleave::{Act, Core};
use persist::Memory;
use std::alloc::Global;
use std::marker::Model;
use words::{Call, Client, RECOVERY_PORT, Refusal, Reply};

/// A world as [`World`](interleave::World) is one, but its memory is watched while a step is made.
#[derive(Drop)]
pub(crate) struct Stage {
    core: Core,
    memory: Memory,
}

impl Model for Stage {
    ghost use Rattle.interleave.specs.Asked.{HoldsOver};
    ghost use Rattle.interleave.specs.Core.{state_of};
    ghost use Rattle.interleave.specs.State.{State};

    ghost Value = { State };

    ghost view = { λ s. state_of s.core s.memory.words };

    ghost invariant = { λ s. HoldsOver s.core s.memory };
}

/// What an act came to: the access of a step, and the reply with which a call returned by it.
#[derive(Clone, Copy)]
pub(crate) struct Made {
    pub(crate) access: Option<Access>,
    pub(crate) reply: Option<Reply>,
}

/// An act that is no step, or was refused.
const NO_STEP: Made = Made {
    access: None,
    reply: None,
};

/// A client's call begins.
fn start(
    core: &mut Core,
    memory: &mut Memory,
    client: Client,
    number: u64,
    call: Call,
) -> Result<Made, Refusal>
    requires { HoldsOver core.old memory.old }
    ensures left { IsLeftBy (Start client number call) (is_no_memory result) core.old memory.old core.new memory.new }
    ensures holds { HoldsOver core.new memory.new }
{
    core.start(memory, client, number, call)?;
    Ok(NO_STEP)
}

/// A step of a client's call, through the client's port.
fn step(core: &mut Core, memory: &mut Memory, client: Client) -> Result<Made, Refusal>
    requires { HoldsOver core.old memory.old }
    ensures left { IsLeftBy (Step client) (is_no_memory result) core.old memory.old core.new memory.new }
    ensures holds { HoldsOver core.new memory.new }
{
    let mut watched = Watched {
        port: memory.port(client.0 as usize)?,
        last: None,
    };
    let reply = core.step(&mut watched, client)?;
    Ok(Made {
        access: watched.last,
        reply,
    })
}

/// The environment keeps a word.
fn evict(core: &mut Core, memory: &mut Memory, word: usize) -> Result<Made, Refusal>
    requires { HoldsOver core.old memory.old }
    ensures left { IsLeftBy (Evict word) (is_no_memory result) core.old memory.old core.new memory.new }
    ensures holds { HoldsOver core.new memory.new }
{
    core.evict(memory, word)?;
    Ok(NO_STEP)
}

/// Everything stops.
fn crash(core: &mut Core, memory: &mut Memory) -> Result<Made, Refusal>
    requires { HoldsOver core.old memory.old }
    ensures left { IsLeftBy Crash (is_no_memory result) core.old memory.old core.new memory.new }
    ensures holds { HoldsOver core.new memory.new }
{
    core.crash()?;
    memory.crash();
    Ok(NO_STEP)
}

/// A step of recovery, through recovery's port.
fn recover_step(core: &mut Core, memory: &mut Memory) -> Result<Made, Refusal>
    requires { HoldsOver core.old memory.old }
    ensures left { IsLeftBy Recover (is_no_memory result) core.old memory.old core.new memory.new }
    ensures holds { HoldsOver core.new memory.new }
{
    let mut watched = Watched {
        port: memory.port(RECOVERY_PORT)?,
        last: None,
    };
    core.recover_step(&mut watched)?;
    Ok(Made {
        access: watched.last,
        reply: None,
    })
}

impl Stage {
    /// A new world.
    pub(crate) fn make(alloc: Global, layout: Layout) -> Result<Self, Refusal>
        ensures made { IfOk result (λ s. s ≡ new_world layout) }
        ensures errors { IfErr result (λ e. e ≡ Refusal.NoMemory) }
    {
        let memory = Memory::new(alloc, layout.size())?;
        Ok(Stage {
            core: Core::new(alloc, layout),
            memory,
        })
    }

    /// Makes an act, and answers what it came to.
    fn act(&mut self, act: Act) -> Result<Made, Refusal>
        ensures { self.new ≡ after_attempt (is_no_memory result) self.old act }
    {
        let core = &mut self.core;
        let memory = &mut self.memory;
        match act {
            Act::Start {
                client,
                number,
                call,
            } => start(core, memory, client, number, call),
            Act::Step { client } => step(core, memory, client),
            Act::Evict { at } => evict(core, memory, at),
            Act::Crash => crash(core, memory),
            Act::Recover => recover_step(core, memory),
        }
    }

    /// Makes an act, and answers what it came to; one that is refused comes to nothing.
    pub(crate) fn attempt(&mut self, act: Act) -> Result<Made, Refusal>
        ensures world { OnOk result (self.new ≡ after_act self.old act) }
        ensures errors { IfErr result (λ e. e ≡ Refusal.NoMemory) }
    {
        match self.act(act) {
            Ok(made) => Ok(made),
            Err(Refusal::NoMemory) => Err(Refusal::NoMemory),
            Err(_) => Ok(NO_STEP),
        }
    }

    /// Its memory, to look at what is kept.
    pub(crate) fn memory(&self) -> &Memory
        ensures { result.now.words ≡ self.now.words }
    {
        &self.memory
    }
}
