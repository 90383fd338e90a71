//! What each act of a script does: its access, the answer that it gives, and the words that differ after it.

ghost use Rattle.std.specs.Prelude.{◌≡◌, IfErr};

use crate::stage::{Made, Stage};
use arena::Layout;
use explore::accepted_acts;
use grammar::Command;
use interleave::Act;
use persist::KeptWords;
use std::alloc::Global;
use words::Refusal;

/// A word whose cached value is not the kept one.
#[derive(Clone, Copy)]
pub(crate) struct Differs {
    pub(crate) word: u64,
    pub(crate) cached: u64,
    pub(crate) kept: u64,
}

/// An act, what it came to, and the words that differ after it, ascending.
#[derive(Drop)]
pub(crate) struct Frame {
    pub(crate) act: Act,
    pub(crate) made: Made,
    pub(crate) differs: Vec<Differs>,
}

/// The words of a world that differ.
fn differing(alloc: Global, stage: &Stage) -> Result<Vec<Differs>, Refusal>
    ensures errors { IfErr result (λ e. e ≡ Refusal.NoMemory) }
{
    let memory = stage.memory();
    let mut differs = Vec::new(alloc);
    for change in memory.changes() {
        let word = change.0 as usize;
        // Every change is of a word that there is: the clause of `changes` says so by its definition alone.
        let kept = if word < memory.size() {
            memory.kept(word)
        } else {
            0
        };
        let differs_here = Differs {
            word: change.0,
            cached: change.1,
            kept,
        };
        differs.push(differs_here).map_err(|_| Refusal::NoMemory)?;
    }
    Ok(differs)
}

/// Makes an act, and adds its frame.
fn add_frame(
    alloc: Global,
    stage: &mut Stage,
    act: &Act,
    frames: &mut Vec<Frame>,
) -> Result<(), Refusal>
    ensures errors { IfErr result (λ e. e ≡ Refusal.NoMemory) }
{
    let made = stage.attempt(*act)?;
    let differs = differing(alloc, stage)?;
    let frame = Frame {
        act: *act,
        made,
        differs,
    };
    frames.push(frame).map_err(|_| Refusal::NoMemory)
}

/// The frames of acts on a world.
fn frames_in(alloc: Global, stage: &mut Stage, acts: &[Act]) -> Result<Vec<Frame>, Refusal>
    ensures errors { IfErr result (λ e. e ≡ Refusal.NoMemory) }
{
    let mut frames = Vec::new(alloc);
    for act in acts {
        add_frame(alloc, stage, act, &mut frames)?;
    }
    Ok(frames)
}

/// The frames of a script's acts, on a new world of this layout.
pub(crate) fn frames(
    alloc: Global,
    layout: Layout,
    commands: &[Command],
) -> Result<Vec<Frame>, Refusal>
    ensures errors { IfErr result (λ e. e ≡ Refusal.NoMemory) }
{
    let acts = accepted_acts(alloc, layout, commands)?;
    let mut stage = Stage::make(alloc, layout)?;
    frames_in(alloc, &mut stage, &acts)
}
