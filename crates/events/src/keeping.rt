//! The effects that count.

ghost use Rattle.std.specs.Prelude.{◌≡◌, vec_capacity, IfOk, IfErr};
ghost use Rattle.events.specs.Effects.{order_of, settled_effects};

use crate::event::{Effect, Entry};
use std::alloc::Global;
use words::Refusal;

/// Leaves out what is not settled, as a crash does.
pub fn keep_settled(effects: &mut Vec<Effect>)
    ensures items { effects.new.items ≡ settled_effects effects.old.items }
    ensures capacity { vec_capacity effects.new ≡ vec_capacity effects.old }
{
    effects.retain(|effect| effect.settled);
}

/// The order: the entries of the settled effects, as they came.
pub fn order(alloc: Global, effects: &[Effect]) -> Result<Vec<Entry>, Refusal>
    ensures order { IfOk result (λ entries. entries.items ≡ order_of effects.now) }
    ensures errors { IfErr result (λ e. e ≡ Refusal.NoMemory) }
{
    let mut entries = Vec::new(alloc);
    for effect in effects {
        if effect.settled {
            let entry = Entry {
                place: effect.place,
                reply: effect.reply,
            };
            if entries.push(entry).is_err() {
                return Err(Refusal::NoMemory);
            }
        }
    }
    Ok(entries)
}
