//! What a queue holds.

ghost use Rattle.std.specs.Prelude.{◌≡◌, IfOk, IfErr, OnOk};
ghost use Rattle.arena.specs.Place.{IsNode};
ghost use Rattle.interleave.specs.Content.{content_by, AddsValue};
ghost use Rattle.interleave.specs.Ranges.{KeptFit};

use crate::notice::{kept_at, kept_value};
use arena::{Layout, Place};
use persist::KeptWords;
use std::alloc::Global;
use words::{NodeId, Refusal, Value};

/// Adds the value of a node, if it is not claimed.
fn add_unclaimed<K: KeptWords>(
    values: &mut Vec<Value>,
    layout: &Layout,
    kept: &K,
    node: NodeId,
) -> Result<(), Refusal>
    requires node { IsNode layout.now node.0 }
    requires fit { KeptFit layout.now (K.kept_words kept.now) }
    ensures added { OnOk result
        (AddsValue layout.now (K.kept_words kept.now) node.0 values.old.items values.new.items) }
    ensures errors { IfErr result (λ e. e ≡ Refusal.NoMemory) }
{
    if kept_at(layout, kept, Place::Mark(node)) != 0 {
        return Ok(());
    }
    let value = kept_value(layout, kept, node);
    if values.push(value).is_err() {
        return Err(Refusal::NoMemory);
    }
    Ok(())
}

/// The values of the nodes that kept links reach from the sentinel, the claimed ones left out.
pub(crate) fn content<K: KeptWords>(
    alloc: Global,
    layout: &Layout,
    kept: &K,
) -> Result<Vec<Value>, Refusal>
    requires { KeptFit layout.now (K.kept_words kept.now) }
    ensures content { IfOk result (λ values. values.items ≡ content_by layout.now (K.kept_words kept.now)) }
    ensures errors { IfErr result (λ e. e ≡ Refusal.NoMemory) }
{
    let mut values = Vec::new(alloc);
    let mut node = NodeId(0);
    let links = layout.clients() * layout.records();
    for _ in 0..links {
        let next = NodeId(kept_at(layout, kept, Place::Next(node)) as u32);
        if next.0 == 0 {
            return Ok(values);
        }
        add_unclaimed(&mut values, layout, kept, next)?;
        node = next;
    }
    Ok(values)
}
