//! What kept words hold.

ghost use Rattle.std.specs.Prelude.{◌≡◌, ◌≤◌, IfOk, length};
ghost use Rattle.arena.specs.Content.{kept_content};
ghost use Rattle.arena.specs.Limits.{AreCounts};
ghost use Rattle.arena.specs.Place.{IsNode};
ghost use Rattle.arena.specs.Words.{values};
ghost use Rattle.arena.specs.declared.form.Form.TheVariants.{OfItems};
ghost use Rattle.sound_words.specs.Kept.{kept_of};
ghost use Rattle.sound_words.specs.Sound.{IsSound};

use arena::{Layout, Part, Place, value_of};
use persist::KeptWords;
use sound_words::KeptQueue;
use std::alloc::{AllocError, Global};
use words::{MAX_RECORD_NUMBER, NodeId, Value};

/// The message of a node.
fn message<W: KeptWords>(queue: &KeptQueue<'_, W>, node: NodeId) -> Value
    requires items { queue.now.form ≡ OfItems }
    requires node { IsNode queue.now.shape node.0 }
    ensures { result ≡ values (kept_of queue.now) node.0 }
{
    value_of([
        queue.kept_at(Place::Item(node, Part::Length)),
        queue.kept_at(Place::Item(node, Part::First)),
        queue.kept_at(Place::Item(node, Part::Second)),
        queue.kept_at(Place::Item(node, Part::Third)),
    ])
}

/// How many items there are.
pub(crate) fn count<W: KeptWords>(layout: &Layout, queue: &KeptQueue<'_, W>) -> usize
    requires shape { queue.now.shape ≡ layout.now }
    requires items { queue.now.form ≡ OfItems }
    requires sound { IsSound queue.now.shape (kept_of queue.now) }
    ensures value { result ≡ length (kept_content queue.now.shape (kept_of queue.now)) }
    ensures few { result ≤ MAX_RECORD_NUMBER }
    ensures counts { AreCounts layout.now.clients layout.now.records }
{
    let mut count = 0usize;
    let mut node = NodeId(0);
    let links = layout.clients() * layout.records();
    for _ in 0..links {
        let next = NodeId(queue.kept_at(Place::Next(node)) as u32);
        if next.0 == 0 {
            return count;
        }
        if queue.kept_at(Place::Mark(next)) == 0 {
            count += 1;
        }
        node = next;
    }
    count
}

/// The items, in their order.
pub(crate) fn content<W: KeptWords>(
    alloc: Global,
    layout: &Layout,
    queue: &KeptQueue<'_, W>,
) -> Result<Vec<Value>, AllocError>
    requires shape { queue.now.shape ≡ layout.now }
    requires items { queue.now.form ≡ OfItems }
    requires sound { IsSound queue.now.shape (kept_of queue.now) }
    ensures { IfOk result (λ items. items.items ≡ kept_content queue.now.shape (kept_of queue.now)) }
{
    let mut items = Vec::new(alloc);
    let mut node = NodeId(0);
    let links = layout.clients() * layout.records();
    for _ in 0..links {
        let next = NodeId(queue.kept_at(Place::Next(node)) as u32);
        if next.0 == 0 {
            return Ok(items);
        }
        if queue.kept_at(Place::Mark(next)) == 0 {
            items.push(message(queue, next))?;
        }
        node = next;
    }
    Ok(items)
}
