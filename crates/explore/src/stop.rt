//! What is found where a world stops, while the world itself goes on.

ghost use Rattle.std.specs.Prelude.{◌≡◌, ◌≤◌, OnOk, IfOk, IfErr, IsTrue, length};
ghost use Rattle.arena.specs.Layout.{size_of};
ghost use Rattle.interleave.specs.Content.{content_by};
ghost use Rattle.interleave.specs.Holds.{Holds};
ghost use Rattle.interleave.specs.Ranges.{KeptFit};
ghost use Rattle.interleave.specs.State.{kept_content, order_in};
ghost use Rattle.explore.specs.Points.{events_once_ready, found_of, found_stopped, recovered};

use crate::copy::{Recovered, copy_kept, recover};
use crate::point::Point;
use arena::Layout;
use events::{Event, Events, History, Order, Sequence, copied};
use history::check_content;
use interleave::{Core, World};
use persist::Memory;
use std::alloc::Global;
use words::{MAX_CLIENTS, Refusal, Reports, Told, Value};

/// Makes these events the others, with room for so many more.
fn copy_events(events: &mut Events, others: &Events, more: usize) -> Result<(), Refusal>
    ensures events { OnOk result (events.new.items ≡ others.now.items) }
    ensures room { OnOk result (more ≤ events.new.room) }
    ensures errors { IfErr result (λ e. e ≡ Refusal.NoMemory) }
{
    events.clear();
    let Some(room) = others.len().checked_add(more) else {
        return Err(Refusal::NoMemory);
    };
    events.reserve(room).map_err(|_| Refusal::NoMemory)?;
    for place in 0..others.len() {
        events.push(others.at(place));
    }
    Ok(())
}

/// Makes the history that of the world if it stops now, and its clients are told this once it is ready.
fn tell_stop(
    history: &mut History,
    alloc: Global,
    world: &World,
    told: &Reports,
) -> Result<(), Refusal>
    ensures base { OnOk result (history.new.base.items ≡ world.now.now.base) }
    ensures told { OnOk result (history.new.told ≡ world.now.now.told) }
    ensures events { OnOk result (history.new.events.items ≡ events_once_ready world.now.now told.now) }
    ensures errors { IfErr result (λ e. e ≡ Refusal.NoMemory) }
{
    let before = world.history();
    let base = Vec::from_slice(alloc, before.base.as_slice()).map_err(|_| Refusal::NoMemory)?;
    history.base = Sequence::from_vec(base);
    history.told = copied(&before.told);
    copy_events(&mut history.events, &before.events, 2)?;
    history.events.push(Event::Crash);
    history.events.push(Event::Ready { told: copied(told) });
    Ok(())
}

/// A history of nothing.
fn no_history(alloc: Global) -> History {
    History {
        base: Sequence::new(alloc),
        told: [Told::None; MAX_CLIENTS],
        events: Events::new(alloc),
    }
}

/// How much had happened at a point, and the order by then.
#[derive(Drop)]
struct Seen {
    events: usize,
    order: Order,
}

/// What is seen of a world in which nothing happened.
fn nothing_seen(alloc: Global) -> Seen {
    Seen {
        events: 0,
        order: Order {
            entries: Sequence::new(alloc),
        },
    }
}

/// What looks at a world that stops, point after point.
#[derive(Drop)]
pub(crate) struct Probe {
    /// A copy of what the world keeps, which recovers in its place.
    copy: Memory,
    /// What happened to the world, and to the copy since.
    history: History,
    seen: Seen,
}

impl Probe {
    /// One for worlds of this layout.
    pub(crate) fn new(alloc: Global, layout: Layout) -> Result<Self, Refusal>
        ensures size { IfOk result (λ probe. length probe.copy.words.kept ≡ size_of layout) }
        ensures errors { IfErr result (λ e. e ≡ Refusal.NoMemory) }
    {
        let copy = Memory::new(alloc, layout.size())?;
        Ok(Probe {
            copy,
            history: no_history(alloc),
            seen: nothing_seen(alloc),
        })
    }
}

/// Whether a point before this one was found to be right that differs in nothing that the checker reads. A history only
/// grows, so one of as many events is the same.
fn was_right(
    seen: &Seen,
    before: Option<&Point>,
    events: usize,
    order: &Order,
    told: &Reports,
    content: &[Value],
) -> bool {
    let Some(before) = before else {
        return false;
    };
    before.ok
        && seen.events == events
        && before.told == *told
        && before.content.as_slice() == content
        && seen.order.entries.as_slice() == order.entries.as_slice()
}

/// Whether the order explains all that happened once a world that stops now is ready again and told this, and its
/// replay leaves this content.
fn is_right(
    alloc: Global,
    world: &World,
    history: &mut History,
    order: &Order,
    told: &Reports,
    content: &[Value],
) -> Result<bool, Refusal>
    requires holds { Holds world.now.now }
    requires told { (recovered world.now.now).log.events ≡ events_once_ready world.now.now told.now }
    requires order { order.now.entries.items ≡ order_in world.now.now }
    requires content { content.now ≡ kept_content (recovered world.now.now) }
    ensures right { IfOk result (λ right. IsTrue right) }
    ensures errors { IfErr result (λ e. e ≡ Refusal.NoMemory) }
{
    tell_stop(history, alloc, world, told)?;
    check_content(alloc, history, order, content)
}

/// What a queue of this layout holds by what the copy keeps.
fn content_kept(alloc: Global, layout: Layout, copy: &Memory) -> Result<Vec<Value>, Refusal>
    requires { KeptFit layout copy.now.words.kept }
    ensures content { IfOk result (λ content. content.items ≡ content_by layout copy.now.words.kept) }
    ensures errors { IfErr result (λ e. e ≡ Refusal.NoMemory) }
{
    Core::new(alloc, layout).content(copy)
}

/// What is found once a world that stops now has recovered. It does so on a copy of what it keeps, and the world goes
/// on. The checker is asked, unless nothing that it reads has changed since the point before.
pub(crate) fn stop(
    alloc: Global,
    world: &World,
    probe: &mut Probe,
    before: Option<&Point>,
) -> Result<Point, Refusal>
    requires holds { Holds world.now.now }
    requires size { length probe.old.copy.words.kept ≡ length world.now.now.words.kept }
    ensures found { IfOk result (λ point. found_of point ≡ found_stopped world.now.now) }
    ensures size { length probe.new.copy.words.kept ≡ length probe.old.copy.words.kept }
    ensures errors { IfErr result (λ e. e ≡ Refusal.NoMemory) }
{
    copy_kept(&mut probe.copy, world.memory());
    let Recovered { steps, told } = recover(&mut probe.copy, world);
    let content = content_kept(alloc, *world.layout(), &probe.copy)?;
    let events = world.history().events.len();
    let order = world.order()?;
    let ok = if was_right(&probe.seen, before, events, &order, &told, &content) {
        true
    } else {
        is_right(alloc, world, &mut probe.history, &order, &told, &content)?
    };
    probe.seen = Seen { events, order };
    Ok(Point {
        steps: u64::from(steps),
        told,
        content,
        ok,
    })
}
