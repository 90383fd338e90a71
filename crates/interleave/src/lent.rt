//! A world whose memory is lent to each of its acts.

ghost use Rattle.std.specs.Prelude.{◌≡◌, ◌≤◌, ◌<◌, length, is_some, slice_index_or, IfOk, IfErr, OnOk, OnErr, Some, None};
ghost use Rattle.persist.specs.Memory.{Words};
ghost use Rattle.sound_words.specs.Sound.{AreSoundWords};
ghost use Rattle.recover.specs.Table.{boot_recovery};
ghost use Rattle.protocol.specs.Rotated.{empty_trace};
ghost use Rattle.interleave.specs.Booted.{booted_world, HoldsOn, IsBootedOn, MayRefuse};
ghost use Rattle.interleave.specs.Content.{content_by};
ghost use Rattle.interleave.specs.Core.{core_with_room, state_of};
ghost use Rattle.interleave.specs.Queue.{told_in, told_to};
ghost use Rattle.interleave.specs.Holds.{Holds};
ghost use Rattle.interleave.specs.Ranges.{AreUnused, KeptFit};
ghost use Rattle.interleave.specs.State.{world_over};
ghost use Rattle.interleave.specs.Verdicts.{number_of_call};
ghost use Rattle.events.specs.Effects.{order_of};

use crate::calls::Calls;
use crate::content::content;
use crate::queue::Queue;
use crate::trace::Trace;
use arena::Layout;
use events::{History, Order, Sequence, copied};
use persist::KeptWords;
use sound_words::{sound, tells};
use std::alloc::Global;
use std::marker::Model;
use words::{Client, Refusal, Told, Value};

/// A world without its memory: what a queue keeps for its clients, the calls that they have under way, and what
/// happened. Each act is lent the memory, or a window on it, and is the act of a [`World`](crate::World) on those
/// words; the caller lends the same words each time. Each client has a port of its own, and recovery another, through
/// which the words are lent to it: so each completes the flushes that it asked for, and no other ones.
#[derive(Drop)]
pub struct Core {
    pub(crate) layout: Layout,
    pub(crate) queue: Queue,
    pub(crate) calls: Calls,
    pub(crate) trace: Trace,
}

impl Model for Core {
    ghost use Rattle.interleave.specs.Core.{CoreState};

    ghost Value = { CoreState };

    ghost view = { λ c. record { shape = c.layout; queue = c.queue; calls = c.calls; trace = c.trace } };
}

impl Core {
    /// A core of a new queue, for words that are all zero: no client has called. It takes no memory.
    pub fn new(alloc: Global, layout: Layout) -> Self
        ensures world { (ws : Words) → state_of result ws ≡ world_over layout ws }
        ensures holds { (ws : Words) → AreUnused layout ws → Holds (state_of result ws) }
    {
        let queue = Queue::new(layout.kind(), layout.clients());
        let calls = Calls::none(layout.clients());
        let trace = Trace::new(alloc, queue.told());
        Core {
            layout,
            queue,
            calls,
            trace,
        }
    }

    /// A core that begins on kept words, as a crash left them: recovery begins, and the history begins with what they
    /// hold and tell. The caller makes every cached value the kept one, as a crash does. It is refused, in this order,
    /// where the words break a rule (Damaged, with the first such rule), and for want of memory (NoMemory).
    pub fn boot<K: KeptWords>(alloc: Global, layout: Layout, kept: &K) -> Result<Self, Refusal>
        ensures booted { IfOk result (λ c. IsBootedOn layout (K.kept_words kept.now) c) }
        ensures holds { IfOk result (λ c. HoldsOn (K.kept_words kept.now) c) }
        ensures sound { IfOk result (λ c. AreSoundWords layout (K.kept_words kept.now)) }
        ensures errors { IfErr result (λ e. MayRefuse layout (K.kept_words kept.now) e) }
    {
        sound(&layout, kept)?;
        Core::boot_sound(alloc, layout, kept)
    }

    /// A core that begins on kept words, as [`Core::boot`] does, where they are known to obey the rules: it does not look
    /// at each of them. It is refused for want of memory alone (NoMemory).
    pub fn boot_sound<K: KeptWords>(
        alloc: Global,
        layout: Layout,
        kept: &K,
    ) -> Result<Self, Refusal>
        requires { AreSoundWords layout (K.kept_words kept.now) }
        ensures booted { IfOk result (λ c. IsBootedOn layout (K.kept_words kept.now) c) }
        ensures holds { IfOk result (λ c. HoldsOn (K.kept_words kept.now) c) }
        ensures errors { IfErr result (λ e. e ≡ Refusal.NoMemory) }
    {
        let clients = layout.clients();
        let base = content(alloc, &layout, kept)?;
        let told = tells(&layout, kept);
        let queue = Queue::at_boot(layout.kind(), copied(&told));
        let calls = Calls::none(clients);
        let trace = Trace::booted(alloc, base, told);
        Ok(Core {
            layout,
            queue,
            calls,
            trace,
        })
    }

    /// A core that begins on words that are all zero, as [`Core::boot`] does on such words, but without reading them:
    /// so it takes no memory, and is not refused. It is for a queue whose creation was kept when a crash cut it off, so
    /// that recovery is the first to find it: nobody has called yet.
    pub fn boot_unused(alloc: Global, layout: Layout) -> Self
        ensures new { (ws : Words)
            → state_of result ws ≡ record (world_over layout ws) { recovery = Some boot_recovery } }
        ensures booted { (ws : Words) → AreUnused layout ws
            → state_of result ws ≡ booted_world layout ws }
        ensures holds { (ws : Words) → AreUnused layout ws → Holds (state_of result ws) }
    {
        let queue = Queue::new(layout.kind(), layout.clients());
        let calls = Calls::none(layout.clients());
        let trace = Trace::booted(alloc, Vec::new(alloc), queue.told());
        Core {
            layout,
            queue,
            calls,
            trace,
        }
    }

    /// The layout of its words.
    pub fn layout(&self) -> &Layout
        ensures { result.now ≡ self.now.shape }
    {
        &self.layout
    }

    /// Whether recovery is under way.
    pub fn is_down(&self) -> bool
        ensures { result ≡ is_some self.now.trace.recovery }
    {
        self.trace.is_down()
    }

    /// Makes room, so that the next acts, so many of them, are not refused for want of memory.
    // Part of its caller: each act asks for room, and nearly always finds it.
    #[inline(always)]
    pub fn reserve(&mut self, acts: usize) -> Result<(), Refusal>
        requires { length self.old.trace.log.effects ≤ length self.old.trace.log.events }
        ensures same { self.new ≡ core_with_room self.old self.new.trace.room }
        ensures room { OnOk result (acts ≤ self.new.trace.room) }
        ensures kept { self.old.trace.room ≤ self.new.trace.room }
        ensures full { OnErr result (self.old.trace.room < acts) }
        ensures errors { IfErr result (λ e. e ≡ Refusal.NoMemory) }
    {
        match self.trace.reserve(acts) {
            Ok(()) => Ok(()),
            Err(_) => Err(Refusal::NoMemory),
        }
    }

    /// The history, of which nothing happened yet, takes the room that another one grew by, where that is room for so
    /// many acts; else it keeps its own. So what begins in another's place takes the memory that was there: a server's
    /// threads have allocators of their own, and each would come to hold the memory of as many events.
    pub fn take_room(&mut self, other: Core, acts: usize)
        requires fresh { self.old.trace.log ≡ empty_trace }
        requires room { acts ≤ self.old.trace.room }
        ensures same { self.new ≡ core_with_room self.old self.new.trace.room }
        ensures room { acts ≤ self.new.trace.room }
    {
        self.trace.take_room(other.trace, acts);
    }

    /// What the queue holds by the kept words, which are lent: the values of the nodes that kept links reach from the
    /// sentinel, the claimed ones left out.
    pub fn content<K: KeptWords>(&self, kept: &K) -> Result<Vec<Value>, Refusal>
        requires { KeptFit self.now.shape (K.kept_words kept.now) }
        ensures content { IfOk result (λ values. values.items ≡ content_by self.now.shape (K.kept_words kept.now)) }
        ensures errors { IfErr result (λ e. e ≡ Refusal.NoMemory) }
    {
        content(self.trace.allocator(), &self.layout, kept)
    }

    /// The calls in the order in which they took effect.
    pub fn order(&self) -> Result<Order, Refusal>
        ensures order { IfOk result (λ order. order.entries.items ≡ order_of self.now.trace.log.effects) }
        ensures errors { IfErr result (λ e. e ≡ Refusal.NoMemory) }
    {
        let entries = events::order(self.trace.allocator(), self.trace.effects())?;
        Ok(Order {
            entries: Sequence::from_vec(entries),
        })
    }

    /// What happened since the history begins. It takes no memory.
    pub fn history(&self) -> &History
        ensures base { result.now.base.items ≡ self.now.trace.base }
        ensures told { result.now.told ≡ self.now.trace.told }
        ensures events { result.now.events.items ≡ self.now.trace.log.events }
    {
        self.trace.history()
    }

    /// The number of the call that a client has under way, if it has one; of a durable queue's call it is 0.
    pub fn calling(&self, client: Client) -> Option<u64>
        ensures { result ≡ number_of_call (slice_index_or self.now.calls client.0 None) }
    {
        match self.calls.under_way(client.0 as usize) {
            Some(call) => Some(call.begun.number),
            None => None,
        }
    }

    /// What the client was last told: what the last recovery read, and at first what the base tells. A client that
    /// there is not is told nothing.
    pub fn told(&self, client: Client) -> Told
        ensures { result ≡ told_to (told_in self.now.queue) client }
    {
        let told = self.queue.told();
        match told.get(client.0 as usize) {
            Some(told) => *told,
            None => Told::None,
        }
    }
}
