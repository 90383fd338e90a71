//! A queue in its block of the memory of a broker.

ghost use Rattle.std.specs.Prelude.{◌≡◌, ◌+◌, ◌-◌, ◌≤◌, ◌<◌, length, IfOk, IfErr, IfSome, OnOk, OnErr, Ok, Err, None, false, true};
ghost use Rattle.events.specs.Effects.{order_of};
ghost use Rattle.persist.specs.Changes.{change_at, change_of};
ghost use Rattle.persist.specs.Noted.{answer_in, change_behind, change_in, IsNoted};
ghost use Rattle.persist.specs.declared.memory.TheConstants.{PORTS};
ghost use Rattle.persist.specs.Memory.{Words, words_in, words_after_crash, words_after_eviction};
ghost use Rattle.sound_words.specs.Sound.{AreSoundWords};
ghost use Rattle.protocol.specs.Rotated.{empty_trace};
ghost use Rattle.interleave.specs.Queue.{told_in, told_to};
ghost use Rattle.interleave.specs.Rotation.{after_rotation, rotate_result, some_client_calls};
ghost use Rattle.interleave.specs.Rules.{recovering, starting, stepping};
ghost use Rattle.interleave.specs.State.{world_over, after_stop, kept_content};
ghost use Rattle.interleave.specs.Verdicts.{number_under_way};
ghost use Rattle.named.specs.Blocks.{state_evicted_in, state_in, world_to_recover, IsActIn, IsAloneIn, IsAskedIn, IsBlockBooted, IsSameWords, IsWellIn, IsWellWhereUnused, IsWithinBlock, LieInOnePlace};

use arena::Layout;
use events::{History, Order};
use interleave::Core;
use persist::{Change, Memory, Noted};
use std::alloc::Global;
use std::marker::Model;
use words::{Call, Client, Kind, QUEUE_PORTS, RECOVERY_PORT, Refusal, Reply, Told, Value};

/// A queue's core, where its words lie, in the block of a slot, and the first of its ports: each client has one, and
/// recovery the one behind them.
#[derive(Drop)]
pub(crate) struct Block {
    core: Core,
    from: usize,
    len: usize,
    port: usize,
}

/// The same change, of the word of this number.
fn renumbered(change: Option<Change>, word: usize) -> Option<Change>
    ensures { result ≡ change_at word change }
{
    change.map(|change| Change { word, ..change })
}

/// The change of what a queue answered is numbered as the whole memory numbers its words: the block begins there. In
/// place, since the answer of each step comes this way.
fn number_from<T>(acted: &mut Result<Noted<T>, Refusal>, block: usize)
    requires { IfSome (change_in acted.old) (λ change. block + change.word ≤ usize.MAX) }
    ensures answer { answer_in acted.new ≡ answer_in acted.old }
    ensures change { change_in acted.new ≡ change_behind block (change_in acted.old) }
{
    if let Ok(
        Noted {
            change: Some(change),
            ..
        },
    ) = acted
    {
        change.word += block;
    }
}

impl Model for Block {
    ghost use Rattle.named.specs.Blocks.{BlockState};

    ghost Value = { BlockState };

    ghost use Rattle.named.specs.BlockView.{block_view};

    ghost view = { block_view };
}

impl Block {
    /// A new queue in a block that is all zero. It takes no memory.
    pub(crate) fn new(alloc: Global, layout: Layout, from: usize, len: usize, port: usize) -> Self
        ensures state { (ws : Words) → state_in ws result ≡ world_over layout (words_in from len ws) }
        ensures well { IsWellWhereUnused layout from len port result }
        ensures from { result.from ≡ from }
        ensures len { result.len ≡ len }
        ensures port { result.port ≡ port }
    {
        Block {
            core: Core::new(alloc, layout),
            from,
            len,
            port,
        }
    }

    /// A queue that begins on the kept words of its block, as a crash left them: recovery is to come. They are known to
    /// obey the rules.
    pub(crate) fn boot(
        alloc: Global,
        layout: Layout,
        memory: &Memory,
        from: usize,
        len: usize,
        port: usize,
    ) -> Result<Self, Refusal>
        requires some { 1 ≤ len }
        requires inside { from + len ≤ length memory.now.words.cached }
        requires kept { from + len ≤ length memory.now.words.kept }
        requires ports { port + QUEUE_PORTS ≤ PORTS }
        requires sound { AreSoundWords layout (words_in from len memory.now.words).kept }
        ensures booted { IfOk result (IsBlockBooted layout from len memory.now.words) }
        ensures well { IfOk result (IsWellIn (words_after_crash memory.now.words)) }
        ensures from { IfOk result (λ b. b.from ≡ from) }
        ensures len { IfOk result (λ b. b.len ≡ len) }
        ensures port { IfOk result (λ b. b.port ≡ port) }
        ensures errors { IfErr result (λ e. e ≡ Refusal.NoMemory) }
    {
        let view = memory.view(from, len)?;
        let core = Core::boot_sound(alloc, layout, &view)?;
        Ok(Block {
            core,
            from,
            len,
            port,
        })
    }

    /// A queue in a block that is all zero, which recovery is the first to find: its recovery is to come. It takes no
    /// memory.
    pub(crate) fn boot_unused(
        alloc: Global,
        layout: Layout,
        from: usize,
        len: usize,
        port: usize,
    ) -> Self
        ensures state { (ws : Words) → state_in ws result ≡ world_to_recover layout (words_in from len ws) }
        ensures well { IsWellWhereUnused layout from len port result }
        ensures from { result.from ≡ from }
        ensures len { result.len ≡ len }
        ensures port { result.port ≡ port }
    {
        Block {
            core: Core::boot_unused(alloc, layout),
            from,
            len,
            port,
        }
    }

    /// One step of the client's call, through a window on the block.
    #[inline(always)]
    pub(crate) fn step(
        &mut self,
        memory: &mut Memory,
        client: Client,
    ) -> Result<Noted<Option<Reply>>, Refusal>
        requires well { IsWellIn memory.old.words self.old }
        requires asked { IsAskedIn memory.old self.old }
        requires client { client.0 < QUEUE_PORTS }
        ensures act { IsActIn (stepping client) memory.old self.old (answer_in result) memory.new self.new }
        ensures stays { answer_in result ≡ Ok None → self.old.core.trace.room ≤ self.new.core.trace.room }
        ensures recovery { self.new.core.trace.recovery ≡ self.old.core.trace.recovery }
        ensures noted { IsNoted (change_in result) memory.old.words.kept memory.new.words.kept }
    {
        let mut window = memory.window(self.from, self.len, self.port + client.0 as usize)?;
        let mut stepped = self.core.step_noted(&mut window, client);
        number_from(&mut stepped, self.from);
        stepped
    }

    /// A client starts a call.
    pub(crate) fn start(
        &mut self,
        memory: &mut Memory,
        client: Client,
        number: u64,
        call: Call,
    ) -> Result<(), Refusal>
        requires well { IsWellIn memory.old.words self.old }
        requires asked { IsAskedIn memory.old self.old }
        ensures act { IsActIn (starting client number call) memory.old self.old result memory.new self.new }
        ensures recovery { self.new.core.trace.recovery ≡ self.old.core.trace.recovery }
        ensures kept { memory.new.words.kept ≡ memory.old.words.kept }
    {
        let mut window = memory.window(self.from, self.len, self.port)?;
        self.core.start(&mut window, client, number, call)
    }

    /// The client's call goes on alone until it answers.
    pub(crate) fn run_alone(
        &mut self,
        memory: &mut Memory,
        client: Client,
    ) -> Result<(Reply, u32), Refusal>
        requires well { IsWellIn memory.old.words self.old }
        requires asked { IsAskedIn memory.old self.old }
        requires client { client.0 < QUEUE_PORTS }
        ensures alone { IsAloneIn client memory.old self.old result memory.new self.new }
        ensures recovery { self.new.core.trace.recovery ≡ self.old.core.trace.recovery }
    {
        let mut window = memory.window(self.from, self.len, self.port + client.0 as usize)?;
        self.core.run_alone(&mut window, client)
    }

    /// Which kind of queue it is.
    pub(crate) fn kind(&self) -> Kind
        ensures { result ≡ self.now.core.shape.kind }
    {
        self.core.layout().kind()
    }

    /// What the client was last told.
    pub(crate) fn told(&self, client: Client) -> Told
        ensures { result ≡ told_to (told_in self.now.core.queue) client }
    {
        self.core.told(client)
    }

    /// The number of the call that a client has under way, if it has one.
    pub(crate) fn calling(&self, client: Client) -> Option<u64>
        ensures { (ws : Words) → result ≡ number_under_way (state_in ws self.now) client }
    {
        self.core.calling(client)
    }

    /// What happened since the history begins.
    pub(crate) fn history(&self) -> &History
        ensures base { result.now.base.items ≡ self.now.core.trace.base }
        ensures told { result.now.told ≡ self.now.core.trace.told }
        ensures events { result.now.events.items ≡ self.now.core.trace.log.events }
    {
        self.core.history()
    }

    /// The calls in the order in which they took effect.
    pub(crate) fn order(&self) -> Result<Order, Refusal>
        ensures order { IfOk result (λ order. order.entries.items ≡ order_of self.now.core.trace.log.effects) }
        ensures errors { IfErr result (λ e. e ≡ Refusal.NoMemory) }
    {
        self.core.order()
    }

    /// What the queue holds by the kept words of its block.
    pub(crate) fn content(&self, memory: &Memory) -> Result<Vec<Value>, Refusal>
        requires { IsWellIn memory.now.words self.now }
        ensures content { IfOk result (λ values. values.items ≡ kept_content (state_in memory.now.words self.now)) }
        ensures errors { IfErr result (λ e. e ≡ Refusal.NoMemory) }
    {
        let view = memory.view(self.from, self.len)?;
        self.core.content(&view)
    }

    /// Makes room, so that the next acts, so many of them, are not refused for want of memory.
    pub(crate) fn reserve(&mut self, acts: usize) -> Result<(), Refusal>
        requires { length self.old.core.trace.log.effects ≤ length self.old.core.trace.log.events }
        ensures world { (ws : Words) → state_in ws self.new ≡ state_in ws self.old }
        ensures room { OnOk result (acts ≤ self.new.core.trace.room) }
        ensures kept { self.old.core.trace.room ≤ self.new.core.trace.room }
        ensures full { OnErr result (self.old.core.trace.room < acts) }
        ensures errors { IfErr result (λ e. e ≡ Refusal.NoMemory) }
        ensures recovery { self.new.core.trace.recovery ≡ self.old.core.trace.recovery }
        ensures place { LieInOnePlace self.old self.new }
    {
        self.core.reserve(acts)
    }

    /// Its history, of which nothing happened yet, takes the room of another queue's, where that is enough.
    pub(crate) fn take_room(&mut self, other: Block, acts: usize)
        requires empty { self.old.core.trace.log ≡ empty_trace }
        requires room { acts ≤ self.old.core.trace.room }
        ensures world { (ws : Words) → state_in ws self.new ≡ state_in ws self.old }
        ensures room { acts ≤ self.new.core.trace.room }
        ensures recovery { self.new.core.trace.recovery ≡ self.old.core.trace.recovery }
        ensures place { LieInOnePlace self.old self.new }
    {
        self.core.take_room(other.core, acts);
    }

    /// The environment keeps a word of the block, by its number in the whole memory.
    pub(crate) fn evict(
        &mut self,
        memory: &mut Memory,
        word: usize,
    ) -> Result<Option<Change>, Refusal>
        requires well { IsWellIn memory.old.words self.old }
        requires asked { IsAskedIn memory.old self.old }
        requires from { self.old.from ≤ word }
        requires len { word < self.old.from + self.old.len }
        ensures state { state_in memory.new.words self.new ≡ state_evicted_in memory.old.words word self.old }
        ensures words { IsSameWords (words_after_eviction word memory.old.words) memory.new.words }
        ensures result { result ≡ Ok (change_of memory.old.words word) }
        ensures within { IsWithinBlock memory.old self.old memory.new self.new }
        ensures room { self.new.core.trace.room ≡ self.old.core.trace.room }
        ensures recovery { self.new.core.trace.recovery ≡ self.old.core.trace.recovery }
    {
        // Block and port are inside the memory, and the word is one of the block's.
        let Ok(mut window) = memory.window(self.from, self.len, self.port) else {
            unreachable!();
        };
        let Ok(change) = self.core.evict(&mut window, word - self.from) else {
            unreachable!();
        };
        Ok(renumbered(change, word))
    }

    /// The whole system stops, where the history has room for one event.
    pub(crate) fn stop(&mut self)
        requires { 0 < self.old.core.trace.room }
        ensures state { (ws : Words) → state_in (words_after_crash ws) self.new ≡ after_stop (state_in ws self.old) }
        ensures well { (ws : Words) → IsWellIn ws self.old → IsWellIn (words_after_crash ws) self.new }
        ensures room { self.old.core.trace.room ≤ self.new.core.trace.room + 1 }
        ensures place { LieInOnePlace self.old self.new }
    {
        self.core.stop();
    }

    /// One step of the queue's recovery, through a window on the block. It answers whether the queue is ready now.
    pub(crate) fn recover_step(&mut self, memory: &mut Memory) -> Result<Noted<bool>, Refusal>
        requires well { IsWellIn memory.old.words self.old }
        requires asked { IsAskedIn memory.old self.old }
        ensures act { IsActIn recovering memory.old self.old (answer_in result) memory.new self.new }
        ensures stays { answer_in result ≡ Ok false → self.old.core.trace.room ≤ self.new.core.trace.room }
        ensures noted { IsNoted (change_in result) memory.old.words.kept memory.new.words.kept }
    {
        let mut window = memory.window(self.from, self.len, self.port + RECOVERY_PORT)?;
        let mut recovered = self.core.recover_step_noted(&mut window);
        number_from(&mut recovered, self.from);
        recovered
    }

    /// Whether a client has a call under way.
    pub(crate) fn has_calls(&self) -> bool
        ensures { result ≡ some_client_calls self.now.core.calls }
    {
        self.core.has_calls()
    }

    /// What another history would begin with, were this one to end now.
    pub(crate) fn prepare_rotation(&self, memory: &Memory) -> Result<Vec<Value>, Refusal>
        requires { IsWellIn memory.now.words self.now }
        ensures base { IfOk result (λ base. base.items ≡ kept_content (state_in memory.now.words self.now)) }
        ensures quiet { (ws : Words) → OnOk result (rotate_result false (state_in ws self.now) ≡ Ok tt) }
        ensures errors { (ws : Words) → IfErr result (λ e. rotate_result true (state_in ws self.now) ≡ Err e) }
    {
        let kept = memory.view(self.from, self.len)?;
        self.core.prepare_rotation(&kept)
    }

    /// The history ends, and another begins with this base.
    pub(crate) fn begin_anew(&mut self, memory: &Memory, base: Vec<Value>)
        requires well { IsWellIn memory.now.words self.old }
        requires quiet { (ws : Words) → rotate_result false (state_in ws self.old) ≡ Ok tt }
        requires base { base.items ≡ kept_content (state_in memory.now.words self.old) }
        ensures state { state_in memory.now.words self.new ≡ after_rotation (state_in memory.now.words self.old) }
        ensures well { IsWellIn memory.now.words self.new }
        ensures room { self.old.core.trace.room ≤ self.new.core.trace.room }
        ensures recovery { self.new.core.trace.recovery ≡ self.old.core.trace.recovery }
        ensures place { LieInOnePlace self.old self.new }
    {
        // Block and view are inside the memory.
        let Ok(view) = memory.view(self.from, self.len) else {
            unreachable!();
        };
        self.core.begin_anew(&view, base);
    }
}
