//! The world of one queue.

ghost use Rattle.std.specs.Prelude.{◌≡◌, ◌≤◌, ◌<◌, ◌+◌, length, true, false, Ok, IfOk, IfErr, OnOk, OnErr};
ghost use Rattle.protocol.specs.declared.acts.Act.{Act};
ghost use Rattle.sound_words.specs.Sound.{AreSoundWords};
ghost use Rattle.interleave.specs.Booted.{booted_world, MayRefuse};
ghost use Rattle.interleave.specs.Calls.{is_no_memory};
ghost use Rattle.interleave.specs.Holds.{Holds, IsExplained};
ghost use Rattle.interleave.specs.Queue.{told_in, told_to};
ghost use Rattle.interleave.specs.Ranges.{AreUnused};
ghost use Rattle.interleave.specs.Reuse.{EarlierLeftNothing};
ghost use Rattle.interleave.specs.Rotation.{after_rotate, rotate_result, IsHandedOn};
ghost use Rattle.interleave.specs.Rules.{crashing, evicting, recovering, starting, stepping, GoesOnExplained, IsByAlone, IsByRule};
ghost use Rattle.interleave.specs.Runs.{IsAttempt, IsRun};
ghost use Rattle.interleave.specs.State.{new_world, world_over, count_of, is_down, kept_content, kept_tells, most_to_ready, order_in, steps_to_ready, IsKeptSound};
ghost use Rattle.interleave.specs.Telling.{IsToldAtReady};
ghost use Rattle.interleave.specs.Turn.{IsInTurn, IsServedInTurn, NobodyCalls};

use crate::acts::{Act, Ran};
use crate::lent::Core;
use arena::Layout;
use events::{History, Order};
use persist::{Change, Memory};
use std::alloc::Global;
use std::marker::Model;
use words::{Call, Client, MAX_STEPS_ALONE, Refusal, Reply, Told, Value};

/// One queue over its memory, the calls that its clients have under way, and what happened. A call is started, and
/// then goes on by single steps, each of them one access to the memory, in any interleaving with the others; at any
/// moment the environment may keep a word, or the whole system may stop, and then recover by single steps. Each client
/// acts through the memory's port of its number, and recovery through [`RECOVERY_PORT`](words::RECOVERY_PORT).
#[derive(Drop)]
pub struct World {
    core: Core,
    memory: Memory,
}

impl Model for World {
    ghost use Rattle.interleave.specs.Asked.{HoldsOver};
    ghost use Rattle.interleave.specs.Core.{state_of};
    ghost use Rattle.interleave.specs.Trace.{Roomy};

    ghost Value = { Roomy };

    ghost view = { λ w. record { now = state_of w.core w.memory.words; room = w.core.trace.room } };

    ghost invariant = { λ w. HoldsOver w.core w.memory };
}

impl World {
    /// A world on zero memory, in which no client has called: an empty queue.
    pub fn make(alloc: Global, layout: Layout) -> Result<Self, Refusal>
        ensures made { IfOk result (λ w. w.now ≡ new_world layout) }
        ensures errors { IfErr result (λ e. e ≡ Refusal.NoMemory) }
    {
        let memory = Memory::new(alloc, layout.size())?;
        Ok(World::over(alloc, layout, memory))
    }

    /// A world of a new queue on a given memory, in which no client has called. It takes no memory. The caller's
    /// condition is that all words are zero, cached and kept, and as many as the layout has, or a broker's block.
    pub fn over(alloc: Global, layout: Layout, memory: Memory) -> Self
        requires { AreUnused layout memory.words }
        ensures { result.now ≡ world_over layout memory.words }
    {
        World {
            core: Core::new(alloc, layout),
            memory,
        }
    }

    /// A world that begins on what a memory keeps, as a crash left it: what is not kept is lost, and recovery begins.
    /// Its history begins with what the kept words hold and tell. It is refused, in this order, where the words break a
    /// rule (Damaged, with the first such rule), and for want of memory (NoMemory).
    pub fn boot(alloc: Global, layout: Layout, memory: Memory) -> Result<Self, Refusal>
        ensures booted { IfOk result (λ w. w.now ≡ booted_world layout memory.words) }
        ensures sound { IfOk result (λ w. AreSoundWords layout memory.words.kept) }
        ensures errors { IfErr result (λ e. MayRefuse layout memory.words.kept e) }
    {
        let core = Core::boot(alloc, layout, &memory)?;
        let mut memory = memory;
        memory.crash();
        Ok(World { core, memory })
    }

    /// Starts a call. It is refused as [`Core::start`] is.
    pub fn start(&mut self, client: Client, number: u64, call: Call) -> Result<(), Refusal>
        ensures by_rule { IsByRule (starting client number call) self.old result self.new }
        ensures goes_on { GoesOnExplained self.old.now self.new.now }
        ensures order { order_in self.new.now ≡ order_in self.old.now }
        ensures reused { result ≡ Ok tt → EarlierLeftNothing self.old.now client }
        ensures turn { result ≡ Ok tt → NobodyCalls self.old.now → IsInTurn self.new.now client call }
    {
        self.core.start_in(&mut self.memory, client, number, call)
    }

    /// One step of a client's call: exactly one access. It answers the reply where that was the last. It is refused as
    /// [`Core::step`] is.
    pub fn step(&mut self, client: Client) -> Result<Option<Reply>, Refusal>
        ensures by_rule { IsByRule (stepping client) self.old result self.new }
        ensures goes_on { GoesOnExplained self.old.now self.new.now }
        ensures stays { result ≡ Ok None → self.old.room ≤ self.new.room }
    {
        self.core.step_in(&mut self.memory, client)
    }

    /// The environment keeps a word. It is no access, takes no memory, and may make a call take effect. It is refused as
    /// [`Core::evict`] is.
    pub fn evict(&mut self, word: usize) -> Result<Option<Change>, Refusal>
        ensures by_rule { IsByRule (evicting word) self.old result self.new }
        ensures goes_on { GoesOnExplained self.old.now self.new.now }
        ensures room { self.new.room ≡ self.old.room }
        ensures tells { is_down self.old.now ≡ true → kept_tells self.new.now ≡ kept_tells self.old.now }
        ensures holds { is_down self.old.now ≡ true → kept_content self.new.now ≡ kept_content self.old.now }
        ensures left { steps_to_ready self.new.now ≡ steps_to_ready self.old.now }
    {
        self.core.evict_in(&mut self.memory, word)
    }

    /// The whole system stops: what is not kept is lost, calls under way end without an answer, and recovery begins
    /// anew, also where it was under way. It is refused as [`Core::crash`] is, and then nothing changed.
    pub fn crash(&mut self) -> Result<(), Refusal>
        ensures by_rule { IsByRule crashing self.old result self.new }
        ensures goes_on { GoesOnExplained self.old.now self.new.now }
        ensures order { order_in self.new.now ≡ order_in self.old.now }
        ensures tells { kept_tells self.new.now ≡ kept_tells self.old.now }
        ensures holds { kept_content self.new.now ≡ kept_content self.old.now }
    {
        self.core.crash()?;
        self.memory.crash();
        Ok(())
    }

    /// One step of recovery: exactly one access. It answers whether the queue is ready now, and then each client is
    /// told what became of its last call. It is refused as [`Core::recover_step`] is.
    pub fn recover_step(&mut self) -> Result<bool, Refusal>
        ensures by_rule { IsByRule recovering self.old result self.new }
        ensures goes_on { GoesOnExplained self.old.now self.new.now }
        ensures stays { result ≡ Ok false → self.old.room ≤ self.new.room }
        ensures order { order_in self.new.now ≡ order_in self.old.now }
        ensures tells { kept_tells self.new.now ≡ kept_tells self.old.now }
        ensures holds { kept_content self.new.now ≡ kept_content self.old.now }
        ensures told { result ≡ Ok true → IsToldAtReady self.new.now }
        ensures few { steps_to_ready self.old.now ≤ most_to_ready self.old.now.shape }
        ensures falls { IfOk result (λ ready. steps_to_ready self.new.now < steps_to_ready self.old.now) }
    {
        self.core.recover_step_in(&mut self.memory)
    }

    /// The history ends, and another begins: its base is what the kept words hold and tell, so that a log queue's
    /// clients are told of their last announced calls by the base, and it has no events yet. Words and floors of
    /// numbers stay. It is refused as [`Core::rotate`] is, and then nothing changed.
    pub fn rotate(&mut self) -> Result<(), Refusal>
        ensures world { self.new.now ≡ after_rotate (is_no_memory result) self.old.now }
        ensures result { result ≡ rotate_result (is_no_memory result) self.old.now }
        ensures room { self.old.room ≤ self.new.room }
        ensures explained { IsExplained self.new.now }
        ensures sound { IsKeptSound self.new.now }
        ensures tells { kept_tells self.new.now ≡ kept_tells self.old.now }
        ensures holds { kept_content self.new.now ≡ kept_content self.old.now }
        ensures handed_on { result ≡ Ok tt → IsHandedOn self.old.now self.new.now }
    {
        self.core.rotate(&self.memory)
    }

    /// The layout of its memory.
    pub fn layout(&self) -> &Layout
        ensures { result.now ≡ self.now.now.shape }
    {
        self.core.layout()
    }

    /// Its memory, to look at what is kept.
    pub fn memory(&self) -> &Memory
        ensures { result.now.words ≡ self.now.now.words }
    {
        &self.memory
    }

    /// Ends the world, and hands back its memory.
    pub fn into_memory(self) -> Memory
        ensures { result.words ≡ self.now.words }
    {
        self.memory
    }

    /// Whether recovery is under way.
    pub fn is_down(&self) -> bool
        ensures { result ≡ is_down self.now.now }
    {
        self.core.is_down()
    }

    /// The acts in order. One that its own call refuses is passed over, and counted. It asks for no room: an act for
    /// which there is no memory is one of the refused.
    pub fn run(&mut self, acts: &[Act]) -> Ran
        ensures run { IsRun self.old acts.now result.taken self.new }
        ensures all { result.taken + result.refused ≡ length acts.now }
        ensures explained { IsExplained self.new.now }
        ensures sound { IsKeptSound self.new.now }
    {
        let mut ran = Ran {
            taken: 0,
            refused: 0,
        };
        // The borrow makes what holds of the world at its beginning known from here on.
        let _ = &self.core;
        for act in acts {
            let taken = u64::from(self.act(*act));
            ran.taken += taken;
            ran.refused += 1 - taken;
        }
        ran
    }

    /// One act. It answers whether it was accepted.
    fn act(&mut self, act: Act) -> bool
        ensures attempt { IsAttempt self.old.room self.old.now act result self.new.now }
        ensures room { self.old.room ≤ self.new.room + count_of result }
        ensures holds { Holds self.new.now }
    {
        // The borrow makes what holds of the world before the act known from here on.
        let _ = &self.core;
        match act {
            Act::Start {
                client,
                number,
                call,
            } => self.start(client, number, call).is_ok(),
            Act::Step { client } => self.step(client).is_ok(),
            Act::Evict { at } => self.evict(at).is_ok(),
            Act::Crash => self.crash().is_ok(),
            Act::Recover => self.recover_step().is_ok(),
        }
    }

    /// A client's call goes on alone until it answers: its reply, and how many steps that took, at most
    /// [`MAX_STEPS_ALONE`] from wherever it waits. It is refused as [`Core::run_alone`] is.
    pub fn run_alone(&mut self, client: Client) -> Result<(Reply, u32), Refusal>
        ensures alone { IsByAlone client self.old result self.new }
        ensures goes_on { GoesOnExplained self.old.now self.new.now }
        ensures turn { IfOk result (λ answer. IsServedInTurn client self.old.now answer.0 self.new.now) }
    {
        self.core.run_alone_in(&mut self.memory, client)
    }

    /// Makes room, so that the next acts, so many of them, are not refused for want of memory.
    pub fn reserve(&mut self, acts: usize) -> Result<(), Refusal>
        ensures same { self.new.now ≡ self.old.now }
        ensures room { OnOk result (acts ≤ self.new.room) }
        ensures kept { self.old.room ≤ self.new.room }
        ensures full { OnErr result (self.old.room < acts) }
        ensures errors { IfErr result (λ e. e ≡ Refusal.NoMemory) }
    {
        self.core.reserve(acts)
    }

    /// What the queue holds by its kept words: the values of the nodes that kept links reach from the sentinel,
    /// the claimed ones left out.
    pub fn content(&self) -> Result<Vec<Value>, Refusal>
        ensures content { IfOk result (λ values. values.items ≡ kept_content self.now.now) }
        ensures errors { IfErr result (λ e. e ≡ Refusal.NoMemory) }
    {
        self.core.content(&self.memory)
    }

    /// The calls in the order in which they took effect.
    pub fn order(&self) -> Result<Order, Refusal>
        ensures order { IfOk result (λ order. order.entries.items ≡ order_in self.now.now) }
        ensures explained { IsExplained self.now.now }
        ensures errors { IfErr result (λ e. e ≡ Refusal.NoMemory) }
    {
        self.core.order()
    }

    /// What happened since the history begins. It takes no memory. Laws on states ask for `Holds`, as every world has
    /// it.
    pub fn history(&self) -> &History
        ensures base { result.now.base.items ≡ self.now.now.base }
        ensures told { result.now.told ≡ self.now.now.told }
        ensures events { result.now.events.items ≡ self.now.now.log.events }
        ensures holds { Holds self.now.now }
        ensures explained { IsExplained self.now.now }
    {
        self.core.history()
    }

    /// What the client was last told: what the last recovery read, and at first what the base tells. A client that
    /// there is not is told nothing.
    pub fn told(&self, client: Client) -> Told
        ensures { result ≡ told_to (told_in self.now.now.queue) client }
    {
        self.core.told(client)
    }
}
