//! A slot of a broker: closed, or open with a queue.

ghost use Rattle.std.specs.Prelude.{◌≡◌, ◌<◌, ◌≤◌, ◌+◌, ◌*◌, true, false, is_none, length, IfOk, IfErr, OnOk, OnErr, IsSome, Ok, Err, Some, None};
ghost use Rattle.arena.specs.Broker.{broker_size};
ghost use Rattle.arena.specs.Shape.{shape_of};
ghost use Rattle.persist.specs.Changes.{change_of};
ghost use Rattle.persist.specs.Noted.{answer_in, change_in, IsNoted};
ghost use Rattle.persist.specs.declared.memory.TheConstants.{PORTS};
ghost use Rattle.persist.specs.Memory.{Words, words_after_crash, words_after_eviction};
ghost use Rattle.sound_words.specs.Sound.{AreSoundWords};
ghost use Rattle.interleave.specs.Rules.{recovering, starting, stepping};
ghost use Rattle.interleave.specs.State.{after_stop};
ghost use Rattle.named.specs.Blocks.{IsSameWords};
ghost use Rattle.named.specs.Booting.{IsQueueBooted};
ghost use Rattle.named.specs.Brokers.{IsSlotWhereUnused, block_words, block_world};
ghost use Rattle.named.specs.Each.{HasMoreRoom, HasOtherRoom};
ghost use Rattle.named.specs.Rotating.{has_calls_in, IsBaseIn, IsBegunAnew, IsQuietIn};
ghost use Rattle.named.specs.Stopping.{recovering_world};
ghost use Rattle.named.specs.declared.slot.Slot.TheVariants.{Closed, Open};
ghost use Rattle.named.specs.Slots.{acted, kind_in, room_in, world_evicted_in, world_in, AreEffectsFew, AskAlikeBesideSlot, HasEmptyHistory, HasRoomFor, IsAsReady, IsEvictedOutside, IsReadyIn, IsActInSlot, IsAloneInSlot, IsSameOutsideSlot, IsSameSlot, IsSlotAsked, IsSlotWell, IsWhyUnread, IsWithinSlot, IsWordOf};

use crate::block::Block;
use arena::{BrokerLayout, SLOTS, SlotId};
use persist::{Change, EvictableWords, Memory, Noted};
use std::alloc::Global;
use words::{Call, Client, Kind, QUEUE_PORTS, Refusal, Reply, Value};

/// A slot: nobody has created a queue in it, or it has one.
#[derive(Drop)]
pub(crate) enum Slot {
    Closed,
    Open(Block),
}

/// The first of the ports of a slot's queue: each slot has a port for each client that there may be, and one for
/// recovery.
fn first_port(slot: SlotId) -> usize
    requires { slot.0 < SLOTS }
    ensures first { result ≡ QUEUE_PORTS * slot.0 }
    ensures ports { result + QUEUE_PORTS ≤ PORTS }
{
    QUEUE_PORTS * slot.0 as usize
}

impl Slot {
    /// Starts a call in its queue.
    pub(crate) fn start(
        &mut self,
        memory: &mut Memory,
        client: Client,
        number: u64,
        call: Call,
    ) -> Result<(), Refusal>
        requires well { IsSlotWell memory.old.words self.old }
        requires asked { IsSlotAsked memory.old self.old }
        ensures act { IsActInSlot (starting client number call) memory.old.words self.old result
            memory.new.words self.new }
        ensures within { IsWithinSlot memory.old self.old memory.new self.new }
        ensures kept { memory.new.words.kept ≡ memory.old.words.kept }
    {
        match self {
            Slot::Closed => Err(Refusal::NoQueue),
            Slot::Open(block) => block.start(memory, client, number, call),
        }
    }

    /// One step of a call in its queue.
    #[inline(always)]
    pub(crate) fn step(
        &mut self,
        memory: &mut Memory,
        client: Client,
    ) -> Result<Noted<Option<Reply>>, Refusal>
        requires well { IsSlotWell memory.old.words self.old }
        requires asked { IsSlotAsked memory.old self.old }
        requires client { client.0 < QUEUE_PORTS }
        ensures act { IsActInSlot (stepping client) memory.old.words self.old (answer_in result)
            memory.new.words self.new }
        ensures stays { answer_in result ≡ Ok None → room_in self.old ≤ room_in self.new }
        ensures within { IsWithinSlot memory.old self.old memory.new self.new }
        ensures noted { IsNoted (change_in result) memory.old.words.kept memory.new.words.kept }
    {
        match self {
            Slot::Closed => Err(Refusal::NoQueue),
            Slot::Open(block) => block.step(memory, client),
        }
    }

    /// A call in its queue goes on alone until it answers.
    pub(crate) fn run_alone(
        &mut self,
        memory: &mut Memory,
        client: Client,
    ) -> Result<(Reply, u32), Refusal>
        requires well { IsSlotWell memory.old.words self.old }
        requires asked { IsSlotAsked memory.old self.old }
        requires client { client.0 < QUEUE_PORTS }
        ensures alone { IsAloneInSlot client memory.old.words self.old result memory.new.words self.new }
        ensures within { IsWithinSlot memory.old self.old memory.new self.new }
    {
        match self {
            Slot::Closed => Err(Refusal::NoQueue),
            Slot::Open(block) => block.run_alone(memory, client),
        }
    }

    /// Its queue. It is refused where nobody has created one (NoQueue).
    pub(crate) fn queue(&self) -> Result<&Block, Refusal>
        ensures open { IfOk result (λ block. self.now ≡ Open block.now) }
        ensures errors { IfErr result (λ e. (e ≡ Refusal.NoQueue) × (self.now ≡ Closed)) }
    {
        match self {
            Slot::Closed => Err(Refusal::NoQueue),
            Slot::Open(block) => Ok(block),
        }
    }

    /// Makes room in its history, so that the next acts, so many of them, are not refused for want of memory.
    pub(crate) fn reserve(&mut self, acts: usize) -> Result<(), Refusal>
        requires { AreEffectsFew self.old }
        ensures world { (ws : Words) → world_in ws self.new ≡ world_in ws self.old }
        ensures room { OnOk result (acts ≤ room_in self.new) }
        ensures kept { room_in self.old ≤ room_in self.new }
        ensures full { result ≡ Err Refusal.NoMemory → room_in self.old < acts }
        ensures open { (ws : Words) → OnOk result (IsSome (world_in ws self.old)) }
        ensures errors { (ws : Words) → IfErr result (IsWhyUnread (world_in ws self.old)) }
        ensures same { IsSameSlot self.old self.new }
        ensures as_ready { IsAsReady self.old self.new }
    {
        match self {
            Slot::Closed => Err(Refusal::NoQueue),
            Slot::Open(block) => block.reserve(acts),
        }
    }

    /// A new queue of this kind, in the slot's block, which is all zero. It takes no memory.
    pub(crate) fn open(alloc: Global, layout: &BrokerLayout, slot: SlotId, kind: Kind) -> Self
        requires { slot.0 < SLOTS }
        ensures kind { kind_in result ≡ Some kind }
        ensures ready { IsReadyIn true result }
        ensures world { (ws : Words) → world_in ws result ≡ Some (block_world layout.now kind slot.0 ws) }
        ensures at { IsSlotWhereUnused layout.now slot.0 result }
    {
        let from = layout.block(slot);
        let len = layout.block_size();
        let port = first_port(slot);
        Slot::Open(Block::new(alloc, layout.queue(kind), from, len, port))
    }

    /// A queue of this kind in the slot's block, which is all zero: recovery is the first to find it. It takes no
    /// memory.
    pub(crate) fn open_found(alloc: Global, layout: &BrokerLayout, slot: SlotId, kind: Kind) -> Self
        requires { slot.0 < SLOTS }
        ensures kind { kind_in result ≡ Some kind }
        ensures down { IsReadyIn false result }
        ensures world { (ws : Words) → world_in ws result ≡ Some (recovering_world layout.now kind slot.0 ws) }
        ensures at { IsSlotWhereUnused layout.now slot.0 result }
    {
        let from = layout.block(slot);
        let len = layout.block_size();
        let port = first_port(slot);
        Slot::Open(Block::boot_unused(alloc, layout.queue(kind), from, len, port))
    }

    /// A queue of this kind that begins on the kept words of the slot's block, as a crash left them. They are known to
    /// obey the rules.
    pub(crate) fn boot(
        alloc: Global,
        layout: &BrokerLayout,
        slot: SlotId,
        kind: Kind,
        memory: &Memory,
    ) -> Result<Self, Refusal>
        requires slot { slot.0 < SLOTS }
        requires room { broker_size layout.now ≤ length memory.now.words.cached }
        requires kept { broker_size layout.now ≤ length memory.now.words.kept }
        requires sound { AreSoundWords (shape_of kind layout.now)
            (block_words layout.now slot.0 memory.now.words).kept }
        ensures booted { IfOk result (IsQueueBooted layout.now memory.now.words slot.0 kind) }
        ensures errors { IfErr result (λ e. e ≡ Refusal.NoMemory) }
    {
        let from = layout.block(slot);
        let len = layout.block_size();
        let port = first_port(slot);
        let block = Block::boot(alloc, layout.queue(kind), memory, from, len, port)?;
        Ok(Slot::Open(block))
    }

    /// The environment keeps a word of the slot's block, by its number in the whole memory.
    pub(crate) fn evict(
        &mut self,
        memory: &mut Memory,
        word: usize,
    ) -> Result<Option<Change>, Refusal>
        requires well { IsSlotWell memory.old.words self.old }
        requires asked { IsSlotAsked memory.old self.old }
        requires block { IsWordOf self.old word }
        requires word { word < length memory.old.words.cached }
        ensures world { world_in memory.new.words self.new ≡ world_evicted_in self.old word memory.old.words }
        ensures words { IsSameWords (words_after_eviction word memory.old.words) memory.new.words }
        ensures outside { IsEvictedOutside self.old word memory.old.words memory.new.words }
        ensures result { result ≡ Ok (change_of memory.old.words word) }
        ensures well { IsSlotWell memory.new.words self.new }
        ensures asked { IsSlotAsked memory.new self.new }
        ensures beside { AskAlikeBesideSlot self.old memory.old memory.new }
        ensures room { room_in self.new ≡ room_in self.old }
        ensures same { IsSameSlot self.old self.new }
        ensures as_ready { IsAsReady self.old self.new }
    {
        match self {
            Slot::Closed => memory.evict(word),
            Slot::Open(block) => block.evict(memory, word),
        }
    }

    /// The whole system stops, where the history of the slot's queue has room for one event.
    pub(crate) fn stop(&mut self)
        requires { HasRoomFor 1 self.old }
        ensures world { (ws : Words) → world_in (words_after_crash ws) self.new
            ≡ acted after_stop (world_in ws self.old) }
        ensures well { (ws : Words) → IsSlotWell ws self.old → IsSlotWell (words_after_crash ws) self.new }
        ensures room { room_in self.old ≤ room_in self.new + 1 }
        ensures same { IsSameSlot self.old self.new }
    {
        match self {
            Slot::Closed => {}
            Slot::Open(block) => block.stop(),
        }
    }

    /// One step of recovery of the slot's queue. It answers whether that is ready now.
    pub(crate) fn recover_step(&mut self, memory: &mut Memory) -> Result<Noted<bool>, Refusal>
        requires well { IsSlotWell memory.old.words self.old }
        requires asked { IsSlotAsked memory.old self.old }
        ensures act { IsActInSlot recovering memory.old.words self.old (answer_in result)
            memory.new.words self.new }
        ensures stays { answer_in result ≡ Ok false → room_in self.old ≤ room_in self.new }
        ensures well { IsSlotWell memory.new.words self.new }
        ensures asked { IsSlotAsked memory.new self.new }
        ensures beside { AskAlikeBesideSlot self.old memory.old memory.new }
        ensures outside { IsSameOutsideSlot self.old memory.old.words memory.new.words }
        ensures same { IsSameSlot self.old self.new }
        ensures noted { IsNoted (change_in result) memory.old.words.kept memory.new.words.kept }
    {
        match self {
            Slot::Closed => Err(Refusal::NoQueue),
            Slot::Open(block) => block.recover_step(memory),
        }
    }

    /// Whether a client of its queue has a call under way.
    pub(crate) fn has_calls(&self) -> bool
        ensures { result ≡ has_calls_in self.now }
    {
        match self {
            Slot::Closed => false,
            Slot::Open(block) => block.has_calls(),
        }
    }

    /// Whether nobody has created a queue in it.
    pub(crate) fn is_closed(&self) -> bool
        ensures { result ≡ is_none (kind_in self.now) }
    {
        match self {
            Slot::Closed => true,
            Slot::Open(_) => false,
        }
    }

    /// Makes room for so many acts in the history of its queue, if it has one.
    pub(crate) fn make_room(&mut self, acts: usize) -> Result<(), Refusal>
        requires { AreEffectsFew self.old }
        ensures same { HasMoreRoom self.old self.new }
        ensures room { OnOk result (HasRoomFor acts self.new) }
        ensures open { OnErr result (IsSome (kind_in self.old)) }
        ensures full { OnErr result (room_in self.old < acts) }
        ensures errors { IfErr result (λ e. e ≡ Refusal.NoMemory) }
    {
        match self {
            Slot::Closed => Ok(()),
            Slot::Open(block) => block.reserve(acts),
        }
    }

    /// The history of its queue, if it has one, of which nothing happened yet, takes the room of that of another slot's
    /// queue, where there is one and its room is enough.
    pub(crate) fn take_room(&mut self, other: Option<Slot>, acts: usize)
        requires empty { HasEmptyHistory self.old }
        requires room { HasRoomFor acts self.old }
        ensures same { HasOtherRoom self.old self.new }
        ensures room { HasRoomFor acts self.new }
    {
        let Some(Slot::Open(other)) = other else {
            return;
        };
        match self {
            Slot::Closed => {}
            Slot::Open(block) => block.take_room(other, acts),
        }
    }

    /// What the next history of its queue would begin with; of a closed slot, nothing.
    pub(crate) fn prepare_rotation(
        &self,
        alloc: Global,
        memory: &Memory,
    ) -> Result<Vec<Value>, Refusal>
        requires well { IsSlotWell memory.now.words self.now }
        requires quiet { IsQuietIn self.now }
        ensures base { IfOk result (λ base. IsBaseIn memory.now.words self.now base.items) }
        ensures errors { IfErr result (λ e. e ≡ Refusal.NoMemory) }
    {
        match self {
            Slot::Closed => Ok(Vec::new(alloc)),
            Slot::Open(block) => block.prepare_rotation(memory),
        }
    }

    /// The history of its queue ends, and another begins with this base.
    pub(crate) fn begin_anew(&mut self, memory: &Memory, base: Vec<Value>)
        requires well { IsSlotWell memory.now.words self.old }
        requires quiet { IsQuietIn self.old }
        requires base { IsBaseIn memory.now.words self.old base.items }
        ensures { IsBegunAnew memory.now.words self.old self.new }
    {
        match self {
            Slot::Closed => {}
            Slot::Open(block) => block.begin_anew(memory, base),
        }
    }
}
