//! What holds over any list of a broker's acts: laws on its states, of which each clause asks what an act's contract
//! says.
// A law's clause begins with all that it speaks of, so some of them are longer than 120 columns.

ghost use Rattle.std.specs.Prelude.{◌≡◌, ℕ, Bool, Some, false, true};
ghost use Rattle.directory.specs.Directory.{HasQueue};
ghost use Rattle.directory.specs.declared.queue.Queue.{Queue};
ghost use Rattle.interleave.specs.State.{State};
ghost use Rattle.named.specs.Brokers.{Brokered, world_at};
ghost use Rattle.named.specs.GoingOn.{BrokerGoesOn, CameOf, IsDowntime};
ghost use Rattle.named.specs.KeptQueues.{IsKeptQueue};
ghost use Rattle.named.specs.Promises.{KeepsPromises};
ghost use Rattle.named.specs.Rotating.{IsRotated};

/// Each act but a rotation says that the broker goes on: each queue stays in its slot with its name and kind, begins
/// with what it began with, nothing is taken back from its order, and calls that had ended stay as they are. So it is
/// over any list of such acts.
pub fn brokers_go_on()
    ensures none { (b : Brokered) → BrokerGoesOn b b }
    ensures more { (old now new : Brokered) → BrokerGoesOn old now → BrokerGoesOn now new → BrokerGoesOn old new }
{}

/// With rotations among the acts the queues stay, too. A rotation ends their histories; each one's next begins on what
/// it left.
pub fn brokers_outlast_rotations()
    ensures none { (b : Brokered) → CameOf b false b }
    ensures more { (first now new : Brokered) (rotated : Bool) → CameOf first rotated now → BrokerGoesOn now new
        → CameOf first rotated new }
    ensures rotation { (first now new : Brokered) (rotated : Bool) → CameOf first rotated now → KeepsPromises now
        → IsRotated now new → CameOf first true new }
    ensures unrotated { (first now : Brokered) → CameOf first false now → BrokerGoesOn first now }
    ensures queues { (first now : Brokered) (rotated : Bool) → CameOf first rotated now → (slot : ℕ) (queue : Queue)
        → HasQueue first.directory slot queue → HasQueue now.directory slot queue }
{}

/// From a crash until the broker is ready again all queues go on, and at most one comes to the directory: the one whose
/// creation the first crash dropped. Each crash, step of recovery and eviction says so, and it is so over any of them.
pub fn downtimes_go_on()
    ensures { (old now new : Brokered) → IsDowntime old now → now.creation ≡ old.creation → IsDowntime now new
        → IsDowntime old new }
{}

/// At every moment each open queue stands in the kept words: their directory has it in its slot, and its block is what
/// the queue keeps. So a broker that begins on the kept words of a moment has each queue that was open then.
pub fn open_queues_are_kept()
    ensures { (b : Brokered) → KeepsPromises b → (slot : ℕ) (w : State) → world_at b slot ≡ Some w
        → IsKeptQueue b.words.kept slot w }
{}
