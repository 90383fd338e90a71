//! What holds of the words of a directory: at rest, while a queue is created, and while it is recovered.
// A law's clause begins with all that it speaks of, so some of them are longer than 120 columns.

ghost use Rattle.std.specs.Prelude.{◌≡◌, ℕ, ◌+◌, ◌<◌, ◌≤◌, None, replicate};
ghost use Rattle.persist.specs.Memory.{Words, words_after_eviction, words_after_crash, IsSameOutside};
ghost use Rattle.arena.specs.Shape.{Counts};
ghost use Rattle.arena.specs.declared.broker.SlotId.{SlotId};
ghost use Rattle.directory.specs.Name.{IsName};
ghost use Rattle.directory.specs.Queue.{directory_of};
ghost use Rattle.directory.specs.Directory.{Directory, IsDirectory, IsFree, HasName, with_queue};
ghost use Rattle.directory.specs.Sound.{AreBrokerWords, AreFreeBlocksZero, DirectoryIsSound};
ghost use Rattle.directory.specs.Creation.{new_creation, successor, left_at, left_after};
ghost use Rattle.directory.specs.UnderWay.{HasDirectory, HasHead, IsAtRest, IsBlank, IsAsItWasOrWith, HaveSameDirectory, HaveSameBlocks};
ghost use Rattle.directory.specs.UnderWay.{IsCreationBegun, IsCreationUnderWay, CreationGoesOn, after_creation_step};
ghost use Rattle.directory.specs.UnderWay.{StaysInEvictions, StaysWithDirectory};
ghost use Rattle.directory.specs.Recovery.{boot_recovery, recovered};
ghost use Rattle.directory.specs.Recovering.{IsRecovering, RecoveryGoesOn, FindsOpenSlot, after_recovery_step};
ghost use Rattle.directory.specs.Recovering.{most_left, least_left, IsOneLess};
ghost use Rattle.directory.specs.declared.creation.Creation.{Creation};
ghost use Rattle.directory.specs.declared.queue.Queue.{Queue};
ghost use Rattle.directory.specs.declared.recovery.DirectoryRecovery.{DirectoryRecovery};

use crate::limits::{CREATION_STEPS, MAX_DIRECTORY_STEPS, MIN_DIRECTORY_STEPS};
use arena::{BLOCKS_FROM, SLOTS};

/// A directory at rest is what the kept words say, and what the cached ones do. It stays at rest where words are
/// evicted, in a crash, and where its words stay.
#[tactic(auto, using(crate::proofs::Creations::rest_crashed, crate::proofs::Creations::rest_moves))]
pub fn directories_stay()
    ensures kept { (ws : Words) (directory : Directory) → IsAtRest ws directory
        → directory_of ws.kept ≡ directory }
    ensures cached { (ws : Words) (directory : Directory) → IsAtRest ws directory
        → directory_of ws.cached ≡ directory }
    ensures evicted { (directory : Directory) → StaysInEvictions (λ ws. IsAtRest ws directory) }
    ensures crashed { (ws : Words) (directory : Directory) → IsAtRest ws directory
        → IsAtRest (words_after_crash ws) directory }
    ensures elsewhere { (directory : Directory) → StaysWithDirectory (λ ws. IsAtRest ws directory) }
{}

/// A directory is at rest after a crash that leaves sound words, and where all its words are 0: it has no queue then.
#[tactic(auto, using(crate::proofs::Sounds::sound_rest, crate::proofs::Sounds::blank_rest))]
pub fn directories_begin()
    ensures sound { (ws : Words) → AreBrokerWords ws.kept
        → IsAtRest (words_after_crash ws) (directory_of ws.kept) }
    ensures blank { (ws : Words) → HasDirectory ws → IsBlank ws → IsAtRest ws (replicate SLOTS None) }
{}

/// A directory at rest is sound, where it has no name twice and the blocks of its free slots are kept all 0. With a
/// queue of a new name in a free slot it has no name twice either.
pub fn directories_are_sound()
    ensures rest { (counts : Counts) (ws : Words) (directory : Directory) → IsAtRest ws directory
        → IsDirectory directory → AreFreeBlocksZero counts ws.kept directory → DirectoryIsSound counts ws.kept }
    ensures more { (directory : Directory) (slot : ℕ) (queue : Queue) → IsDirectory directory
        → IsFree directory slot → ¬ HasName directory queue.name
        → IsDirectory (with_queue directory slot queue) }
{}

/// What changes nothing but words past the directory leaves the directory as it is.
pub fn directories_stay_before_blocks()
    ensures { (old new : Words) (from len : ℕ) → BLOCKS_FROM ≤ from → HasDirectory new
        → IsSameOutside from len old new → HaveSameDirectory old new }
{}

/// The head stays as it is: where the words of the directory stay, in evictions, in a crash, and in the steps of a
/// creation and of a recovery.
#[tactic(auto, using(crate::proofs::Sounds::head_moves, crate::proofs::Sounds::head_crashed))]
pub fn heads_stay()
    ensures elsewhere { (counts : Counts) → StaysWithDirectory (λ ws. HasHead ws counts) }
    ensures evicted { (ws : Words) (word : ℕ) (counts : Counts) → HasDirectory ws
        → HasHead ws counts → HasHead (words_after_eviction word ws) counts }
    ensures crashed { (ws : Words) (counts : Counts) → HasHead ws counts → HasHead (words_after_crash ws) counts }
    ensures created { (layout counts : Counts) (ws : Words) (creation : Creation) → HasDirectory ws
        → HasHead ws counts → HasHead (after_creation_step layout ws creation) counts }
    ensures recovered { (layout counts : Counts) (ws : Words) (recovery : DirectoryRecovery)
        → HasHead ws counts → HasHead (after_recovery_step layout ws recovery) counts }
{}

/// A step of a creation, or of a recovery, leaves the words of the blocks as they are.
#[tactic(auto, using(crate::proofs::Sounds::creation_blocks))]
pub fn blocks_stay()
    ensures created { (counts : Counts) (ws : Words) (creation : Creation) → creation.slot.0 < SLOTS
        → HaveSameBlocks ws (after_creation_step counts ws creation) }
    ensures recovered { (counts : Counts) (ws : Words) (recovery : DirectoryRecovery)
        → HaveSameBlocks ws (after_recovery_step counts ws recovery) }
{}

/// A creation may begin in a free slot of a directory at rest.
#[tactic(auto, using(crate::proofs::Creations::creation_begins))]
pub fn creations_begin()
    ensures { (ws : Words) (slot : SlotId) (queue : Queue) (directory : Directory)
        → IsAtRest ws directory → IsFree directory slot.0 → IsName queue.name
        → IsCreationBegun ws slot queue directory }
{}

/// A step of a creation goes on with it; the last one leaves a directory at rest, with the queue in the slot.
pub fn creations_go_on()
    ensures { (counts : Counts) (ws : Words) (creation : Creation) (directory : Directory)
        → IsCreationUnderWay ws creation directory
        → CreationGoesOn counts ws creation directory }
{}

/// A creation takes [`CREATION_STEPS`] steps.
#[tactic(auto, using(crate::proofs::Creations::creation_less))]
pub fn creations_end()
    ensures begin { (slot : SlotId) (queue : Queue) → left_at (new_creation slot queue).at ≡ CREATION_STEPS }
    ensures step { (creation : Creation) → left_after (successor creation) + 1 ≡ left_at creation.at }
{}

/// Evictions leave a creation as it is, and so does all that leaves the words of the directory as they are.
#[tactic(auto, using(crate::proofs::Creations::creation_moves))]
pub fn creations_stay()
    ensures evicted { (creation : Creation) (directory : Directory)
        → StaysInEvictions (λ ws. IsCreationUnderWay ws creation directory) }
    ensures elsewhere { (creation : Creation) (directory : Directory)
        → StaysWithDirectory (λ ws. IsCreationUnderWay ws creation directory) }
{}

/// A crash at any moment of a creation leaves the directory as it was before it, or with the whole queue in it.
#[tactic(auto, using(crate::proofs::Creations::creation_crashed))]
pub fn creations_crash()
    ensures { (ws : Words) (creation : Creation) (directory : Directory)
        → IsCreationUnderWay ws creation directory
        → IsAsItWasOrWith (words_after_crash ws) creation directory }
{}

/// A recovery begins on a directory at rest, as a crash leaves it.
#[tactic(auto, using(crate::proofs::Recoveries::recovery_begins))]
pub fn recoveries_begin()
    ensures { (ws : Words) (directory : Directory) → IsAtRest ws directory
        → IsRecovering ws boot_recovery directory }
{}

/// A step of a recovery goes on with it; the last one answers the directory. A slot whose gate it finds open has a
/// queue.
pub fn recoveries_go_on()
    ensures next { (counts : Counts) (ws : Words) (recovery : DirectoryRecovery) (directory : Directory)
        → IsRecovering ws recovery directory → RecoveryGoesOn counts ws recovery directory }
    ensures opened { (counts : Counts) (ws : Words) (recovery : DirectoryRecovery) (directory : Directory)
        → IsRecovering ws recovery directory → FindsOpenSlot counts ws recovery }
{}

/// A recovery takes [`MAX_DIRECTORY_STEPS`] steps at most, and [`MIN_DIRECTORY_STEPS`] at least.
pub fn recoveries_end()
    ensures most { most_left boot_recovery ≡ MAX_DIRECTORY_STEPS }
    ensures least { least_left boot_recovery ≡ MIN_DIRECTORY_STEPS }
    ensures step { (recovery : DirectoryRecovery) (found : ℕ) → IsOneLess recovery (recovered recovery found).after }
{}

/// Evictions leave a recovery as it is, and so does all that leaves the words of the directory as they are.
#[tactic(auto, using(crate::proofs::Recoveries::recovery_moves))]
pub fn recoveries_stay()
    ensures evicted { (recovery : DirectoryRecovery) (directory : Directory)
        → StaysInEvictions (λ ws. IsRecovering ws recovery directory) }
    ensures elsewhere { (recovery : DirectoryRecovery) (directory : Directory)
        → StaysWithDirectory (λ ws. IsRecovering ws recovery directory) }
{}
