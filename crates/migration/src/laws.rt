//! What holds of migrated words.
// A law's clause begins with all that it speaks of, so some of them are longer than 120 columns.

ghost use Rattle.std.specs.Prelude.{◌≡◌, ℕ, ◌<◌, List};
ghost use Rattle.arena.specs.Broker.{block_in};
ghost use Rattle.arena.specs.Content.{content_in, kept_content};
ghost use Rattle.arena.specs.Shape.{Shape};
ghost use Rattle.arena.specs.declared.broker.TheConstants.{SLOTS};
ghost use Rattle.arena.specs.declared.form.Form.TheVariants.{OfItems, OfValues};
ghost use Rattle.arena.specs.declared.place.Place.{Place};
ghost use Rattle.directory.specs.Queue.{directory_of};
ghost use Rattle.directory.specs.Sound.{AreBrokerWords, AreBrokerWordsIn, HeadIsSoundIn, counts_in};
ghost use Rattle.directory.specs.declared.queue.Queue.{Queue};
ghost use Rattle.sound_words.specs.Sound.{AreSoundWordsIn, IsSound, IsSoundIn};
ghost use Rattle.sound_words.specs.Told.{tells_by, tells_in};
ghost use Rattle.migration.specs.Migrated.{migrated};
ghost use Rattle.migration.specs.Words.{
  HasSoundQueue,
  HaveQueueOf,
  StillHasQueue,
  broker_migrated,
  slot_block_migrated,
  words_migrated,
};

/// Migrated words obey every rule where the old ones do. What they hold, and what they tell each client, is what the
/// old ones held and told, whether these obey the rules or not.
pub fn migrated_words_tell_the_same()
    ensures sound { (s : Shape) (k : Place → ℕ) → IsSoundIn OfValues s k → IsSound s (migrated s k) }
    ensures content { (s : Shape) (k : Place → ℕ) → kept_content s (migrated s k) ≡ content_in OfValues s k }
    ensures told { (s : Shape) (k : Place → ℕ) → tells_by s (migrated s k) ≡ tells_in OfValues s k }
{}

/// A migrated block of words has the queue that the old words have: it obeys every rule, holds what they hold, and
/// tells each client what they tell.
pub fn migrated_block_has_the_queue()
    ensures same { (s : Shape) (old : List ℕ) → AreSoundWordsIn OfValues s old
        → HaveQueueOf s old (words_migrated s old) }
{}

/// A migrated broker has as many clients and records, and the same names and kinds in its slots. The block of each
/// slot is what that slot's block becomes by itself.
pub fn migrated_broker_has_the_slots()
    ensures sound { (ws : List ℕ) → AreBrokerWordsIn OfValues ws → AreBrokerWords (broker_migrated ws) }
    ensures counts { (ws : List ℕ) → HeadIsSoundIn OfValues ws → counts_in (broker_migrated ws) ≡ counts_in ws }
    ensures slots { (ws : List ℕ) → HeadIsSoundIn OfValues ws → directory_of (broker_migrated ws) ≡ directory_of ws }
    ensures blocks { (ws : List ℕ) (slot : ℕ) → HeadIsSoundIn OfValues ws → slot < SLOTS
        → block_in OfItems (counts_in ws) slot (broker_migrated ws)
        ≡ slot_block_migrated (counts_in ws) ws slot }
{}

/// Each queue of a broker whose words were sound is there in the migrated broker, with all that it holds and tells.
pub fn migrated_broker_has_the_queues()
    ensures same { (ws : List ℕ) (slot : ℕ) (queue : Queue) → HeadIsSoundIn OfValues ws → HasSoundQueue ws slot queue
        → StillHasQueue ws slot queue }
{}
