//! What holds of words in fresh records.
// A law's clause begins with all that it speaks of, so some of them are longer than 120 columns.

ghost use Rattle.std.specs.Prelude.{◌≡◌, ℕ, List};
ghost use Rattle.arena.specs.Content.{kept_content};
ghost use Rattle.arena.specs.Place.{IsClient};
ghost use Rattle.arena.specs.Shape.{Shape};
ghost use Rattle.sound_words.specs.Sound.{IsSound};
ghost use Rattle.sound_words.specs.Told.{told_by};
ghost use Rattle.renewal.specs.Renewal.{Renewal, told_in};
ghost use Rattle.renewal.specs.Renewed.{renewed};
ghost use Rattle.renewal.specs.Words.{IsRenewalOf, MayBeRenewed, MayBecome, told_anew, words_renewed};

/// Words in fresh records obey every rule, hold the items that they are to hold, in this order, and tell each client
/// what it is to be told.
pub fn renewed_words_hold_and_tell()
    ensures sound { (r : Renewal) → MayBeRenewed r → IsSound r.shape (renewed r) }
    ensures content { (r : Renewal) → MayBeRenewed r → kept_content r.shape (renewed r) ≡ r.content }
    ensures told { (r : Renewal) (t : ℕ) → MayBeRenewed r → IsClient r.shape t
        → told_by r.shape (renewed r) t ≡ told_anew r.shape.kind (told_in r t) }
{}

/// A block of words in fresh records has the queue of the words that it was made of: it obeys every rule, holds the
/// same items in the same order, and tells each client the same.
pub fn renewed_block_has_the_queue()
    ensures { (s : Shape) (old : List ℕ) (to : Shape) → MayBecome s old to
        → IsRenewalOf s old to (words_renewed to s old) }
{}
