//! What holds after any acts, crashes and evictions among them.
// A law's clause begins with all that it speaks of, so some of them are longer than 120 columns.

ghost use Rattle.std.specs.Prelude.{◌≡◌, List, None, ℕ, replicate};
ghost use Rattle.arena.specs.Content.{chain_of, kept_content};
ghost use Rattle.arena.specs.Shape.{Shape};
ghost use Rattle.arena.specs.declared.place.Place.{Place};
ghost use Rattle.words.specs.declared.call.Client.{Client};
ghost use Rattle.words.specs.declared.limits.TheConstants.{MAX_STEPS_ALONE};
ghost use Rattle.events.specs.Effects.{order_of};
ghost use Rattle.events.specs.Parts.{IsPartOf};
ghost use Rattle.protocol.specs.Acts.{HasNoneTwice, IsAllKept, IsExplained, IsReached, KeepAlike, TellsByKept, run};
ghost use Rattle.protocol.specs.Booted.{MayBoot, world_on};
ghost use Rattle.protocol.specs.Down.{OnceRecovered, RecoveryEnds, TellAlike, WhileDown, WillTell};
ghost use Rattle.protocol.specs.Machine.{World, with_crash};
ghost use Rattle.protocol.specs.Recovered.{IsRecovered};
ghost use Rattle.protocol.specs.declared.acts.Act.{Act};
ghost use Rattle.protocol.specs.declared.acts.Act.TheVariants.{Step};
ghost use Rattle.sound_words.specs.Sound.{IsSound};
ghost use Rattle.sound_words.specs.Told.{tells_by};

/// The history is explained by the effects as they came, which the kept words hold.
pub fn every_history_is_explained()
    ensures { (s : Shape) (w : World) → IsReached s w → IsExplained w }
{}

/// What was once in the order stays in it, in the same sequence.
pub fn nothing_is_taken_back()
    ensures { (s : Shape) (w : World) (later : List (Act Place)) → IsReached s w
        → IsPartOf (order_of w.log.effects) (order_of (run w later).log.effects) }
{}

/// The kept words are sound at every moment, and so after every crash: they keep each of the rules by which `recover`
/// tells sound words from damaged ones, but for the words' count, which places do not have. No crash leaves words that
/// are refused.
pub fn kept_words_are_sound()
    ensures { (s : Shape) (w : World) → IsReached s w → IsSound s w.memory.kept }
{}

/// No node stands twice on the chain of the kept links.
pub fn no_node_stands_twice()
    ensures { (s : Shape) (w : World) → IsReached s w → HasNoneTwice (chain_of s w.memory.kept) }
{}

/// Each client is told of its last call by the kept words alone.
pub fn kept_words_are_told()
    ensures { (s : Shape) (w : World) → IsReached s w → TellsByKept w }
{}

/// After a crash the queue is ready once recovery has made so many steps for each record and each client, and so many
/// more, whatever else happens meanwhile but another crash.
pub fn recovery_ends()
    ensures { (s : Shape) (w : World) → IsReached s w → RecoveryEnds (with_crash w) }
{}

/// In a ready queue a client that goes on alone has ended its call after [`MAX_STEPS_ALONE`] steps.
pub fn a_call_alone_ends()
    ensures { (s : Shape) (w : World) (client : Client) → IsReached s w → w.recovery ≡ None
        → (run w (replicate MAX_STEPS_ALONE (Step client))).calls client.0 ≡ None }
{}

/// While the queue is down nothing changes what the kept words tell, further crashes among it.
pub fn recovery_changes_nothing_told()
    ensures { (s : Shape) (w : World) → IsReached s w
        → WhileDown (with_crash w) (λ v. tells_by s v.memory.kept ≡ tells_by s w.memory.kept) }
{}

/// Nor does it change what the kept words hold.
pub fn recovery_changes_nothing_held()
    ensures { (s : Shape) (w : World) → IsReached s w
        → WhileDown (with_crash w) (λ v. kept_content s v.memory.kept ≡ kept_content s w.memory.kept) }
{}

/// When recovery ends, each client is told what the words that the crash left tell, as a function of these words alone.
pub fn told_by_the_words_of_the_crash()
    ensures { (s : Shape) (w : World) → IsReached s w → WillTell (with_crash w) (tells_by s w.memory.kept) }
{}

/// So two queues of one shape whose crashes leave equal words tell the same.
pub fn equal_words_tell_the_same()
    ensures { (s : Shape) (v w : World)
        → IsReached s v → IsReached s w → KeepAlike v w → TellAlike (with_crash v) (with_crash w) }
{}

/// What the step leaves that ends recovery: the head at the last claimed node and the tail at the last node, each
/// claimed node's result written, and in a log queue each waiting node's entry taken. Nothing is pending: every word is
/// kept as it is cached.
pub fn what_recovery_leaves()
    ensures recovered { (s : Shape) (w : World) → IsReached s w
        → OnceRecovered (with_crash w) (λ v. IsRecovered s v.memory.kept) }
    ensures kept { (s : Shape) (w : World) → IsReached s w → OnceRecovered (with_crash w) IsAllKept }
{}

/// A queue may begin on any sound kept words. What they held and told is then where its history begins, and the effects
/// explain it as they came.
pub fn a_queue_begins_on_sound_words()
    ensures { (s : Shape) (kept : Place → ℕ) (acts : List (Act Place))
        → MayBoot s kept → IsExplained (run (world_on s kept) acts) }
{}

/// What a queue keeps at any moment, another may begin on.
pub fn what_is_kept_may_be_begun_on()
    ensures { (s : Shape) (w : World) → IsReached s w → MayBoot s w.memory.kept }
{}

/// So may what is kept by one that began so, again and again.
pub fn what_it_keeps_may_be_begun_on()
    ensures { (s : Shape) (kept : Place → ℕ) (acts : List (Act Place))
        → MayBoot s kept → MayBoot s (run (world_on s kept) acts).memory.kept }
{}

/// When its recovery ends, it tells each client what these words tell: what it began with.
pub fn it_tells_what_it_began_with()
    ensures { (s : Shape) (kept : Place → ℕ) → MayBoot s kept → WillTell (world_on s kept) (tells_by s kept) }
{}

/// Its recovery leaves what one after a crash leaves.
pub fn what_its_recovery_leaves()
    ensures recovered { (s : Shape) (kept : Place → ℕ) → MayBoot s kept
        → OnceRecovered (world_on s kept) (λ v. IsRecovered s v.memory.kept) }
    ensures kept { (s : Shape) (kept : Place → ℕ) → MayBoot s kept → OnceRecovered (world_on s kept) IsAllKept }
{}

/// Its recovery ends as after a crash.
pub fn its_recovery_ends()
    ensures { (s : Shape) (kept : Place → ℕ) → MayBoot s kept → RecoveryEnds (world_on s kept) }
{}
