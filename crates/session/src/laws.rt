//! What holds over any list of a session's acts.
// A law's clause begins with all that it speaks of, so some of them are longer than 120 columns.

ghost use Rattle.std.specs.Prelude.{◌≡◌, ℕ, Bool, Ok, Option, Result, Some, None};
ghost use Rattle.words.specs.declared.refusal.Refusal.{Refusal};
ghost use Rattle.persist.specs.Memory.{Words};
ghost use Rattle.arena.specs.Shape.{Counts};
ghost use Rattle.named.specs.Booting.{IsBooted};
ghost use Rattle.arena.specs.declared.broker.SlotId.{SlotId};
ghost use Rattle.directory.specs.declared.creation.Creation.{Creation};
ghost use Rattle.named.specs.Brokers.{Brokered, IsNew, IsOpened, IsWell};
ghost use Rattle.named.specs.Evicting.{AreWorldsEvicted};
ghost use Rattle.named.specs.GoingOn.{AreOthersQuiet};
ghost use Rattle.named.specs.Rotating.{IsRotated};
ghost use Rattle.named.specs.Stopping.{IsStopped};
ghost use Rattle.words.specs.declared.call.Reply.{Reply};
ghost use Rattle.words.specs.declared.told.Verdict.{Verdict};
ghost use Rattle.interleave.specs.Holds.{Holds};
ghost use Rattle.interleave.specs.State.{State};
ghost use Rattle.words.specs.declared.call.Kind.{Kind};
ghost use Rattle.session.specs.Acts.{AreWorldsAlike, IsNextRecoveryStep, MayRotate};
ghost use Rattle.session.specs.Keeping.{IsSettled, SessionGoesOn};
ghost use Rattle.session.specs.Numbers.{by_number};
ghost use Rattle.session.specs.Promises.{HaveOneReply, KeepsNumbers};
ghost use Rattle.session.specs.Requests.{AreAdmittedTaken};
ghost use Rattle.session.specs.Sessions.{HasDurableQueue, IsRight, IsUncalled, Sessioned};
ghost use Rattle.session.specs.Telling.{IsSettledTold};

/// Each act's `goes_on` says that a settled number stays settled, and these chain: so it is over any list of acts, with
/// crashes, recoveries, evictions and rotations. A settled number never runs again, and each answer to it, however
/// often it is sent, is the same.
pub fn answers_last()
    ensures none { (s : Sessioned) → SessionGoesOn s s }
    ensures more { (old now new : Sessioned) → SessionGoesOn old now → SessionGoesOn now new → SessionGoesOn old new }
    ensures never_again { (last : Option Verdict) (number : ℕ) (reply : Reply) → IsSettled last number reply
        → by_number last number ≡ Ok None → ⊥ }
    ensures same { (last : Option Verdict) (number : ℕ) (reply again : Reply) → IsSettled last number reply
        → by_number last number ≡ Ok (Some again) → again ≡ reply }
{}

/// A client's number has one reply in a log queue.
pub fn numbers_have_one_reply()
    ensures { (w : State) → Holds w → w.shape.kind ≡ Kind.Log → HaveOneReply w }
{}

/// What is settled the kept words tell: by the verdict that they tell a client of a log queue each of its settled
/// numbers is settled. A broker that begins on these words tells the client just that.
pub fn settled_is_told()
    ensures { (s : Sessioned) → IsRight s → IsSettledTold s }
{}

/// A number that the table of numbers lets run is not stale, unless it is above the greatest number: a start finds its
/// queue ready and the client with no call, and the queue takes the number. Records and memory are not said to be there.
pub fn admitted_numbers_run()
    ensures { (s : Sessioned) → KeepsNumbers s → AreAdmittedTaken s }
{}

/// A broker that begins, that has recovered, or that has ended its histories may be given to a session: nobody has
/// called a log queue of it since. So may it after what calls none: creations, evictions, calls in a durable queue, and
/// what leaves each queue's world as it is, but for the count of accesses.
pub fn uncalled_brokers()
    ensures new { (c : Counts) (b : Brokered) → IsNew c b → IsUncalled b }
    ensures booted { (ws : Words) (b : Brokered) → IsWell b → IsBooted ws b → IsUncalled b }
    ensures stopped { (old new : Brokered) → IsStopped old new → IsUncalled new }
    ensures recovered { (old new : Brokered) (result : Result Bool Refusal) → IsWell old → IsUncalled old
        → IsNextRecoveryStep old new result → IsUncalled new }
    ensures rotated { (old new : Brokered) → IsWell old → MayRotate old → IsRotated old new → IsUncalled new }
    ensures created { (old new : Brokered) (creation : Creation) (slot : SlotId) → IsWell new → IsUncalled old
        → IsOpened old new creation slot → AreOthersQuiet old new slot.0 → IsUncalled new }
    ensures evicted { (old new : Brokered) (word : ℕ) → IsWell old → IsUncalled old
        → AreWorldsEvicted old new word → IsUncalled new }
    ensures durable { (old new : Brokered) (slot : ℕ) → IsWell new → IsUncalled old → HasDurableQueue new slot
        → AreOthersQuiet old new slot → IsUncalled new }
    ensures alike { (old new : Brokered) → IsUncalled old → AreWorldsAlike old new → IsUncalled new }
{}
