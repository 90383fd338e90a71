//! What holds of every act on a world.
// A law's clause begins with all that it speaks of, so some of them are longer than 120 columns.

ghost use Rattle.std.specs.Prelude.{ℕ, Bool, List, length, slice_get, Ok, Some, ◌≡◌, ◌≢◌, ◌≤◌, ◌+◌, ◌++◌};
ghost use Rattle.words.specs.declared.call.Client.{Client};
ghost use Rattle.words.specs.declared.call.Reply.{Reply};
ghost use Rattle.words.specs.declared.limits.TheConstants.{MAX_STEPS_ALONE};
ghost use Rattle.words.specs.declared.told.Told.{Told};
ghost use Rattle.arena.specs.Shape.{Shape};
ghost use Rattle.helping.specs.Table.{IsPoint, successor};
ghost use Rattle.helping.specs.declared.op.Op.{Op};
ghost use Rattle.recover.specs.declared.recovery.Recovery.{Recovery};
ghost use Rattle.protocol.specs.declared.UnderWay.{UnderWay};
ghost use Rattle.interleave.specs.Points.{FindsInRange};
ghost use Rattle.interleave.specs.Premises.{IsMoreInRange, MayGoOn};
ghost use Rattle.interleave.specs.Recoveries.{MayRecover};
ghost use Rattle.interleave.specs.Holds.{Holds};
ghost use Rattle.interleave.specs.Rotation.{AreNumbersTold, IsBaseToldRightly, IsQuiet, ShareNoNumber};
ghost use Rattle.interleave.specs.Rules.{waiting_in, IsAnsweredWithin};
ghost use Rattle.interleave.specs.Turn.{IsServedInTurn};
ghost use Rattle.words.specs.declared.call.Kind.{Kind};
ghost use Rattle.interleave.specs.Standing.{IsBeginningOf};
ghost use Rattle.protocol.specs.Acts.{recoveries};
ghost use Rattle.interleave.specs.Runs.{Attempted, KeepTheSame, recovery_steps, TellsNext};
ghost use Rattle.interleave.specs.State.{State, after_alone, after_attempt, after_act, after_acts, taken_of, kept_tells, IsAnsweredAlone};
ghost use Rattle.interleave.specs.OneAccess.{MakesOneAccess};
ghost use Rattle.interleave.specs.OneEvent.{event_of};
ghost use Rattle.protocol.specs.declared.acts.Act.{Act};

/// An act makes at most one access. But for a crash, which loses what is not kept, it changes at most one word, cached
/// or kept.
pub fn one_access_an_act()
    ensures accesses { (w : State) (act : Act ℕ) → (after_act w act).words.accesses ≤ w.words.accesses + 1 }
    ensures words { (w : State) (act : Act ℕ) → act ≢ Act.Crash → MakesOneAccess w.words (after_act w act).words }
{}

/// A start that is accepted adds its Call to the history, a step that answers its Return, a crash its Crash, and the
/// step that ends recovery its Ready; no other act adds anything.
pub fn one_event_an_act()
    ensures { (w : State) (act : Act ℕ) → (after_act w act).log.events ≡ w.log.events ++ event_of w act }
{}

/// An attempt at an act, and a list of them, goes on with the history.
pub fn histories_go_on()
    ensures acts { (full : Bool) (w : State) (act : Act ℕ)
        → IsBeginningOf w.log.events (after_attempt full w act).log.events }
    ensures lists { (run : Attempted) → IsBeginningOf run.old.log.events run.new.log.events }
{}

/// Where there is room for all of a list of acts, none is refused for want of memory.
pub fn acts_with_room_are_made()
    ensures leaves { (run : Attempted) → length run.acts ≤ run.room → run.new ≡ after_acts run.old run.acts }
    ensures counts { (run : Attempted) → length run.acts ≤ run.room → run.taken ≡ taken_of run.old run.acts }
    ensures steps { (run : Attempted) → length run.acts ≤ run.room → recovery_steps run.went ≡ recoveries run.acts }
{}

/// What a world in which recovery is under way, as after a crash or where it was booted, tells at its next Ready is
/// what its kept words tell, whatever evictions, steps and further crashes come between. So two of one layout whose
/// kept words are equal tell the same.
pub fn kept_words_tell()
    ensures by_words { (w : State) (tells : List Told) → Holds w → TellsNext w tells → tells ≡ kept_tells w }
    ensures same { (w v : State) (tells telling : List Told) → Holds w → Holds v → KeepTheSame w v
        → TellsNext w tells → TellsNext v telling → tells ≡ telling }
{}

/// A call under way is answered within [`words::MAX_STEPS_ALONE`] steps, where it goes on alone. If it began last and
/// nobody else has one, it is answered as by the plain queue, which then holds what the kept words hold.
pub fn calls_alone_are_served()
    ensures answered { (w : State) (client : Client) (call : UnderWay) → Holds w → waiting_in w client ≡ Ok call
        → IsAnsweredWithin MAX_STEPS_ALONE w client }
    ensures served { (w : State) (client : Client) (steps : ℕ) (reply : Reply) → Holds w
        → IsAnsweredAlone w client steps reply → IsServedInTurn client w reply (after_alone steps w client) }
{}

/// Where a world is at rest, as before a rotation, what its kept words tell each client is right of its announced call,
/// and no number in the order is above what they tell. A rotation's next base tells that.
pub fn kept_words_tell_rightly()
    ensures announced { (w : State) → Holds w → IsBaseToldRightly w }
    ensures numbers { (w : State) → Holds w → IsQuiet w → AreNumbersTold w }
{}

/// A step leads into the range that the next one asks for, and so at every moment each call under way and the recovery
/// wait at points in range, and what they are about to read is in range.
pub fn steps_stay_in_range()
    ensures successors { (s : Shape) (op : Op) (found : ℕ) → IsPoint s op → FindsInRange s op found
        → IsMoreInRange s (successor s.kind op found) }
    ensures calls { (w : State) (client : Client) (call : UnderWay) → Holds w
        → slice_get w.calls client.0 ≡ Some (Some call) → MayGoOn w call }
    ensures recovery { (w : State) (r : Recovery) → Holds w → w.recovery ≡ Some r → MayRecover w.shape w.words r }
{}

/// Where a world's history ends at rest, and the next one's base tells what its kept words tell, as after a rotation,
/// no client of a log queue has a call of one number in both orders: a number acts at most once over rotations too.
pub fn numbers_are_new()
    ensures { (old new : State) → Holds old → IsQuiet old → Holds new → new.shape.kind ≡ Kind.Log
        → new.told ≡ kept_tells old → ShareNoNumber old new }
{}
