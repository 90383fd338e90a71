//! What holds of every journal of a shared session.
// A law's clause begins with all that it speaks of, so some of them are longer than 120 columns.

ghost use Rattle.std.specs.Prelude.{◌≡◌, false};
ghost use Rattle.journal_file.specs.OnDevice.{IsSomeJournal, OnDevice};
ghost use Rattle.persist.specs.Noted.{applied};
ghost use Rattle.lasting.specs.Lasting.{Assures, EachBeginningHasLater, EachKillHasMoment, EachStopHasLater};
ghost use Rattle.lasting.specs.Lasting.{EachStopHasMoment, HasLaterThere, IsSoOfMoments, IsSoOfRunning};
ghost use Rattle.lasting.specs.Settling.{HasSettled, LastsBy, Settled, StandsAs};
ghost use Rattle.lasting.specs.declared.policy.Policy.{Policy};
ghost use Rattle.session.specs.Promises.{KeepsNumbers};
ghost use Rattle.session.specs.Sessions.{Sessioned};
ghost use Rattle.session.specs.Telling.{IsSettledTold};
ghost use Rattle.workers.specs.Moments.{IsFirstMoment};

/// A session is at a moment when the seats are given: what it promises then, [`session::Session::broker`] and
/// [`session::Session::tells_settled`] say of any session.
pub fn firsts_are_moments()
    ensures { (first : Sessioned) → KeepsNumbers first → IsSettledTold first → IsFirstMoment first }
{}

/// A restart: whatever a stop leaves of such a journal is read as the words of a moment, with all batches that were
/// there when all was last kept (`stopped`). The session of that moment goes on from the one at the end of each batch
/// before. So it is of what is left of the bytes at the place of a storage that has not failed, from the front on and all
/// that was kept at least (`killed`).
pub fn stops_leave_a_moment()
    ensures stopped { IsSoOfMoments EachStopHasMoment }
    ensures killed { IsSoOfRunning EachKillHasMoment }
{}

/// What is settled stands at the place of the storage, where that is known: it is read as the words that all changes make
/// which were handed on (`there`); and no stop takes away any of it, where the policy is to keep always (`lasts`).
pub fn settled_stands_there()
    ensures there { (first : Sessioned) (s : Settled) → IsSomeJournal s.kept.journal → HasSettled first s
        → StandsAs (applied s.kept.handed first.broker.words.kept) s.kept.journal }
    ensures lasts { (first : Sessioned) (s : Settled) → IsSomeJournal s.kept.journal → HasSettled first s
        → LastsBy s.policy s.kept.journal }
{}

/// What a stop leaves of a journal that assures a session is read as the words of a moment whose session goes on from
/// it: after a loss of power, where the policy is to keep always (`stopped`); and under any policy where all bytes that
/// were appended are left, as after a kill (`killed`). So it is of what stands at the place of a storage that has not
/// failed: of each beginning of that which has all that was kept (`lost`), and of all of it (`there`).
pub fn stops_leave_what_was_assured()
    ensures stopped { (first s : Sessioned) (j : OnDevice) (a : Assures first Policy.Always s j)
        → EachStopHasLater first s j a.has j.kept }
    ensures killed { (first s : Sessioned) (policy : Policy) (j : OnDevice) (a : Assures first policy s j)
        → EachStopHasLater first s j a.has j.size }
    ensures lost { (first s : Sessioned) (j : OnDevice) (a : Assures first Policy.Always s j)
        → j.failed ≡ false → EachBeginningHasLater first s j a.has }
    ensures there { (first s : Sessioned) (policy : Policy) (j : OnDevice) (a : Assures first policy s j)
        → j.failed ≡ false → HasLaterThere first s j a.has }
{}
