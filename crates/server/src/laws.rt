//! What holds of every restart.
// A law's clause begins with all that it speaks of, so some of them are longer than 120 columns.

ghost use Rattle.std.specs.Prelude.{◌≡◌, false, List, ℕ};
ghost use Rattle.persist.specs.Memory.{words_at_rest};
ghost use Rattle.named.specs.Brokers.{Brokered};
ghost use Rattle.session.specs.Keeping.{SessionGoesOn};
ghost use Rattle.session.specs.Sessions.{Sessioned};
ghost use Rattle.workers.specs.Moments.{IsMomentOf};
ghost use Rattle.opening.specs.Opening.{IsOpened};
ghost use Rattle.server.specs.Restarting.{AreRepliesHeld, AreRepliesSettledBy, AreSettledBy, GoesOnFrom, IsReopenedFrom, IsReopenedLater, IsRestartedFrom, LivesOn};

use workers::marked_answers_are_told;

/// The broker that is opened on the kept words of a moment, as [`opening::reopened`] is on what a stop leaves of a
/// journal, goes on from there: it has each queue, with what it held, and each number that was settled at that moment
/// is settled by what its client is told.
pub fn restarts_go_on()
    ensures { (first session : Sessioned) (kept : List ℕ) (b : Brokered) → IsMomentOf first session kept
        → IsOpened (words_at_rest kept) b → GoesOnFrom session b }
{}

/// What was settled at the end of any batch that is read of a journal is settled, with its reply, by what its client is
/// told after the restart: of that batch and of every one before, and so of every one that was kept.
pub fn settled_numbers_outlast_restarts()
    ensures { (earlier : Sessioned) (b : Brokered) → IsReopenedFrom earlier b → AreSettledBy earlier b }
{}

/// A session over a restarted broker goes on from that of each batch that is read (`restart`). So numbers that were
/// settled once are settled over all the lives that follow, each of which begins on what a stop left of the journal of
/// the one before (`lives`).
pub fn lives_go_on()
    ensures restart { (earlier next : Sessioned) → IsRestartedFrom earlier next → SessionGoesOn earlier next }
    ensures lives { (earlier now : Sessioned) → LivesOn earlier now → SessionGoesOn earlier now }
{}

/// Let a reply stand in its client's list, of a put or a take that ran, in a queue of either kind. Let no history have
/// ended since, by a rotation or a renewal. Then after the restart its queue holds what a plain queue holds that was
/// served in an order in which the call stands, with this reply: of a put either its item is there, or a take in that
/// order got it.
pub fn replies_outlast_restarts()
    ensures { (first now : Sessioned) (b : Brokered) (later : IsReopenedLater first now b)
        → later.left.later.ended ≡ false → AreRepliesHeld first now b }
{}

/// Let a desk have told a reply with a number, and let a journal assure the session up to which it stands. What a stop
/// leaves is read as the words of a moment whose session goes on from that one
/// (`lasting::stops_leave_what_was_assured`). By what the broker on these words tells, the number is settled with that
/// reply.
pub fn told_replies_outlast_restarts()
    ensures { (first now : Sessioned) (b : Brokered) → IsReopenedLater first now b → AreRepliesSettledBy first now b }
{
    marked_answers_are_told();
}
