//! What holds of the log, whatever is lost, comes late or is done twice.

ghost use Rattle.fenced.specs.Laws.{AllPiecesAreThere, AnsweredIsAppended, AnsweredIsPlaced, ConfirmedIsCurrent};
ghost use Rattle.fenced.specs.Laws.{DoublesAreNothing, FindsLast, HasOneText, InEachRun, OwnersNeverReturn, ReadsText};
ghost use Rattle.fenced.specs.Laws.{TailsNeverReturn, TakenIsFinal, TakesEffectOnce, TextGoesOn};

/// A tail that was replaced never comes back, and neither does an owner. So what replaces a tail takes effect once at
/// most, however often it is sent.
pub fn tails_never_return()
    ensures tails { InEachRun TailsNeverReturn }
    ensures owners { InEachRun OwnersNeverReturn }
    ensures once { InEachRun TakesEffectOnce }
{}

/// An append that was answered is in the text: behind what the text was at its tail, which has one text alone. The text
/// goes on from there until another generation comes in use. Then it is what was answered of the pieces of that.
pub fn answered_is_there()
    ensures appended { InEachRun AnsweredIsAppended }
    ensures one { InEachRun HasOneText }
    ensures goes_on { InEachRun TextGoesOn }
    ensures placed { InEachRun AnsweredIsPlaced }
{}

/// A request that is done once more, whenever, leaves the tail and the text as they are.
pub fn doubles_are_nothing()
    ensures { InEachRun DoublesAreNothing }
{}

/// Behind a taking that was answered no request of an owner before changes anything.
pub fn taken_is_final()
    ensures { InEachRun TakenIsFinal }
{}

/// All pieces of the text are there, and who takes the log reads the text that it had. That is the text of the last
/// tail that the owner before knew, or this and the piece that was under way, or the fresh generation that was to come
/// in use.
pub fn taker_reads()
    ensures there { InEachRun AllPiecesAreThere }
    ensures reads { InEachRun ReadsText }
    ensures last { InEachRun FindsLast }
{}

/// Who asks for the tail, and is told that it is his, had the log all the time until he asked.
pub fn confirmed_is_current()
    ensures { InEachRun ConfirmedIsCurrent }
{}
