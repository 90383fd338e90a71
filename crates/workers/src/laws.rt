//! What the lists of a shared session and the histories of its queues say of each other.
// A law's clause begins with all that it speaks of, so some of them are longer than 120 columns.

ghost use Rattle.std.specs.Prelude.{◌≡◌, ℕ, List};
ghost use Rattle.words.specs.declared.call.Client.{Client};
ghost use Rattle.events.specs.declared.event.Event.{Event};
ghost use Rattle.session.specs.Sessions.{Sessioned};
ghost use Rattle.workers.specs.Accounts.{call_count, ran_count, AreAnswersTaken, AreCallsCounted, AreInterruptedTold};
ghost use Rattle.workers.specs.Accounts.{ArePlainRepliesFit, IsSoOfRecorded};
ghost use Rattle.workers.specs.Lists.{IsListOf, IsRecorded};
ghost use Rattle.workers.specs.Marks.{AreAnswersSettled, AreAnswersTold, IsSoOfMarked};
ghost use Rattle.workers.specs.declared.entry.Entry.{Entry};

/// A list has exactly as many calls that ran in a queue as the queue's history has calls of the client, from where the
/// list begins.
pub fn calls_are_counted()
    ensures slot { (since slot : ℕ) (events : List Event) (client : Client) (list : List Entry)
        → IsListOf since slot events client list → ran_count slot list ≡ call_count since client events }
    ensures all { (since : ℕ → ℕ) (s : Sessioned) (client : Client) (list : List Entry)
        → IsRecorded since s client list → AreCallsCounted since s client list }
{}

/// Where a list says that a call of a log queue was interrupted, a crash ended it, and it took effect only where the
/// next Ready told the client so. Where it says that a call was answered, in a queue of either kind, the call returned
/// that reply and took effect with it. A call without a number is answered as the plain queue may: a put with Done, a
/// take with an item or with Empty.
pub fn interrupted_calls_are_told()
    ensures interrupted { IsSoOfRecorded AreInterruptedTold }
    ensures answered { IsSoOfRecorded AreAnswersTaken }
    ensures plain { IsSoOfRecorded ArePlainRepliesFit }
{}

/// What a marked session tells of the answers in a seat's list. Each call took effect as it was answered (`taken`). Where
/// the broker was ready then, and the client called nothing, a number of a log queue that was answered is settled in the
/// session (`settled`), and its kept words tell so (`told`). Elsewhere no verdict need be kept yet that says so.
pub fn marked_answers_are_told()
    ensures taken { IsSoOfMarked AreAnswersTaken }
    ensures settled { IsSoOfMarked AreAnswersSettled }
    ensures told { IsSoOfMarked AreAnswersTold }
{}
