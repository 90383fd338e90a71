//! What holds of every history.
// A law's clause begins with all that it speaks of, so some of them are longer than 120 columns.

ghost use Rattle.std.specs.Prelude.{◌≡◌, List};
ghost use Rattle.words.specs.PlainQueue.{Value};
ghost use Rattle.words.specs.declared.call.Client.{Client};
ghost use Rattle.history.specs.InTurn.{Turn, AreServed, ExplainsTurns, left_after, order_in_turn, queue_in_turn};
ghost use Rattle.events.specs.declared.event.Entry.{Entry};

/// Whatever order explains them, a client's calls that run to their ends one after another are answered by the plain
/// queue.
pub fn calls_in_turn_are_served()
    ensures { (client : Client) (turns : List Turn) (base : List Value) (order : List Entry)
        → ExplainsTurns client turns base order → AreServed base turns }
{}

/// Only the order in which they were made explains such calls, and it leaves what the plain queue leaves.
pub fn calls_in_turn_have_one_order()
    ensures order { (client : Client) (turns : List Turn) (base : List Value) (order : List Entry)
        → ExplainsTurns client turns base order → order ≡ order_in_turn 0 turns }
    ensures left { (client : Client) (turns : List Turn) (base : List Value) (order : List Entry)
        → ExplainsTurns client turns base order
        → left_after client turns base order ≡ queue_in_turn base turns }
{}
