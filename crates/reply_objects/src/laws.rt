//! What holds of the texts of replies.

ghost use Rattle.std.specs.Prelude.{◌≡◌, Some};
ghost use Rattle.serde_json.specs.Read.{read};
ghost use Rattle.serde_json.specs.Written.{compact_text};
ghost use Rattle.replies.specs.Texts.{answer_text};
ghost use Rattle.reply_objects.specs.Objects.{object_of, AreLearntAlike, MayBeWritten};
ghost use Rattle.wire.specs.declared.answer.Answer.{Answer};

/// The text of each answer is the compact text of its object, and is read as that object. So a client that reads JSON
/// learns the answer by its text: two answers with one text are one, but for the slots of the queues that are listed.
#[tactic(auto, using(crate::proofs::Writing::written, crate::proofs::Writing::read_again, crate::proofs::Learning::learnt_once))]
pub fn replies_are_read_back()
    ensures text { (answer : Answer) → MayBeWritten answer → answer_text answer ≡ compact_text (object_of answer) }
    ensures read { (answer : Answer) → MayBeWritten answer → read (answer_text answer) ≡ Some (object_of answer) }
    ensures learnt { (one other : Answer) → MayBeWritten one → MayBeWritten other → AreLearntAlike one other }
{}
