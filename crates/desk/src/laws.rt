//! What holds of answers in turn.

ghost use Rattle.std.specs.Prelude.{List, ℕ};
ghost use Rattle.desk.specs.Answering.{IsServedInTurn};
ghost use Rattle.desk.specs.Telling.{AreReplied};
ghost use Rattle.session.specs.Sessions.{Sessioned};
ghost use Rattle.wire.specs.declared.answer.Answer.{Answer};
ghost use Rattle.wire.specs.declared.request.Request.{Request};

/// Where requests were answered in turn, each reply to a put or a take stands in its client's list at a session that was
/// marked, and the one that was marked last goes on from there.
pub fn replies_stand()
    ensures { (clients : ℕ) (first now : Sessioned) (served : List (Request × Answer))
        → IsServedInTurn clients first served now → AreReplied first now served }
{}
