//! What holds of the lines.

ghost use Rattle.std.specs.Prelude.{ℕ, List, IsUtf8};
ghost use Rattle.wire.specs.declared.request.Request.{Request};
ghost use Rattle.requests.specs.Objects.{IsMeant, MayAsk};

/// Each request can be asked: the compact JSON text of its row is a line that means it.
#[tactic(auto, using(crate::proofs::Lines::asked_by_line))]
pub fn requests_can_be_asked()
    ensures { (text : List ℕ) (request : Request) → IsUtf8 text → MayAsk text request → IsMeant text request }
{}
