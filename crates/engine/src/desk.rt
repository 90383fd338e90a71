//! Where requests are answered.

ghost use Rattle.std.specs.Prelude.{◌≡◌, ◌<◌, ◌+◌, ◌++◌, ◌∷◌, [], ℕ, List, OnOk, OnErr};
ghost use Rattle.devices.specs.Devices.{failures_of};
ghost use Rattle.wire.specs.declared.request.Request.{Request};
ghost use Rattle.wire.specs.declared.answer.Answer.{Answer};

use devices::{Failed, MAX_FAILURES};
use std::sync::Wait;
use wire::{Answer, Request};

/// Where requests are answered.
pub trait Desk {
    /// The requests that were made, with their answers, in order.
    ghost served: { Self → List (Request × Answer) };

    /// Those of them that are settled, from the first one on: what they did lasts, as far as that is promised.
    ghost settled: { Self → List (Request × Answer) };

    /// How often it has failed to settle.
    ghost failures: { Self → ℕ };

    /// Makes the request, and answers it.
    fn answer<R: Wait>(&mut self, rt: &R, request: Request) -> Answer
        ensures served { served self.new ≡ served self.old ++ (request, result) ∷ [] }
        ensures settled { settled self.new ≡ settled self.old }
        ensures failures { failures self.new ≡ failures self.old };

    /// Settles all that was served.
    fn settle<R: Wait>(&mut self, rt: &R) -> Result<(), Failed>
        requires { failures self.old < MAX_FAILURES }
        ensures served { served self.new ≡ served self.old }
        ensures settled { OnOk result (settled self.new ≡ served self.old) }
        ensures unsettled { OnErr result (settled self.new ≡ settled self.old) }
        ensures failures { failures self.new ≡ failures self.old + failures_of result };

    /// What is settled is a beginning of what was served.
    ghost begins: { (desk : Self) → (more : List (Request × Answer)) × (served desk ≡ settled desk ++ more) };
}
