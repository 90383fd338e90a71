//! How lines are read.

ghost use Rattle.std.specs.Prelude.{ℕ, List, Result};
ghost use Rattle.wire.specs.declared.request.Request.{Request};
ghost use Rattle.words.specs.declared.refusal.Refusal.{Refusal};
ghost use Rattle.engine.specs.Replies.{Gives};

use std::alloc::Global;
use wire::Request;
use words::Refusal;

/// How lines are read.
pub trait Reading {
    /// The request that a line is, or its fault.
    ghost meaning: { List ℕ → Result Request Refusal };

    /// What the line is. For want of memory it may be refused all the same.
    fn request(alloc: Global, line: &[u8]) -> Result<Request, Refusal>
        ensures { Gives result (meaning line.now) };
}
