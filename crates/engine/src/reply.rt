//! What a line is replied.

ghost use Rattle.std.specs.Prelude.{◌≡◌, ◌++◌, ◌∷◌, []};
ghost use Rattle.engine.specs.Replies.{Fits, is_stop, made_of};

use crate::desk::Desk;
use crate::limits::MAX_LINE;
use crate::reading::Reading;
use std::alloc::Global;
use std::sync::Wait;
use wire::{Answer, Request};
use words::Refusal;

/// What a line is replied.
#[derive(Clone, Copy)]
pub enum Reply {
    /// The line is this request, which was made and answered.
    Made(Request, Answer),
    /// No request was made.
    Fault(Refusal),
}

impl Reply {
    /// Whether it accepts a stop.
    pub fn is_stop(&self) -> bool
        ensures { result ≡ is_stop self.now }
    {
        matches!(self, Reply::Made(Request::Stop, Answer::Stopping))
    }
}

/// Reads the line, and makes the request that it is.
pub fn reply_to<T: Wait, P: Reading, D: Desk>(
    rt: &T,
    alloc: Global,
    desk: &mut D,
    line: &[u8],
) -> Reply
    ensures fits { Fits P.meaning line.now result }
    ensures served { D.served desk.new ≡ D.served desk.old ++ made_of (result ∷ []) }
    ensures settled { D.settled desk.new ≡ D.settled desk.old }
    ensures failures { D.failures desk.new ≡ D.failures desk.old }
{
    if line.len() > MAX_LINE {
        return Reply::Fault(Refusal::TooLong);
    }
    match P::request(alloc, line) {
        Err(refusal) => Reply::Fault(refusal),
        Ok(request) => {
            let made = request;
            Reply::Made(made, desk.answer(rt, request))
        }
    }
}
