//! What a client's number comes to, by the last one.

ghost use Rattle.std.specs.Prelude.{◌≡◌};
ghost use Rattle.session.specs.Numbers.{by_number, by_outcome};

use words::{Outcome, Refusal, Reply, Verdict};

/// By a verdict: its reply is given again, and the number that may run is the next one, or, where it took no effect,
/// the same.
fn answer_after(last: Verdict, number: u64) -> Result<Option<Reply>, Refusal>
    ensures { result ≡ by_outcome last.outcome last.number number }
{
    if number < last.number {
        return Err(Refusal::Old);
    }
    match (last.outcome, number - last.number) {
        (Outcome::Taken(reply), 0) => Ok(Some(reply)),
        (Outcome::Taken(_), 1) => Ok(None),
        (Outcome::NotTaken, 0) => Ok(None),
        (Outcome::Taken(_) | Outcome::NotTaken, _) => Err(Refusal::Gap),
    }
}

/// The reply of a client's number, if it is the last one's and that is known, or none, if it is the client's turn to
/// run it. It is refused where a later number is known (Old), as 0 always is, and where an earlier one is missing
/// (Gap).
pub(crate) fn answer(last: Option<Verdict>, number: u64) -> Result<Option<Reply>, Refusal>
    ensures { result ≡ by_number last number }
{
    match last {
        // Numbers begin with 1. A durable queue's calls have 0, so that no client can ask for one of these again.
        _ if number == 0 => Err(Refusal::Old),
        Some(last) => answer_after(last, number),
        None if number == 1 => Ok(None),
        None => Err(Refusal::Gap),
    }
}
