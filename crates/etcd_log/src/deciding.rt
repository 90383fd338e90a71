//! A request is sent as it is, until an answer decides what became of it.

ghost use Rattle.std.specs.Prelude.{◌≡◌, ◌↔◌, IsTrue, OnErr, OnOk, option_map};
ghost use Rattle.etcd_text.specs.Asked.{HasRoom, asked_by};
ghost use Rattle.etcd_text.specs.Tails.{said_by, spelled};
ghost use Rattle.etcd_log.specs.Asking.{IsDone, MayBeDone, SaysDone};

use crate::exchange::{Exchange, Lost};
use etcd_text::{Answer, Request, Tail, tail_in};

/// Why a request is not known to be done, or a text is not read.
#[derive(Clone, Copy, Debug, PartialEq, Eq)]
pub enum Undone {
    /// The log is another owner's.
    TakenOver,
    /// The answer is none that can come.
    BadAnswer,
    /// The log has no room for one piece more.
    Full,
    /// A piece of the text is not there.
    Missing,
    /// There is no memory for the text.
    NoMemory,
    /// No answer came, and none is waited for any longer.
    NoEngine,
}

/// Whether these bytes are the text of the tail that has these numbers and this owner.
pub(crate) fn is_spelled(bytes: &[u8], generation: u64, count: u64, owner: &[u8]) -> bool
    ensures { IsTrue result
        ↔ (bytes.now ≡ spelled (record { generation = generation; count = count; owner = owner.now })) }
{
    let Some(other) = tail_in(bytes) else {
        return false;
    };
    if other.generation != generation {
        return false;
    }
    if other.count != count {
        return false;
    }
    other.owner == owner
}

/// Whether an answer says that a request is done which was to leave this tail, or the tail as it is.
fn says_done(answer: &Answer, next: &Option<Tail>) -> bool
    ensures { IsTrue result ↔ SaysDone (option_map said_by next.now) answer.now }
{
    match (answer, next) {
        (Answer::Done, _) => true,
        (Answer::Value(Some(bytes)), Some(tail)) => {
            is_spelled(bytes, tail.generation, tail.count, tail.owner)
        }
        _ => false,
    }
}

/// Why a request is not done that is answered so, by an owner of this name.
pub(crate) fn reason(answer: &Answer, owner: &[u8]) -> Undone {
    match answer {
        Answer::Value(Some(bytes)) => match tail_in(bytes) {
            Some(tail) if tail.owner != owner => Undone::TakenOver,
            _ => Undone::BadAnswer,
        },
        _ => Undone::BadAnswer,
    }
}

/// Sends a request of this owner's as it is, until an answer decides. `next` is the tail that it is to leave, if that
/// is another one. No answer is ever taken for "it was not done".
pub(crate) fn decide<X: Exchange>(
    exchange: &mut X,
    request: &Request,
    next: &Option<Tail>,
    owner: &[u8],
) -> Result<(), Undone>
    requires { HasRoom request.now }
    ensures done { OnOk result (IsDone (asked_by request.now) (X.engine exchange.old) (X.engine exchange.new)) }
    ensures lost { OnErr result (MayBeDone (asked_by request.now) (X.engine exchange.old) (X.engine exchange.new)) }
{
    for _ in 0..u64::MAX {
        match exchange.ask(request) {
            Ok(answer) => {
                if says_done(&answer, next) {
                    return Ok(());
                }
                return Err(reason(&answer, owner));
            }
            Err(Lost) => {
                if !exchange.may_ask_again() {
                    return Err(Undone::NoEngine);
                }
            }
        }
    }
    Err(Undone::NoEngine)
}
