//! What the tail and the pieces are.

ghost use Rattle.std.specs.Prelude.{◌≡◌, true, IfOk, IfSome, OnOk, Some};
ghost use Rattle.etcd_text.specs.Asked.{asked_by};
ghost use Rattle.etcd_text.specs.Tails.{said_by};
ghost use Rattle.etcd_text.specs.Texts.{is_range};
ghost use Rattle.etcd_log.specs.Asking.{AreSame, FindsPiece, FindsTail, IsToldBy};

use crate::deciding::{Undone, is_spelled, reason};
use crate::exchange::{Exchange, Lost};
use etcd_text::{Answer, Request, Tail};
use std::alloc::Global;

/// Asks until an answer comes. A question changes nothing.
fn question<X: Exchange>(exchange: &mut X, request: &Request) -> Result<Answer, Undone>
    requires { is_range (asked_by request.now) ≡ true }
    ensures told { IfOk result (IsToldBy (asked_by request.now) (X.engine exchange.new)) }
    ensures same { AreSame (X.engine exchange.old) (X.engine exchange.new) }
{
    for _ in 0..u64::MAX {
        match exchange.ask(request) {
            Ok(answer) => return Ok(answer),
            Err(Lost) => {
                if !exchange.may_ask_again() {
                    return Err(Undone::NoEngine);
                }
            }
        }
    }
    Err(Undone::NoEngine)
}

/// The text of the tail, if there is one. It is refused where no answer comes (NoEngine), or none that can (BadAnswer).
pub fn ask_tail<X: Exchange>(exchange: &mut X) -> Result<Option<Vec<u8>>, Undone>
    ensures told { IfOk result (FindsTail (X.engine exchange.new)) }
    ensures same { AreSame (X.engine exchange.old) (X.engine exchange.new) }
{
    match question(exchange, &Request::Ask) {
        Ok(Answer::Value(found)) => Ok(found),
        Ok(Answer::Done) => Err(Undone::BadAnswer),
        Err(undone) => Err(undone),
    }
}

/// The bytes of a piece, if it is there.
pub(crate) fn ask_piece<X: Exchange>(
    exchange: &mut X,
    generation: u64,
    number: u64,
) -> Result<Option<Vec<u8>>, Undone>
    ensures told { IfOk result (FindsPiece generation number (X.engine exchange.new)) }
    ensures same { AreSame (X.engine exchange.old) (X.engine exchange.new) }
{
    match question(exchange, &Request::Read { generation, number }) {
        Ok(Answer::Value(found)) => Ok(found),
        Ok(Answer::Done) => Err(Undone::BadAnswer),
        Err(undone) => Err(undone),
    }
}

/// Asks whether this is still the tail. It is refused where another owner has the log (TakenOver), where the tail is none
/// that this one can have put (BadAnswer), and where no answer comes (NoEngine).
pub(crate) fn confirm<X: Exchange>(exchange: &mut X, tail: &Tail) -> Result<(), Undone>
    ensures there { OnOk result (IfSome (X.engine exchange.new) (λ engine. engine.tail ≡ Some (said_by tail.now))) }
    ensures same { AreSame (X.engine exchange.old) (X.engine exchange.new) }
{
    let found = match ask_tail(exchange) {
        Ok(found) => found,
        Err(undone) => return Err(undone),
    };
    let Some(text) = found else {
        return Err(Undone::BadAnswer);
    };
    if is_spelled(&text, tail.generation, tail.count, tail.owner) {
        return Ok(());
    }
    Err(reason(&Answer::Value(Some(text)), tail.owner))
}
