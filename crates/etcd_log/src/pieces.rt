//! Bytes are put into pieces: behind the log's text, or as a generation that takes its place.
// A clause that speaks of an engine before and after may be longer than 120 columns.

ghost use Rattle.std.specs.Prelude.{◌≡◌, ◌<◌, ◌+◌, ◌^◌, ◌++◌, List, ℕ, suc, IfOk, IfSome, OnErr, OnOk};
ghost use Rattle.std.specs.Io.KnownBytes.{append_known};
ghost use Rattle.journal_file.specs.Appended.{AppendsPart};
ghost use Rattle.fenced.specs.Requests.{longer, placed};
ghost use Rattle.etcd_text.specs.Asked.{HasRoom, asked_by};
ghost use Rattle.etcd_text.specs.Tails.{said_by};
ghost use Rattle.etcd_log.specs.Asking.{MayBeDone};
ghost use Rattle.etcd_log.specs.Logged.{HasPieces, HasTail, MayHaveJust, text_in};

use crate::deciding::{Undone, decide};
use crate::exchange::Exchange;
use etcd_text::{Request, Tail};

/// How many bytes a piece has at most.
const PIECE_BYTES: usize = 65_536;

/// Puts one piece behind the text.
fn put_one<X: Exchange>(exchange: &mut X, tail: &Tail, piece: &[u8]) -> Result<(), Undone>
    requires has { HasTail (X.engine exchange.old) (said_by tail.now) }
    requires room { tail.now.count + 1 < 2 ^ 64 }
    ensures tail { OnOk result (HasTail (X.engine exchange.new) (longer (said_by tail.now))) }
    ensures text { OnOk result
        (text_in (X.engine exchange.new) ≡ append_known (text_in (X.engine exchange.old)) piece.now) }
    ensures part { OnErr result
        (AppendsPart (text_in (X.engine exchange.old)) (text_in (X.engine exchange.new)) piece.now) }
{
    let next = Tail {
        generation: tail.generation,
        count: tail.count + 1,
        owner: tail.owner,
    };
    let request = Request::Put {
        tail: *tail,
        bytes: piece,
    };
    match decide(exchange, &request, &Some(next), tail.owner) {
        Ok(()) => Ok(()),
        Err(undone) => Err(undone),
    }
}

/// Puts bytes behind the text, and answers how many pieces it has then.
pub(crate) fn put_all<X: Exchange>(
    exchange: &mut X,
    tail: &Tail,
    bytes: &[u8],
) -> Result<u64, Undone>
    requires { HasTail (X.engine exchange.old) (said_by tail.now) }
    ensures tail { IfOk result
        (λ count. HasTail (X.engine exchange.new) (record (said_by tail.now) { count = count })) }
    ensures text { OnOk result
        (text_in (X.engine exchange.new) ≡ append_known (text_in (X.engine exchange.old)) bytes.now) }
    ensures part { OnErr result
        (AppendsPart (text_in (X.engine exchange.old)) (text_in (X.engine exchange.new)) bytes.now) }
{
    let mut rest = bytes;
    let mut count = tail.count;
    while !rest.is_empty() {
        if count == u64::MAX {
            return Err(Undone::Full);
        }
        let (piece, after) = rest.split_at(rest.len().min(PIECE_BYTES));
        let here = Tail {
            generation: tail.generation,
            count,
            owner: tail.owner,
        };
        if let Err(undone) = put_one(exchange, &here, piece) {
            return Err(undone);
        }
        count += 1;
        rest = after;
    }
    Ok(count)
}

/// Puts one piece of a fresh generation.
fn fresh_one<X: Exchange>(
    exchange: &mut X,
    tail: &Tail,
    generation: u64,
    number: u64,
    piece: &[u8],
) -> Result<(), Undone>
    requires has { HasTail (X.engine exchange.old) (said_by tail.now) }
    requires later { tail.now.generation < generation }
    ensures tail { OnOk result (HasTail (X.engine exchange.new) (said_by tail.now)) }
    ensures pieces { OnOk result ((bytes : List ℕ) → HasPieces (X.engine exchange.old) generation number bytes
        → HasPieces (X.engine exchange.new) generation (suc number) (bytes ++ piece.now)) }
    ensures text { text_in (X.engine exchange.new) ≡ text_in (X.engine exchange.old) }
{
    let request = Request::Fresh {
        tail: *tail,
        generation,
        number,
        bytes: piece,
    };
    match decide(exchange, &request, &None, tail.owner) {
        Ok(()) => Ok(()),
        Err(undone) => Err(undone),
    }
}

/// Puts bytes into the pieces of a fresh generation, and answers how many these are.
fn fresh_all<X: Exchange>(
    exchange: &mut X,
    tail: &Tail,
    generation: u64,
    bytes: &[u8],
) -> Result<u64, Undone>
    requires has { HasTail (X.engine exchange.old) (said_by tail.now) }
    requires later { tail.now.generation < generation }
    ensures tail { OnOk result (HasTail (X.engine exchange.new) (said_by tail.now)) }
    ensures pieces { IfOk result (λ count. HasPieces (X.engine exchange.new) generation count bytes.now) }
    ensures text { text_in (X.engine exchange.new) ≡ text_in (X.engine exchange.old) }
{
    let mut rest = bytes;
    let mut number = 0;
    while !rest.is_empty() {
        if number == u64::MAX {
            return Err(Undone::Full);
        }
        let (piece, after) = rest.split_at(rest.len().min(PIECE_BYTES));
        if let Err(undone) = fresh_one(exchange, tail, generation, number, piece) {
            return Err(undone);
        }
        number += 1;
        rest = after;
    }
    Ok(number)
}

/// A generation that has these bytes takes the place of the one in use.
fn place<X: Exchange>(
    exchange: &mut X,
    tail: &Tail,
    generation: u64,
    count: u64,
) -> Result<(), Undone>
    requires { HasTail (X.engine exchange.old) (said_by tail.now) }
    ensures tail { OnOk result (HasTail (X.engine exchange.new) (placed (said_by tail.now) generation count)) }
    ensures text { OnOk result ((bytes : List ℕ) → HasPieces (X.engine exchange.old) generation count bytes
        → IfSome (text_in (X.engine exchange.new)) (λ text. text ≡ bytes)) }
    ensures either { OnErr result ((bytes : List ℕ) → HasPieces (X.engine exchange.old) generation count bytes
        → MayHaveJust (text_in (X.engine exchange.old)) (text_in (X.engine exchange.new)) bytes) }
{
    let next = Tail {
        generation,
        count,
        owner: tail.owner,
    };
    let request = Request::Place {
        tail: *tail,
        generation,
        count,
    };
    match decide(exchange, &request, &Some(next), tail.owner) {
        Ok(()) => Ok(()),
        Err(undone) => Err(undone),
    }
}

/// Asks once, whatever comes of it.
fn ask_once<X: Exchange>(exchange: &mut X, request: &Request)
    requires { HasRoom request.now }
    ensures { MayBeDone (asked_by request.now) (X.engine exchange.old) (X.engine exchange.new) }
{
    let _ = exchange.ask(request);
}

/// The generations below the one in use go. Where that is lost they stay, and do no harm.
fn drop_older<X: Exchange>(exchange: &mut X, tail: &Tail)
    requires { HasTail (X.engine exchange.old) (said_by tail.now) }
    ensures tail { HasTail (X.engine exchange.new) (said_by tail.now) }
    ensures text { text_in (X.engine exchange.new) ≡ text_in (X.engine exchange.old) }
{
    ask_once(exchange, &Request::DropOlder { tail: *tail });
}

/// Bytes take the place of the text, in a fresh generation, and the ones before go. It answers how many pieces they
/// are.
pub(crate) fn put_in_place<X: Exchange>(
    exchange: &mut X,
    tail: &Tail,
    generation: u64,
    bytes: &[u8],
) -> Result<u64, Undone>
    requires has { HasTail (X.engine exchange.old) (said_by tail.now) }
    requires later { tail.now.generation < generation }
    ensures tail { IfOk result (λ count. HasTail (X.engine exchange.new) (placed (said_by tail.now) generation count)) }
    ensures text { OnOk result (IfSome (text_in (X.engine exchange.new)) (λ text. text ≡ bytes.now)) }
    ensures either { OnErr result
        (MayHaveJust (text_in (X.engine exchange.old)) (text_in (X.engine exchange.new)) bytes.now) }
{
    let count = match fresh_all(exchange, tail, generation, bytes) {
        Ok(count) => count,
        Err(undone) => return Err(undone),
    };
    match place(exchange, tail, generation, count) {
        Ok(()) => {
            let next = Tail {
                generation,
                count,
                owner: tail.owner,
            };
            drop_older(exchange, &next);
            Ok(count)
        }
        Err(undone) => Err(undone),
    }
}
