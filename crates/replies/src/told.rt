//! The texts of replies, and of what clients are told.

ghost use Rattle.std.specs.Prelude.{◌≡◌, ◌≤◌, ◌+◌, ◌++◌, length, codes};
ghost use Rattle.arrayvec.specs.ArrayVec.{array_vec_len};
ghost use Rattle.replies.specs.Texts.{value_text, reply_text, taken_text, outcome_text, row_text, told_text};

use crate::limits::{MAX_SHORT, MAX_VALUE_BYTES};
use crate::pieces::{put, put_around, put_hex, put_number};
use arrayvec::ArrayVec;
use words::{Outcome, Reply, Row, Told, Value};

/// Puts a message: its digits, between quotes.
fn put_value<const N: usize>(out: &mut ArrayVec<u8, N>, value: Value)
    requires { array_vec_len out.old + MAX_VALUE_BYTES ≤ N }
    ensures text { out.new.items ≡ out.old.items ++ value_text value }
    ensures short { array_vec_len out.new ≤ array_vec_len out.old + MAX_VALUE_BYTES }
{
    put(out, br#"""#);
    put_hex(out, value.bytes());
    put(out, br#"""#);
}

/// Puts a message that a call got behind the 7 bytes of its key, and what stands behind it.
fn put_got<const N: usize>(out: &mut ArrayVec<u8, N>, value: Value, back: &[u8])
    requires { array_vec_len out.old + 7 + MAX_VALUE_BYTES + length back.now ≤ N }
    ensures text { out.new.items ≡ out.old.items ++ (codes "{\"got\":" ++ value_text value ++ back.now) }
    ensures short { array_vec_len out.new ≤ array_vec_len out.old + 7 + MAX_VALUE_BYTES + length back.now }
{
    put(out, br#"{"got":"#);
    put_value(out, value);
    put(out, back);
}

pub(crate) fn put_reply<const N: usize>(out: &mut ArrayVec<u8, N>, reply: Reply)
    requires { array_vec_len out.old + MAX_SHORT ≤ N }
    ensures text { out.new.items ≡ out.old.items ++ reply_text reply }
    ensures short { array_vec_len out.new ≤ array_vec_len out.old + MAX_SHORT }
{
    match reply {
        Reply::Done => put(out, br#"{"reply":"done"}"#),
        Reply::Got(value) => put_got(out, value, br#","reply":"got"}"#),
        Reply::Empty => put(out, br#"{"reply":"empty"}"#),
    }
}

pub(crate) fn put_told<const N: usize>(out: &mut ArrayVec<u8, N>, told: Told)
    requires { array_vec_len out.old + MAX_SHORT ≤ N }
    ensures text { out.new.items ≡ out.old.items ++ told_text told }
    ensures short { array_vec_len out.new ≤ array_vec_len out.old + MAX_SHORT }
{
    match told {
        Told::None => put(out, br#"{"told":"none"}"#),
        Told::Verdict(verdict) => put_outcome(out, verdict.number, verdict.outcome),
        Told::Row(row) => put_row(out, row),
    }
}

fn put_outcome<const N: usize>(out: &mut ArrayVec<u8, N>, number: u64, outcome: Outcome)
    requires { array_vec_len out.old + MAX_SHORT ≤ N }
    ensures text { out.new.items ≡ out.old.items ++ outcome_text number outcome }
    ensures short { array_vec_len out.new ≤ array_vec_len out.old + MAX_SHORT }
{
    match outcome {
        Outcome::NotTaken => put_around(out, br#"{"number":"#, number, br#","told":"nottaken"}"#),
        Outcome::Taken(reply) => put_taken(out, number, reply),
    }
}

fn put_taken<const N: usize>(out: &mut ArrayVec<u8, N>, number: u64, reply: Reply)
    requires { array_vec_len out.old + MAX_SHORT ≤ N }
    ensures text { out.new.items ≡ out.old.items ++ taken_text number reply }
    ensures short { array_vec_len out.new ≤ array_vec_len out.old + MAX_SHORT }
{
    match reply {
        Reply::Done => put_around(
            out,
            br#"{"number":"#,
            number,
            br#","reply":"done","told":"taken"}"#,
        ),
        Reply::Got(value) => {
            put_got(out, value, br#","number":"#);
            put_number(out, number);
            put(out, br#","reply":"got","told":"taken"}"#);
        }
        Reply::Empty => put_around(
            out,
            br#"{"number":"#,
            number,
            br#","reply":"empty","told":"taken"}"#,
        ),
    }
}

fn put_row<const N: usize>(out: &mut ArrayVec<u8, N>, row: Row)
    requires { array_vec_len out.old + MAX_SHORT ≤ N }
    ensures text { out.new.items ≡ out.old.items ++ row_text row }
    ensures short { array_vec_len out.new ≤ array_vec_len out.old + MAX_SHORT }
{
    match row {
        Row::NoCall => put(out, br#"{"row":"nocall"}"#),
        Row::Open => put(out, br#"{"row":"open"}"#),
        Row::Empty => put(out, br#"{"row":"empty"}"#),
        Row::Got(value) => put_got(out, value, br#","row":"got"}"#),
    }
}
