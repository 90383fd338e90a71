//! The text of a request.
// A clause that writes a text out with all that it is made of may be longer than 120 columns.

ghost use Rattle.std.specs.Prelude.{◌≡◌, ◌<◌, ◌+◌, ◌^◌, ◌++◌, string_bytes, IfOk, OnOk, Some, option_map};
ghost use Rattle.fenced.specs.Requests.{taken};
ghost use Rattle.etcd_text.specs.Asked.{HasRoom, asked_by};
ghost use Rattle.etcd_text.specs.Tails.{said_by, spelled};
ghost use Rattle.etcd_text.specs.Texts.{absent_text, compare_text, compared_text, delete_text, equal_text};
ghost use Rattle.etcd_text.specs.Texts.{both_text, failure_text, fresh_text, moving_text, next_text, older_text, piece_key, put_text};
ghost use Rattle.etcd_text.specs.Texts.{quoted, range_text, tail_key, text_of};

use crate::keys::{first_key, generation_key, piece_key, tail_key};
use crate::request::Request;
use crate::tail::{Tail, append_tail};
use base64::engine::general_purpose::STANDARD;
use std::alloc::{AllocError, Global};

/// Appends bytes in base64, between quotes.
#[tactic(auto, unfolding(crate::specs::Texts::quoted))]
fn append_quoted(text: &mut String, bytes: &[u8]) -> Result<(), AllocError>
    ensures { OnOk result (string_bytes text.new ≡ string_bytes text.old ++ quoted bytes.now) }
{
    text.push_str("\"")?;
    STANDARD.encode_string(bytes, text)?;
    text.push_str("\"")
}

/// Appends what stands before bytes, and these in base64.
fn append_field(text: &mut String, front: &str, bytes: &[u8]) -> Result<(), AllocError>
    ensures { OnOk result (string_bytes text.new ≡ string_bytes text.old ++ (front.now ++ quoted bytes.now)) }
{
    text.push_str(front)?;
    append_quoted(text, bytes)
}

/// Appends what asks for a key.
#[tactic(auto, unfolding(crate::specs::Texts::range_text))]
fn append_range(text: &mut String, key: &[u8]) -> Result<(), AllocError>
    ensures { OnOk result (string_bytes text.new ≡ string_bytes text.old ++ range_text key.now) }
{
    append_field(text, r#"{"key":"#, key)?;
    text.push_str("}")
}

/// Appends what puts a value.
fn append_put(text: &mut String, key: &[u8], bytes: &[u8]) -> Result<(), AllocError>
    ensures { OnOk result (string_bytes text.new ≡ string_bytes text.old ++ put_text key.now bytes.now) }
{
    append_field(text, r#"{"request_put":{"key":"#, key)?;
    append_field(text, r#","value":"#, bytes)?;
    text.push_str("}}")?;
    Ok(())
}

/// Appends what removes keys.
fn append_delete(text: &mut String, from: &[u8], to: &[u8]) -> Result<(), AllocError>
    ensures { OnOk result (string_bytes text.new ≡ string_bytes text.old ++ delete_text from.now to.now) }
{
    append_field(text, r#"{"request_delete_range":{"key":"#, from)?;
    append_field(text, r#","range_end":"#, to)?;
    text.push_str("}}")?;
    Ok(())
}

/// Appends that there is to be no such key.
fn append_absent(text: &mut String, key: &[u8]) -> Result<(), AllocError>
    ensures { OnOk result (string_bytes text.new ≡ string_bytes text.old ++ absent_text key.now) }
{
    append_field(text, r#"{"key":"#, key)?;
    text.push_str(r#","target":"CREATE","result":"EQUAL","create_revision":"0"}"#)?;
    Ok(())
}

/// Appends that a key is to have this value.
fn append_equal(text: &mut String, key: &[u8], value: &[u8]) -> Result<(), AllocError>
    ensures { OnOk result (string_bytes text.new ≡ string_bytes text.old ++ equal_text key.now value.now) }
{
    append_field(text, r#"{"key":"#, key)?;
    append_field(
        text,
        r#","target":"VALUE","result":"EQUAL","value":"#,
        value,
    )?;
    text.push_str("}")?;
    Ok(())
}

/// A tail's text.
fn tail_text(alloc: Global, tail: &Tail) -> Result<Vec<u8>, AllocError>
    ensures { IfOk result (λ text. text.items ≡ spelled (said_by tail.now)) }
{
    let mut text = Vec::new(alloc);
    append_tail(&mut text, tail)?;
    Ok(text)
}

/// Appends what a transaction compares the tail with.
fn append_compare(
    alloc: Global,
    text: &mut String,
    name: &str,
    seen: &Option<Tail>,
) -> Result<(), AllocError>
    ensures { OnOk result
        (string_bytes text.new ≡ string_bytes text.old ++ compare_text name.now (option_map said_by seen.now)) }
{
    let key = tail_key(alloc, name)?;
    match seen {
        None => append_absent(text, &key),
        Some(tail) => {
            let value = tail_text(alloc, tail)?;
            append_equal(text, &key, &value)
        }
    }
}

/// Appends where a transaction begins.
fn append_compared(
    alloc: Global,
    text: &mut String,
    name: &str,
    seen: &Option<Tail>,
) -> Result<(), AllocError>
    ensures { OnOk result
        (string_bytes text.new ≡ string_bytes text.old ++ compared_text name.now (option_map said_by seen.now)) }
{
    text.push_str(r#"{"compare":["#)?;
    append_compare(alloc, text, name, seen)?;
    text.push_str(r#"],"success":["#)?;
    Ok(())
}

/// Appends where it ends.
fn append_failure(alloc: Global, text: &mut String, name: &str) -> Result<(), AllocError>
    ensures { OnOk result (string_bytes text.new ≡ string_bytes text.old ++ failure_text name.now) }
{
    let key = tail_key(alloc, name)?;
    text.push_str(r#"],"failure":[{"request_range":"#)?;
    append_range(text, &key)?;
    text.push_str("}]}")?;
    Ok(())
}

/// Appends that the tail is to be this one.
fn append_new_tail(
    alloc: Global,
    text: &mut String,
    name: &str,
    tail: &Tail,
) -> Result<(), AllocError>
    ensures { OnOk result (string_bytes text.new
        ≡ string_bytes text.old ++ put_text (tail_key name.now) (spelled (said_by tail.now))) }
{
    let key = tail_key(alloc, name)?;
    let value = tail_text(alloc, tail)?;
    append_put(text, &key, &value)
}

/// A piece: its generation, its number and its bytes.
#[derive(Clone, Copy)]
struct Piece<'a> {
    generation: u64,
    number: u64,
    bytes: &'a [u8],
}

/// Appends that it is to have these bytes.
fn append_piece(
    alloc: Global,
    text: &mut String,
    name: &str,
    piece: &Piece,
) -> Result<(), AllocError>
    ensures { OnOk result (string_bytes text.new ≡ string_bytes text.old
        ++ put_text (piece_key name.now piece.now.generation piece.now.number) piece.now.bytes.now) }
{
    let key = piece_key(alloc, name, piece.generation, piece.number)?;
    append_put(text, &key, piece.bytes)
}

/// The tail of whoever takes the log.
fn taken<'a>(seen: &Option<Tail<'a>>, owner: &'a [u8]) -> Tail<'a>
    ensures { said_by result ≡ taken (option_map said_by seen.now) owner.now }
{
    match seen {
        None => Tail {
            generation: 1,
            count: 0,
            owner,
        },
        Some(tail) => Tail {
            generation: tail.generation,
            count: tail.count,
            owner,
        },
    }
}

/// Appends the transaction that moves the tail from one to another.
fn append_moving(
    alloc: Global,
    text: &mut String,
    name: &str,
    seen: &Option<Tail>,
    next: &Tail,
) -> Result<(), AllocError>
    ensures { OnOk result (string_bytes text.new ≡ string_bytes text.old
        ++ moving_text name.now (option_map said_by seen.now) (said_by next.now)) }
{
    append_compared(alloc, text, name, seen)?;
    append_new_tail(alloc, text, name, next)?;
    append_failure(alloc, text, name)?;
    Ok(())
}

/// Appends the transaction that puts a piece and leaves the tail.
fn append_fresh(
    alloc: Global,
    text: &mut String,
    name: &str,
    tail: &Tail,
    piece: &Piece,
) -> Result<(), AllocError>
    ensures { OnOk result (string_bytes text.new ≡ string_bytes text.old
        ++ fresh_text name.now (said_by tail.now) piece.now.generation piece.now.number piece.now.bytes.now) }
{
    append_compared(alloc, text, name, &Some(*tail))?;
    append_piece(alloc, text, name, piece)?;
    append_failure(alloc, text, name)?;
    Ok(())
}

/// Appends what a transaction does that puts the next piece.
fn append_both(
    alloc: Global,
    text: &mut String,
    name: &str,
    tail: &Tail,
    bytes: &[u8],
) -> Result<(), AllocError>
    requires { tail.now.count + 1 < 2 ^ 64 }
    ensures { OnOk result
        (string_bytes text.new ≡ string_bytes text.old ++ both_text name.now (said_by tail.now) bytes.now) }
{
    let piece = Piece {
        generation: tail.generation,
        number: tail.count,
        bytes,
    };
    let next = Tail {
        generation: tail.generation,
        count: tail.count + 1,
        owner: tail.owner,
    };
    append_piece(alloc, text, name, &piece)?;
    text.push_str(",")?;
    append_new_tail(alloc, text, name, &next)?;
    Ok(())
}

/// Appends the transaction that puts the next piece.
fn append_next(
    alloc: Global,
    text: &mut String,
    name: &str,
    tail: &Tail,
    bytes: &[u8],
) -> Result<(), AllocError>
    requires { tail.now.count + 1 < 2 ^ 64 }
    ensures { OnOk result
        (string_bytes text.new ≡ string_bytes text.old ++ next_text name.now (said_by tail.now) bytes.now) }
{
    append_compared(alloc, text, name, &Some(*tail))?;
    append_both(alloc, text, name, tail, bytes)?;
    append_failure(alloc, text, name)?;
    Ok(())
}

/// Appends the transaction that removes the generations below the one in use.
fn append_older(alloc: Global, text: &mut String, name: &str, tail: &Tail) -> Result<(), AllocError>
    ensures { OnOk result
        (string_bytes text.new ≡ string_bytes text.old ++ older_text name.now (said_by tail.now)) }
{
    let from = first_key(alloc, name)?;
    let to = generation_key(alloc, name, tail.generation)?;
    append_compared(alloc, text, name, &Some(*tail))?;
    append_delete(text, &from, &to)?;
    append_failure(alloc, text, name)?;
    Ok(())
}

/// Appends what asks for the tail.
fn append_question(alloc: Global, text: &mut String, name: &str) -> Result<(), AllocError>
    ensures { OnOk result (string_bytes text.new ≡ string_bytes text.old ++ range_text (tail_key name.now)) }
{
    let key = tail_key(alloc, name)?;
    append_range(text, &key)
}

/// Appends what asks for a piece.
fn append_reading(
    alloc: Global,
    text: &mut String,
    name: &str,
    generation: u64,
    number: u64,
) -> Result<(), AllocError>
    ensures { OnOk result (string_bytes text.new
        ≡ string_bytes text.old ++ range_text (piece_key name.now generation number)) }
{
    let key = piece_key(alloc, name, generation, number)?;
    append_range(text, &key)
}

/// Appends the text of a request, of the log that has this name. Memory may be refused.
pub fn append_text(
    alloc: Global,
    text: &mut String,
    name: &str,
    request: &Request,
) -> Result<(), AllocError>
    requires { HasRoom request.now }
    ensures { OnOk result (string_bytes text.new ≡ string_bytes text.old ++ text_of name.now (asked_by request.now)) }
{
    match request {
        Request::Take { seen, owner } => {
            append_moving(alloc, text, name, seen, &taken(seen, owner))
        }
        Request::Put { tail, bytes } => append_next(alloc, text, name, tail, bytes),
        Request::Fresh {
            tail,
            generation,
            number,
            bytes,
        } => {
            let piece = Piece {
                generation: *generation,
                number: *number,
                bytes,
            };
            append_fresh(alloc, text, name, tail, &piece)
        }
        Request::Place {
            tail,
            generation,
            count,
        } => {
            let next = Tail {
                generation: *generation,
                count: *count,
                owner: tail.owner,
            };
            append_moving(alloc, text, name, &Some(*tail), &next)
        }
        Request::DropOlder { tail } => append_older(alloc, text, name, tail),
        Request::Ask => append_question(alloc, text, name),
        Request::Read { generation, number } => {
            append_reading(alloc, text, name, *generation, *number)
        }
    }
}
