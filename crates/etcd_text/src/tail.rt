//! What a tail says, and its text.

ghost use Rattle.std.specs.Prelude.{◌≡◌, ◌<◌, ◌^◌, ◌++◌, ◌∷◌, ◌==◌, decimal, position, MatchOption, OnErr, OnOk};
ghost use Rattle.etcd_text.specs.Tails.{Fits, HasNoSpace, IsNoNumber, IsNoTail, IsParted, IsTailOf};
ghost use Rattle.etcd_text.specs.Tails.{said_by, spelled};

use itoa::Buffer;
use std::alloc::AllocError;
use std::str;

/// What a tail says: which generation is in use, how many pieces it has, and whose the log is.
#[derive(Clone, Copy)]
pub struct Tail<'a> {
    pub generation: u64,
    pub count: u64,
    pub owner: &'a [u8],
}

const SPACE: u8 = b' ';

/// Appends a number in decimal.
fn append_number(text: &mut Vec<u8>, number: u64) -> Result<(), AllocError>
    ensures { OnOk result (text.new.items ≡ text.old.items ++ decimal number) }
{
    let mut digits = Buffer::new();
    text.extend_from_slice(digits.format(number).as_bytes())
}

/// Appends a tail's text.
pub fn append_tail(text: &mut Vec<u8>, tail: &Tail) -> Result<(), AllocError>
    ensures { OnOk result (text.new.items ≡ text.old.items ++ spelled (said_by tail.now)) }
{
    append_number(text, tail.generation)?;
    text.extend_from_slice(&[SPACE])?;
    append_number(text, tail.count)?;
    text.extend_from_slice(&[SPACE])?;
    text.extend_from_slice(tail.owner)
}

/// Where the first space is.
fn first_space(bytes: &[u8]) -> Option<usize>
    ensures { result ≡ position (λ byte. byte == 32) bytes.now }
{
    bytes.iter().position(|byte| *byte == SPACE)
}

/// What stands before the first space, and behind it.
fn parted(bytes: &[u8]) -> Option<(&[u8], &[u8])>
    ensures { MatchOption result (HasNoSpace bytes.now) (λ parts. IsParted bytes.now parts.0.now parts.1.now) }
{
    match first_space(bytes) {
        None => None,
        Some(at) => Some((&bytes[..at], &bytes[at + 1..])),
    }
}

/// The number that is all of these bytes, if one is: in decimal, with no sign and no needless zero.
fn number_in(digits: &[u8]) -> Option<u64>
    ensures { MatchOption result (IsNoNumber digits.now) (λ n. (digits.now ≡ decimal n) × (n < 2 ^ 64)) }
{
    let Ok(text) = str::from_utf8(digits) else {
        return None;
    };
    let Ok(number) = u64::from_str_radix(text, 10) else {
        return None;
    };
    // Rust's numbers may have a sign and zeros before them. A tail has one text.
    let mut buffer = Buffer::new();
    if buffer.format(number).as_bytes() == digits {
        Some(number)
    } else {
        None
    }
}

/// The tail that these bytes are, if they are one.
pub fn tail_in(bytes: &[u8]) -> Option<Tail>
    ensures { MatchOption result (IsNoTail bytes.now) (IsTailOf bytes.now) }
{
    let Some((first, rest)) = parted(bytes) else {
        return None;
    };
    let Some((second, owner)) = parted(rest) else {
        return None;
    };
    let Some(generation) = number_in(first) else {
        return None;
    };
    let Some(count) = number_in(second) else {
        return None;
    };
    Some(Tail {
        generation,
        count,
        owner,
    })
}
