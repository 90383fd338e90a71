//! Pieces of a text, put behind what a row of bytes has.

ghost use Rattle.std.specs.Prelude.{◌≡◌, ◌≤◌, ◌+◌, ◌*◌, ◌++◌, length, decimal};
ghost use Rattle.hex.specs.Hex.{encode_lower};
ghost use Rattle.arrayvec.specs.ArrayVec.{array_vec_len};

use crate::limits::{MAX_DIGITS, MAX_HEX};
use arrayvec::ArrayVec;
use itoa::Buffer;
use words::ITEM_BYTES;

pub(crate) const COMMA: u8 = b',';

pub(crate) const NEWLINE: u8 = b'\n';

/// Puts a piece.
pub(crate) fn put<const N: usize>(out: &mut ArrayVec<u8, N>, piece: &[u8])
    requires { array_vec_len out.old + length piece.now ≤ N }
    ensures items { out.new.items ≡ out.old.items ++ piece.now }
    ensures len { array_vec_len out.new ≡ array_vec_len out.old + length piece.now }
{
    out.try_extend_from_slice(piece).unwrap();
}

/// Puts a number.
pub(crate) fn put_number<const N: usize>(out: &mut ArrayVec<u8, N>, number: u64)
    requires { array_vec_len out.old + MAX_DIGITS ≤ N }
    ensures items { out.new.items ≡ out.old.items ++ decimal number }
    ensures len { array_vec_len out.new ≤ array_vec_len out.old + MAX_DIGITS }
{
    let mut digits = Buffer::new();
    put(out, digits.format(number).as_bytes());
}

/// Puts two lowercase hexadecimal digits for each byte.
pub(crate) fn put_hex<const N: usize>(out: &mut ArrayVec<u8, N>, bytes: &[u8])
    requires few { length bytes.now ≤ ITEM_BYTES }
    requires room { array_vec_len out.old + 2 * length bytes.now ≤ N }
    ensures items { out.new.items ≡ out.old.items ++ encode_lower bytes.now }
    ensures len { array_vec_len out.new ≡ array_vec_len out.old + 2 * length bytes.now }
{
    let mut row = [0; MAX_HEX];
    let digits = &mut row[..2 * bytes.len()];
    let Ok(()) = hex::encode_to_slice(bytes, digits) else {
        // There is room for two digits a byte.
        unreachable!();
    };
    put(out, digits);
}

/// Puts a number between two pieces.
pub(crate) fn put_around<const N: usize>(
    out: &mut ArrayVec<u8, N>,
    front: &[u8],
    number: u64,
    back: &[u8],
)
    requires { array_vec_len out.old + length front.now + MAX_DIGITS + length back.now ≤ N }
    ensures items { out.new.items ≡ out.old.items ++ (front.now ++ decimal number ++ back.now) }
    ensures len { array_vec_len out.new ≤ array_vec_len out.old + length front.now + MAX_DIGITS + length back.now }
{
    put(out, front);
    put_number(out, number);
    put(out, back);
}
