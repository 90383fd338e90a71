//! Items: what a message is.

ghost use Rattle.std.specs.Prelude.{◌≡◌, ◌↔◌, ◌≤◌, ◌<◌, ◌*◌, ℕ, List, length, take, IsOk, IfOk, IfErr, IsTrue, Some};
ghost use Rattle.std.specs.List.{list_all};
ghost use Rattle.std.specs.Str.{IsUtf8};
ghost use Rattle.hex.specs.Hex.{encode_lower};
ghost use Rattle.words.specs.Item.{AreItemParts, IsItem, item_row, item_parts, item_of_parts, row_of, item_in, is_hex, is_lower_digit, is_zero};

use crate::Refusal;
use std::fmt;
use std::marker::Model;

/// The most bytes of an item.
pub const ITEM_BYTES: usize = 24;

/// The bytes of a word.
const WORD_BYTES: usize = 8;

/// The most digits of an item: two for each byte.
const ITEM_DIGITS: usize = 48;

/// 0 to 24 bytes.
#[derive(Clone, Copy, Debug, PartialEq, Eq)]
pub struct Item {
    /// The bytes, and zeros behind them.
    row: [u8; ITEM_BYTES],
    len: usize,
}

impl Model for Item {
    ghost use Rattle.std.specs.Prelude.{ℕ, List, length, take, refl};
    ghost use Rattle.words.specs.Item.{IsRowOf, item_row, row_again, length_again};

    ghost Value = { List ℕ };

    ghost view = { λ i. take i.len i.row };

    ghost invariant = { λ i. IsRowOf i.row i.len };

    ghost inverse = { λ item. record { row = item_row item; len = length item } };

    ghost inverse_ok = { λ i h. Prim.rw (row_again i.row i.len h, length_again i.row i.len h) refl };
}

/// The bytes with zeros behind them.
fn padded(bytes: &[u8]) -> [u8; ITEM_BYTES]
    requires { length bytes.now ≤ ITEM_BYTES }
    ensures { result ≡ item_row bytes.now }
{
    let mut row = [0; ITEM_BYTES];
    row[..bytes.len()].copy_from_slice(bytes);
    row
}

/// The bytes of three words.
fn row_of(first: u64, second: u64, third: u64) -> [u8; ITEM_BYTES]
    ensures { result ≡ row_of first second third }
{
    let mut row = [0; ITEM_BYTES];
    row[..WORD_BYTES].copy_from_slice(&first.to_le_bytes());
    row[WORD_BYTES..2 * WORD_BYTES].copy_from_slice(&second.to_le_bytes());
    row[2 * WORD_BYTES..].copy_from_slice(&third.to_le_bytes());
    row
}

/// Whether each of the bytes is 0.
fn are_zeros(bytes: &[u8]) -> bool
    ensures { result ≡ list_all is_zero bytes.now }
{
    bytes.iter().all(|byte| *byte == 0)
}

/// Whether the byte is a digit or a letter from a to f.
fn is_lower_digit(byte: u8) -> bool
    ensures { result ≡ is_lower_digit byte }
{
    matches!(byte, b'0'..=b'9' | b'a'..=b'f')
}

/// Whether each of the bytes is.
fn are_lower_digits(text: &[u8]) -> bool
    ensures { result ≡ list_all is_lower_digit text.now }
{
    text.iter().all(|b| is_lower_digit(*b))
}

/// Whether the text is lowercase hexadecimal digits, at most as many as an item has.
fn is_hex(text: &[u8]) -> bool
    ensures { result ≡ is_hex text.now }
{
    text.len() <= ITEM_DIGITS && are_lower_digits(text)
}

/// Writes two lowercase hexadecimal digits for each byte.
fn write_hex(bytes: &[u8], digits: &mut [u8])
    requires { length digits.old ≡ 2 * length bytes.now }
    ensures written { digits.new ≡ encode_lower bytes.now }
    ensures text { IsUtf8 digits.new }
{
    let Ok(()) = hex::encode_to_slice(bytes, digits) else {
        // There is room for two digits a byte.
        unreachable!();
    };
}

/// The text that these bytes are.
fn text_of(bytes: &[u8]) -> &str
    requires { IsUtf8 bytes.now }
    ensures { result.now ≡ bytes.now }
{
    let Ok(text) = str::from_utf8(bytes) else {
        unreachable!();
    };
    text
}

impl Item {
    /// The item of these bytes. It is refused where they are more than 24 (BadItem).
    pub fn make(bytes: &[u8]) -> Result<Self, Refusal>
        ensures ok { IsOk result ↔ (length bytes.now ≤ ITEM_BYTES) }
        ensures made { IfOk result (λ item. item ≡ bytes.now) }
        ensures bad_item { IfErr result (λ e. e ≡ Refusal.BadItem) }
    {
        if bytes.len() > ITEM_BYTES {
            return Err(Refusal::BadItem);
        }
        Ok(Item::of(bytes))
    }

    /// The item of these bytes.
    fn of(bytes: &[u8]) -> Self
        requires { length bytes.now ≤ ITEM_BYTES }
        ensures { result ≡ bytes.now }
    {
        Item {
            row: padded(bytes),
            len: bytes.len(),
        }
    }

    /// The item of a length and three words: so many of their bytes, and all 24 where the length is above that.
    pub fn of_parts(parts: [u64; 4]) -> Self
        ensures { result ≡ item_of_parts parts }
    {
        let [len, first, second, third] = parts;
        let row = row_of(first, second, third);
        Item::of(&row[..len.min(ITEM_BYTES as u64) as usize])
    }

    /// Whether a length and three words are those of an item: the length is at most 24, and each byte past it is 0.
    pub fn are_parts(parts: [u64; 4]) -> bool
        ensures { IsTrue result ↔ AreItemParts parts }
    {
        let [len, first, second, third] = parts;
        if len > ITEM_BYTES as u64 {
            return false;
        }
        let row = row_of(first, second, third);
        are_zeros(&row[len as usize..])
    }

    /// The item that this text spells, two lowercase digits for each byte, if it spells one.
    #[tactic(auto, using(crate::proofs::Items::decoded_sized))]
    pub fn of_hex(text: &[u8]) -> Option<Self>
        ensures { result ≡ item_in text.now }
    {
        if !is_hex(text) {
            return None;
        }
        let mut row = [0; ITEM_BYTES];
        let bytes = &mut row[..text.len() / 2];
        match hex::decode_to_slice(text, bytes) {
            Ok(()) => Some(Item::of(bytes)),
            Err(_) => None,
        }
    }

    /// Its length, and its bytes in three little-endian words, with zeros behind them.
    pub fn parts(&self) -> [u64; 4]
        ensures { result ≡ item_parts self.now }
    {
        let (first, rest) = self.row.split_first_chunk::<WORD_BYTES>().unwrap();
        let (second, rest) = rest.split_first_chunk::<WORD_BYTES>().unwrap();
        let third = rest.first_chunk::<WORD_BYTES>().unwrap();
        [
            self.len as u64,
            u64::from_le_bytes(*first),
            u64::from_le_bytes(*second),
            u64::from_le_bytes(*third),
        ]
    }

    /// Its bytes.
    pub fn bytes(&self) -> &[u8]
        ensures bytes { result.now ≡ self.now }
        ensures item { IsItem result.now }
    {
        &self.row[..self.len]
    }
}

/// As a transcript spells it: two lowercase hexadecimal digits for each byte, and `.` for none.
impl fmt::Display for Item {
    ghost use Rattle.std.specs.Prelude.{Some};
    ghost use Rattle.words.specs.Item.{item_text};

    ghost output = { λ item. Some (item_text item) };

    fn fmt<W: fmt::Write>(&self, f: &mut fmt::Formatter<W>) -> fmt::Result {
        let bytes = self.bytes();
        if bytes.is_empty() {
            return write!(f, ".");
        }
        let mut row = [0; ITEM_DIGITS];
        let digits = &mut row[..2 * bytes.len()];
        write_hex(bytes, digits);
        let text = text_of(digits);
        write!(f, "{text}")
    }
}

/// An item is found again from its parts, and from its text.
pub fn items_are_found_again()
    ensures parts { (item : List ℕ) → IsItem item → item_of_parts (item_parts item) ≡ item }
    ensures text { (item : List ℕ) → IsItem item → item_in (encode_lower item) ≡ Some item }
{}
