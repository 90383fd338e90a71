//! Names of queues.

ghost use Rattle.std.specs.Prelude.{◌≡◌, ◌↔◌, ◌&&◌, ◌==◌, ◌∷◌, [], ◌≤◌, ℕ, List, length, IsOk, IfOk, IfErr, IfSome, Some, None, if◌then◌else◌, position};
ghost use Rattle.std.specs.List.{list_all, position_or_len};
ghost use Rattle.directory.specs.Name.{is_name_byte, is_name, IsName, name_row, first_word, second_word, row_of, spells, name_of, HasWords};

use std::fmt;
use std::marker::Model;
use words::Refusal;

/// The most bytes of a name.
pub const NAME_BYTES: usize = 16;

/// The bytes of a word.
const WORD_BYTES: usize = 8;

/// The name of a queue: 1 to 16 bytes of `a-z`, `0-9`, `_` and `-`.
#[derive(Clone, Copy, Debug, PartialEq, Eq)]
pub struct Name {
    /// The bytes, and zeros behind them.
    row: [u8; NAME_BYTES],
    len: usize,
}

impl Model for Name {
    ghost use Rattle.std.specs.Prelude.{ℕ, List, length, take, refl};
    ghost use Rattle.directory.specs.Name.{IsRowOf, name_row, row_again, length_again};

    ghost Value = { List ℕ };

    ghost view = { λ n. take n.len n.row };

    ghost invariant = { λ n. IsRowOf n.row n.len };

    ghost inverse = { λ name. record { row = name_row name; len = length name } };

    ghost inverse_ok = { λ n h. Prim.rw (row_again n.row n.len h, length_again n.row n.len h) refl };
}

/// Whether a name may have the byte.
fn is_name_byte(byte: u8) -> bool
    ensures { result ≡ is_name_byte byte }
{
    matches!(byte, b'a'..=b'z' | b'0'..=b'9' | b'_' | b'-')
}

/// Whether a name may have each of the bytes.
fn are_name_bytes(bytes: &[u8]) -> bool
    ensures { result ≡ list_all is_name_byte bytes.now }
{
    bytes.iter().all(|b| is_name_byte(*b))
}

/// Whether the bytes are a name.
fn is_name(bytes: &[u8]) -> bool
    ensures { result ≡ is_name bytes.now }
{
    bytes.len() >= 1 && bytes.len() <= NAME_BYTES && are_name_bytes(bytes)
}

/// The bytes with zeros behind them.
fn padded(bytes: &[u8]) -> [u8; NAME_BYTES]
    requires { length bytes.now ≤ NAME_BYTES }
    ensures { result ≡ name_row bytes.now }
{
    let mut row = [0; NAME_BYTES];
    row[..bytes.len()].copy_from_slice(bytes);
    row
}

/// The bytes of two words.
fn row_of(first: u64, second: u64) -> [u8; NAME_BYTES]
    ensures { result ≡ row_of first second }
{
    let mut row = [0; NAME_BYTES];
    row[..WORD_BYTES].copy_from_slice(&first.to_le_bytes());
    row[WORD_BYTES..].copy_from_slice(&second.to_le_bytes());
    row
}

/// Where the first zero is.
fn first_zero(row: &[u8]) -> Option<usize>
    ensures { result ≡ position (λ b. b == 0) row.now }
{
    row.iter().position(|b| *b == 0)
}

/// How many bytes come before the first zero.
fn text_len(row: &[u8]) -> usize
    ensures value { result ≡ position_or_len (λ b. b == 0) row.now }
    ensures within { result ≤ length row.now }
{
    match first_zero(row) {
        Some(end) => end,
        None => row.len(),
    }
}

impl Name {
    /// The name of these bytes. It is refused where they are no name (BadName).
    pub fn make(bytes: &[u8]) -> Result<Self, Refusal>
        ensures ok { IsOk result ↔ IsName bytes.now }
        ensures made { IfOk result (λ name. name ≡ bytes.now) }
        ensures bad_name { IfErr result (λ e. e ≡ Refusal.BadName) }
    {
        match Name::of(bytes) {
            Some(name) => Ok(name),
            None => Err(Refusal::BadName),
        }
    }

    /// The name that two words spell, if they spell one.
    pub fn from_words(first: u64, second: u64) -> Option<Self>
        ensures { result ≡ name_of first second }
    {
        let row = row_of(first, second);
        Name::spelled(&row[..text_len(&row)], first, second)
    }

    /// The name of these bytes, if they are one, and it has these words.
    fn spelled(bytes: &[u8], first: u64, second: u64) -> Option<Self>
        ensures { result ≡ (if spells bytes.now first second then Some bytes.now else None) }
    {
        let name = Name::of(bytes)?;
        if name.has_words(first, second) {
            Some(name)
        } else {
            None
        }
    }

    /// The name of these bytes, if they are one.
    fn of(bytes: &[u8]) -> Option<Self>
        ensures { result ≡ (if is_name bytes.now then Some bytes.now else None) }
    {
        if !is_name(bytes) {
            return None;
        }
        Some(Name {
            row: padded(bytes),
            len: bytes.len(),
        })
    }

    fn has_words(&self, first: u64, second: u64) -> bool
        ensures { result ≡ (first_word self.now == first && second_word self.now == second) }
    {
        let [own_first, own_second] = self.words();
        own_first == first && own_second == second
    }

    /// Its bytes in two little-endian words, with zeros behind them: of `a`, 97 and 0.
    pub fn words(&self) -> [u64; 2]
        ensures { result ≡ first_word self.now ∷ second_word self.now ∷ [] }
    {
        let (first, rest) = self.row.split_first_chunk::<WORD_BYTES>().unwrap();
        let second = rest.first_chunk::<WORD_BYTES>().unwrap();
        [u64::from_le_bytes(*first), u64::from_le_bytes(*second)]
    }

    /// Its text.
    #[tactic(auto, using(crate::proofs::Rows::name_text))]
    pub fn as_str(&self) -> &str
        ensures { result.now ≡ self.now }
    {
        let Ok(text) = str::from_utf8(self.as_bytes()) else {
            // Its bytes are ASCII.
            unreachable!();
        };
        text
    }

    /// Its bytes.
    pub fn as_bytes(&self) -> &[u8]
        ensures bytes { result.now ≡ self.now }
        ensures name { IsName result.now }
    {
        &self.row[..self.len]
    }
}

/// Its text: `orders-2`.
impl fmt::Display for Name {
    ghost use Rattle.std.specs.Prelude.{Some};

    ghost output = { λ name. Some name };

    fn fmt<W: fmt::Write>(&self, f: &mut fmt::Formatter<W>) -> fmt::Result {
        let text = self.as_str();
        write!(f, "{text}")
    }
}

/// Two words spell the name whose words they are, and no other; so names and the words that spell one give each other
/// back.
#[tactic(auto, using(crate::proofs::Rows::found, crate::proofs::Rows::own))]
pub fn words_spell_names()
    ensures found { (name : List ℕ) (first second : ℕ) → HasWords name first second
        → name_of first second ≡ Some name }
    ensures own { (first second : ℕ) → IfSome (name_of first second) (λ name. HasWords name first second) }
{}
