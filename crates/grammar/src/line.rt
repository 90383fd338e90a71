//! The words of a line, and the numbers and values among them.

ghost use Rattle.std.specs.Prelude.{◌≡◌, ◌≢◌, ◌↔◌, ◌==◌, ◌<◌, ◌^◌, ℕ, ◌∷◌, [], MatchOption, IsTrue, decimal, position, false};
ghost use Rattle.words.specs.PlainQueue.{Value, FitsValue};
ghost use Rattle.words.specs.Text.{value_text};
ghost use Rattle.grammar.specs.Lines.{words_of, BeginsWith, HasPlainStart, IsOneWord, NothingFollows};
ghost use Rattle.grammar.specs.Limits.{IsWithin};
ghost use Rattle.grammar.specs.Reading.{number_and_value_words, numbers_and_value_words, Reads, Reads₂, Reads₃};

use crate::limits::Limits;
use std::str;
use words::{Item, Value};

/// Whether a word begins as no number does: with a sign, or with a needless zero.
fn begins_wrong(word: &[u8]) -> bool
    ensures wrong { IsTrue result → (n : ℕ) → n < 2 ^ 64 → word.now ≢ decimal n }
    ensures right { result ≡ false → HasPlainStart word.now }
{
    // Rust's `parse` takes both. Here a number has one spelling, so that a text says what it says to the letter.
    match word.first() {
        Some(b'+') => true,
        Some(b'0') => word.len() > 1,
        _ => false,
    }
}

/// A number as scripts write it: decimal, without sign or needless leading zeros, below 2^64.
fn number(word: &[u8]) -> Option<u64>
    ensures { MatchOption result ((n : ℕ) → n < 2 ^ 64 → word.now ≢ decimal n) (λ n. word.now ≡ decimal n) }
{
    if begins_wrong(word) {
        return None;
    }
    match str::from_utf8(word) {
        Ok(text) => text.parse().ok(),
        Err(_) => None,
    }
}

/// A number within limits.
fn number_within(word: &[u8], limits: Limits) -> Option<u64>
    ensures { Reads decimal (IsWithin limits) word.now result }
{
    let n = number(word)?;
    if n < limits.least || n > limits.most {
        return None;
    }
    Some(n)
}

/// The value that a word is: two lowercase hexadecimal digits for each of its bytes, or `.` where it has none.
fn value(word: &[u8]) -> Option<Value>
    ensures { Reads value_text FitsValue word.now result }
{
    if word.is_empty() {
        return None;
    }
    if word == b".".as_slice() {
        return Item::of_hex(&[]);
    }
    Item::of_hex(word)
}

/// Where the first space of a text is.
fn first_space(text: &[u8]) -> Option<usize>
    ensures { result ≡ position (λ byte. byte == 32) text.now }
{
    text.iter().position(|byte| *byte == b' ')
}

/// The first word of a text, and what follows the space after it, if it has one. A word may be empty.
pub fn first_word(text: &[u8]) -> (&[u8], Option<&[u8]>)
    ensures { MatchOption result.1 (IsOneWord text.now result.0.now)
        (λ rest. BeginsWith text.now result.0.now rest.now) }
{
    match first_space(text) {
        None => (text, None),
        Some(at) => (&text[..at], Some(&text[at + 1..])),
    }
}

/// What follows a name and one space.
pub fn after_name<'a>(line: &'a [u8], name: &[u8]) -> Option<&'a [u8]>
    ensures { MatchOption result (NothingFollows line.now name.now)
        (λ rest. BeginsWith line.now name.now rest.now) }
{
    let (word, rest) = first_word(line);
    if word == name { rest } else { None }
}

/// Whether a line is a name alone.
pub fn is_name(line: &[u8], name: &[u8]) -> bool
    ensures { IsTrue result ↔ IsOneWord line.now name.now }
{
    match first_word(line) {
        (word, None) => word == name,
        (_, Some(_)) => false,
    }
}

/// The number that is all of a text.
pub fn one_number(text: &[u8], limits: Limits) -> Option<u64>
    ensures { Reads (λ n. decimal n ∷ []) (IsWithin limits) (words_of text.now) result }
{
    let (word, rest) = first_word(text);
    if rest.is_some() {
        return None;
    }
    number_within(word, limits)
}

/// The value that is all of a text.
pub fn one_value(text: &[u8]) -> Option<Value>
    ensures { Reads (λ value. value_text value ∷ []) FitsValue (words_of text.now) result }
{
    let (word, rest) = first_word(text);
    if rest.is_some() {
        return None;
    }
    value(word)
}

/// The number and the value that are all of a text.
pub fn number_and_value(text: &[u8], limits: Limits) -> Option<(u64, Value)>
    ensures { Reads₂ number_and_value_words (IsWithin limits) FitsValue (words_of text.now) result }
{
    let (word, rest) = first_word(text);
    let n = number_within(word, limits)?;
    let value = one_value(rest?)?;
    Some((n, value))
}

/// The two numbers that are all of a text.
pub fn two_numbers(text: &[u8], first: Limits, second: Limits) -> Option<(u64, u64)>
    ensures { Reads₂ (λ m n. decimal m ∷ decimal n ∷ []) (IsWithin first) (IsWithin second)
        (words_of text.now) result }
{
    let (word, rest) = first_word(text);
    let m = number_within(word, first)?;
    let n = one_number(rest?, second)?;
    Some((m, n))
}

/// The two numbers and the value that are all of a text.
pub fn numbers_and_value(text: &[u8], first: Limits, second: Limits) -> Option<(u64, u64, Value)>
    ensures { Reads₃ numbers_and_value_words (IsWithin first) (IsWithin second) FitsValue
        (words_of text.now) result }
{
    let (word, rest) = first_word(text);
    let m = number_within(word, first)?;
    let (n, value) = number_and_value(rest?, second)?;
    Some((m, n, value))
}
