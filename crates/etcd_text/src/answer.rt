//! What etcd answers.

ghost use Rattle.std.specs.Prelude.{◌≡◌, Err, Some, None, IfOk, option_map};
ghost use Rattle.serde_json.specs.View.{view as data_of};
ghost use Rattle.etcd_text.specs.Answers.{bytes_in, found_in, meaning, meant_by, range_meaning, told_in};
ghost use Rattle.etcd_text.specs.Answers.{succeeded, text_meaning, transaction_meaning, value_meaning, value_of};

use base64::DecodeAllocError;
use base64::engine::general_purpose::STANDARD;
use serde_json::Value as Json;
use std::alloc::Global;
use std::str;

/// What etcd answers.
#[derive(Drop)]
pub enum Answer {
    /// It is done.
    Done,
    /// The value that was asked for, if there is one. A transaction that did nothing answers with the tail.
    Value(Option<Vec<u8>>),
}

/// Why an answer is not read.
#[derive(Clone, Copy, Debug, PartialEq, Eq)]
pub enum Unread {
    /// It is none that etcd gives.
    BadAnswer,
    /// Memory was refused.
    NoMemory,
}

/// The bytes that a text has in base64.
#[tactic(auto, unfolding(crate::specs::Answers::bytes_in))]
fn bytes_in(alloc: Global, text: &str) -> Result<Vec<u8>, Unread>
    ensures read { IfOk result (λ bytes. bytes_in text.now ≡ Some bytes.items) }
    ensures bad { result ≡ Err Unread.BadAnswer → bytes_in text.now ≡ None }
{
    match STANDARD.decode(alloc, text.as_bytes()) {
        Ok(bytes) => Ok(bytes),
        Err(DecodeAllocError::OutOfMemory) => Err(Unread::NoMemory),
        Err(_) => Err(Unread::BadAnswer),
    }
}

/// The value of a key and its value. An empty one is left out.
fn value_of(alloc: Global, pair: &Json) -> Result<Vec<u8>, Unread>
    ensures read { IfOk result (λ bytes. value_of (data_of pair.now) ≡ Some bytes.items) }
    ensures bad { result ≡ Err Unread.BadAnswer → value_of (data_of pair.now) ≡ None }
{
    let Some(value) = pair.get("value") else {
        return Ok(Vec::new(alloc));
    };
    let Some(text) = value.as_str() else {
        return Err(Unread::BadAnswer);
    };
    bytes_in(alloc, text)
}

/// The value that a range found, if it found one.
#[tactic(auto, unfolding(crate::specs::Answers::found_in))]
fn found_in(alloc: Global, range: &Json) -> Result<Option<Vec<u8>>, Unread>
    ensures read { IfOk result
        (λ found. found_in (data_of range.now) ≡ Some (option_map (λ bytes. bytes.items) found)) }
    ensures bad { result ≡ Err Unread.BadAnswer → found_in (data_of range.now) ≡ None }
{
    let Some(pairs) = range.get("kvs") else {
        return Ok(None);
    };
    let Some(pair) = pairs.get(0usize) else {
        return Err(Unread::BadAnswer);
    };
    match value_of(alloc, pair) {
        Ok(bytes) => Ok(Some(bytes)),
        Err(unread) => Err(unread),
    }
}

/// The range by which a transaction tells the tail that did nothing.
fn told_in(answer: &Json) -> Option<&Json>
    ensures { option_map (λ told. data_of told.now) result ≡ told_in (data_of answer.now) }
{
    answer
        .get("responses")
        .and_then(|responses| responses.get(0usize))
        .and_then(|response| response.get("response_range"))
}

/// What a range answers.
fn range_answer(alloc: Global, answer: &Json) -> Result<Answer, Unread>
    ensures read { IfOk result (λ a. range_meaning (data_of answer.now) ≡ Some (meant_by a)) }
    ensures bad { result ≡ Err Unread.BadAnswer → range_meaning (data_of answer.now) ≡ None }
{
    match found_in(alloc, answer) {
        Ok(found) => Ok(Answer::Value(found)),
        Err(unread) => Err(unread),
    }
}

/// Whether a transaction did what it was to do. What is false is left out.
fn succeeded(answer: &Json) -> Option<bool>
    ensures { result ≡ succeeded (data_of answer.now) }
{
    match answer.get("succeeded") {
        None => Some(false),
        Some(value) => value.as_bool(),
    }
}

/// What a transaction answers.
fn transaction_answer(alloc: Global, answer: &Json) -> Result<Answer, Unread>
    ensures read { IfOk result (λ a. transaction_meaning (data_of answer.now) ≡ Some (meant_by a)) }
    ensures bad { result ≡ Err Unread.BadAnswer → transaction_meaning (data_of answer.now) ≡ None }
{
    match succeeded(answer) {
        None => Err(Unread::BadAnswer),
        Some(true) => Ok(Answer::Done),
        Some(false) => match told_in(answer) {
            None => Err(Unread::BadAnswer),
            Some(told) => range_answer(alloc, told),
        },
    }
}

/// What a value answers, to a range or to a transaction.
fn value_answer(alloc: Global, is_range: bool, value: &Json) -> Result<Answer, Unread>
    ensures read { IfOk result (λ a. value_meaning is_range (data_of value.now) ≡ Some (meant_by a)) }
    ensures bad { result ≡ Err Unread.BadAnswer → value_meaning is_range (data_of value.now) ≡ None }
{
    if value.get("header").is_none() {
        return Err(Unread::BadAnswer);
    }
    if is_range {
        range_answer(alloc, value)
    } else {
        transaction_answer(alloc, value)
    }
}

/// What a text answers.
fn text_answer(alloc: Global, is_range: bool, text: &str) -> Result<Answer, Unread>
    ensures read { IfOk result (λ a. text_meaning is_range text.now ≡ Some (meant_by a)) }
    ensures bad { result ≡ Err Unread.BadAnswer → text_meaning is_range text.now ≡ None }
{
    match Json::from_str(alloc, text) {
        Ok(value) => value_answer(alloc, is_range, &value),
        Err(error) if error.is_memory() => Err(Unread::NoMemory),
        Err(_) => Err(Unread::BadAnswer),
    }
}

/// What the body of an answer says, to a range or to a transaction. It is refused where it is none of those that etcd
/// gives (BadAnswer), and for want of memory (NoMemory).
#[tactic(auto, using(crate::proofs::Bodies::text_meant, crate::proofs::Bodies::no_text_meant))]
pub fn answer_in(alloc: Global, is_range: bool, body: &[u8]) -> Result<Answer, Unread>
    ensures read { IfOk result (λ a. meaning is_range body.now ≡ Some (meant_by a)) }
    ensures bad { result ≡ Err Unread.BadAnswer → meaning is_range body.now ≡ None }
{
    match str::from_utf8(body) {
        Ok(text) => text_answer(alloc, is_range, text),
        Err(_) => Err(Unread::BadAnswer),
    }
}
