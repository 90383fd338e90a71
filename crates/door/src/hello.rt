//! What a hello says.

ghost use Rattle.std.specs.Prelude.{◌≡◌, ◌↔◌, IfOk, IsTrue, Some, option_map};
ghost use Rattle.serde_json.specs.View.{view as data_of};
ghost use Rattle.requests.specs.Members.{key_count, text_at};
ghost use Rattle.door.specs.Hello.{said, said_in, said_in_text};

use crate::secret::Secret;
use serde_json::Value;
use std::alloc::{AllocError, Global};
use std::str;

/// The keys of a hello, `op` and `secret`.
const KEYS: usize = 2;

/// How many keys it has, and 0 where it is no object.
#[tactic(auto, using(crate::proofs::Members::members_counted))]
fn key_count(value: &Value) -> usize
    ensures { result ≡ key_count (data_of value.now) }
{
    match value.as_object() {
        Some(members) => members.len(),
        None => 0,
    }
}

/// The text at a key, if one stands there.
fn text_at<'a>(value: &'a Value, key: &str) -> Option<&'a str>
    ensures { option_map (λ text. text.now) result ≡ text_at key.now (data_of value.now) }
{
    value.get(key).and_then(Value::as_str)
}

/// `{"op":"hello","secret":".."}`
#[tactic(auto, unfolding(crate::specs::Hello::said_in))]
fn said_in(value: &Value) -> Option<&str>
    ensures { option_map (λ text. text.now) result ≡ said_in (data_of value.now) }
{
    if key_count(value) != KEYS {
        return None;
    }
    match text_at(value, "op")? {
        "hello" => text_at(value, "secret"),
        _ => None,
    }
}

/// Whether a JSON value says the secret.
fn value_says(value: &Value, secret: &Secret) -> bool
    ensures { IsTrue result ↔ (said_in (data_of value.now) ≡ Some secret.now) }
{
    match said_in(value) {
        Some(text) => secret.is(text.as_bytes()),
        None => false,
    }
}

/// Whether a text does. At an `Err` memory was refused.
fn text_says(alloc: Global, text: &str, secret: &Secret) -> Result<bool, AllocError>
    ensures { IfOk result (λ says. IsTrue says ↔ (said_in_text text.now ≡ Some secret.now)) }
{
    match Value::from_str(alloc, text) {
        Ok(value) => Ok(value_says(&value, secret)),
        Err(error) if error.is_memory() => Err(AllocError),
        Err(_) => Ok(false),
    }
}

/// Whether a line does. At an `Err` memory was refused.
#[tactic(auto, using(crate::proofs::Texts::text_said, crate::proofs::Texts::no_text_said))]
pub(crate) fn line_says(alloc: Global, line: &[u8], secret: &Secret) -> Result<bool, AllocError>
    ensures { IfOk result (λ says. IsTrue says ↔ (said line.now ≡ Some secret.now)) }
{
    match str::from_utf8(line) {
        Ok(text) => text_says(alloc, text, secret),
        Err(_) => Ok(false),
    }
}
