//! What stands at the keys of a JSON object.

ghost use Rattle.std.specs.Prelude.{◌≡◌, is_some, option_map, map};
ghost use Rattle.std.specs.List.{list_all};
ghost use Rattle.serde_json.specs.Find.{get};
ghost use Rattle.serde_json.specs.View.{view as data_of};
ghost use Rattle.requests.specs.Members.{key_count, has_keys, text_at, whole_at};

use serde_json::Value;

/// How many keys it has, and 0 where it is no object.
#[tactic(auto, using(crate::proofs::Keys::members_counted))]
fn key_count(value: &Value) -> usize
    ensures { result ≡ key_count (data_of value.now) }
{
    match value.as_object() {
        Some(members) => members.len(),
        None => 0,
    }
}

/// Whether it has this key.
pub(crate) fn has_key(value: &Value, key: &str) -> bool
    ensures { result ≡ is_some (get key.now (data_of value.now)) }
{
    value.get(key).is_some()
}

/// Whether it has each of these keys.
fn has_each(value: &Value, keys: &[&str]) -> bool
    ensures { result ≡ list_all (λ key. is_some (get key.now (data_of value.now))) keys.now }
{
    keys.iter().all(|key| has_key(value, key))
}

/// Whether it has these keys, all of them and no other.
#[tactic(auto, using(crate::proofs::Keys::keys_mapped))]
pub(crate) fn has_keys(value: &Value, keys: &[&str]) -> bool
    ensures { result ≡ has_keys (map (λ key. key.now) keys.now) (data_of value.now) }
{
    key_count(value) == keys.len() && has_each(value, keys)
}

/// The text at a key, if one stands there.
pub(crate) fn text<'a>(value: &'a Value, key: &str) -> Option<&'a str>
    ensures { option_map (λ text. text.now) result ≡ text_at key.now (data_of value.now) }
{
    value.get(key).and_then(Value::as_str)
}

/// The whole number at a key, if one below 2^64 stands there, without sign, fraction or exponent.
pub(crate) fn whole(value: &Value, key: &str) -> Option<u64>
    ensures { result ≡ whole_at key.now (data_of value.now) }
{
    value.get(key).and_then(Value::as_u64)
}
