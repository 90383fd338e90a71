//! The requests that are served, a row for each.

ghost use Rattle.std.specs.Prelude.{◌≡◌, Option};
ghost use Rattle.serde_json.specs.View.{view as data_of};
ghost use Rattle.requests.specs.Rows.{name_in, value_in, kind_in, client_at, value_at, number_at, queue_at, kind_at};
ghost use Rattle.requests.specs.Rows.{is_numbered, create_in, put_in, numbered_put_in, take_in, numbered_take_in};
ghost use Rattle.requests.specs.Rows.{told_in, alone, request_in};

use crate::members::{has_key, has_keys, text, whole};
use directory::Name;
use serde_json::Value;
use wire::Request;
use words::{Item, Kind, MAX_CALL_NUMBER};

/// The name that a text is, if it is one.
fn name(text: &str) -> Option<Name>
    ensures { result ≡ name_in text.now }
{
    Name::make(text.as_bytes()).ok()
}

/// The kind that a text names.
fn kind(text: &str) -> Option<Kind>
    ensures { result ≡ kind_in text.now }
{
    match text {
        "durable" => Some(Kind::Durable),
        "log" => Some(Kind::Log),
        _ => None,
    }
}

/// The message that a text spells, if it spells one.
fn message(text: &str) -> Option<words::Value>
    ensures { result ≡ value_in text.now }
{
    Item::of_hex(text.as_bytes())
}

/// Any number below 2^64: which of them have a client is known later.
fn client_at(value: &Value) -> Option<u64>
    ensures { result ≡ client_at (data_of value.now) }
{
    whole(value, "client")
}

/// The message that stands at `value`.
#[tactic(auto, unfolding(crate::specs::Rows::value_at))]
fn value_at(value: &Value) -> Option<words::Value>
    ensures { result ≡ value_at (data_of value.now) }
{
    message(text(value, "value")?)
}

/// A number that a call can have.
#[tactic(auto, unfolding(crate::specs::Rows::number_at))]
fn number_at(value: &Value) -> Option<u64>
    ensures { result ≡ number_at (data_of value.now) }
{
    let number = whole(value, "number")?;
    if number < 1 || number > MAX_CALL_NUMBER {
        return None;
    }
    Some(number)
}

/// A text, and the name that it is: a text that is no name asks for no queue.
#[tactic(auto, unfolding(crate::specs::Rows::queue_at))]
fn queue_at(value: &Value) -> Option<Option<Name>>
    ensures { result ≡ queue_at (data_of value.now) }
{
    Some(name(text(value, "queue")?))
}

#[tactic(auto, unfolding(crate::specs::Rows::kind_at))]
fn kind_at(value: &Value) -> Option<Kind>
    ensures { result ≡ kind_at (data_of value.now) }
{
    kind(text(value, "kind")?)
}

/// `{"op":"create","queue":"a","kind":"log"}`
#[tactic(auto, unfolding(crate::specs::Rows::create_in))]
fn create(value: &Value) -> Option<Request>
    ensures { result ≡ create_in (data_of value.now) }
{
    if !has_keys(value, &["op", "queue", "kind"]) {
        return None;
    }
    let queue = queue_at(value)?;
    let kind = kind_at(value)?;
    Some(Request::Create { queue, kind })
}

/// `{"op":"put","client":0,"queue":"a","value":"05"}`
#[tactic(auto, unfolding(crate::specs::Rows::put_in))]
fn put(value: &Value) -> Option<Request>
    ensures { result ≡ put_in (data_of value.now) }
{
    if !has_keys(value, &["op", "client", "queue", "value"]) {
        return None;
    }
    Some(Request::Put {
        client: client_at(value)?,
        queue: queue_at(value)?,
        value: value_at(value)?,
        number: None,
    })
}

/// `{"op":"put","client":0,"queue":"a","value":"05","number":1}`
#[tactic(auto, unfolding(crate::specs::Rows::numbered_put_in))]
fn numbered_put(value: &Value) -> Option<Request>
    ensures { result ≡ numbered_put_in (data_of value.now) }
{
    if !has_keys(value, &["op", "client", "queue", "value", "number"]) {
        return None;
    }
    Some(Request::Put {
        client: client_at(value)?,
        queue: queue_at(value)?,
        value: value_at(value)?,
        number: Some(number_at(value)?),
    })
}

/// `{"op":"take","client":0,"queue":"a"}`
#[tactic(auto, unfolding(crate::specs::Rows::take_in))]
fn take(value: &Value) -> Option<Request>
    ensures { result ≡ take_in (data_of value.now) }
{
    if !has_keys(value, &["op", "client", "queue"]) {
        return None;
    }
    Some(Request::Take {
        client: client_at(value)?,
        queue: queue_at(value)?,
        number: None,
    })
}

/// `{"op":"take","client":0,"queue":"a","number":1}`
#[tactic(auto, unfolding(crate::specs::Rows::numbered_take_in))]
fn numbered_take(value: &Value) -> Option<Request>
    ensures { result ≡ numbered_take_in (data_of value.now) }
{
    if !has_keys(value, &["op", "client", "queue", "number"]) {
        return None;
    }
    Some(Request::Take {
        client: client_at(value)?,
        queue: queue_at(value)?,
        number: Some(number_at(value)?),
    })
}

/// `{"op":"told","client":0,"queue":"a"}`
#[tactic(auto, unfolding(crate::specs::Rows::told_in))]
fn told(value: &Value) -> Option<Request>
    ensures { result ≡ told_in (data_of value.now) }
{
    if !has_keys(value, &["op", "client", "queue"]) {
        return None;
    }
    Some(Request::Told {
        client: client_at(value)?,
        queue: queue_at(value)?,
    })
}

/// `{"op":"list"}`, and the others that have no key but `op`.
fn alone(value: &Value, request: Request) -> Option<Request>
    ensures { result ≡ alone request (data_of value.now) }
{
    if has_keys(value, &["op"]) {
        Some(request)
    } else {
        None
    }
}

/// Whether it has a number, right or wrong.
fn is_numbered(value: &Value) -> bool
    ensures { result ≡ is_numbered (data_of value.now) }
{
    has_key(value, "number")
}

/// The request that a JSON value is, if it is one.
#[tactic(auto, unfolding(crate::specs::Rows::request_in))]
pub(crate) fn request_in(value: &Value) -> Option<Request>
    ensures { result ≡ request_in (data_of value.now) }
{
    match text(value, "op")? {
        "create" => create(value),
        "list" => alone(value, Request::List),
        "put" if is_numbered(value) => numbered_put(value),
        "put" => put(value),
        "take" if is_numbered(value) => numbered_take(value),
        "take" => take(value),
        "told" => told(value),
        "crash" => alone(value, Request::Crash),
        "recover" => alone(value, Request::Recover),
        "stop" => alone(value, Request::Stop),
        _ => None,
    }
}
