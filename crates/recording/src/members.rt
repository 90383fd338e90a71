//! Lines read from JSON.
// A clause names the data of a value, and what they say, so some are longer than 120 columns.

ghost use Rattle.std.specs.Prelude.{◌≡◌, true, is_some, false, codes, option_map, string_bytes, IfOk};
ghost use Rattle.serde_json.specs.Find.{get};
ghost use Rattle.serde_json.specs.View.{view as data_of, items_view};
ghost use Rattle.recording.specs.Members.{key_in, keys_in, keys_at, texts_in, key_at, reply_of, reply_in, said_of};
ghost use Rattle.recording.specs.Members.{told_in, tells, call_in, operation_in, rest_in, is_plain, said_in};

use crate::line::{Answered, Line, Moment, Told, Whole};
use serde_json::Value;
use std::alloc::{AllocError, Global};

/// The JSON text of a client or a value, which is a text or a whole number.
fn key(alloc: Global, value: &Value) -> Result<Option<String>, AllocError>
    ensures { IfOk result (λ key. option_map string_bytes key ≡ key_in (data_of value.now)) }
{
    if value.is_string() || value.is_u64() || value.is_i64() {
        return Ok(Some(value.to_string(alloc)?));
    }
    Ok(None)
}

/// The same of a member.
fn key_at(alloc: Global, value: &Value, name: &str) -> Result<Option<String>, AllocError>
    ensures { IfOk result (λ key. option_map string_bytes key ≡ key_at name.now (data_of value.now)) }
{
    match value.get(name) {
        Some(member) => key(alloc, member),
        None => Ok(None),
    }
}

/// The keys of a list's items, if each has one.
fn keys_of(alloc: Global, members: &[Value]) -> Result<Option<Vec<String>>, AllocError>
    ensures { IfOk result (λ keys. option_map texts_in keys ≡ keys_in (items_view members.now)) }
{
    let mut keys = Vec::new(alloc);
    for member in members {
        match key(alloc, member)? {
            Some(text) => keys.push(text)?,
            None => return Ok(None),
        }
    }
    Ok(Some(keys))
}

/// The keys of a list.
fn keys(alloc: Global, value: &Value) -> Result<Option<Vec<String>>, AllocError>
    ensures { IfOk result (λ keys. option_map texts_in keys ≡ keys_at (data_of value.now)) }
{
    match value.as_array() {
        Some(members) => keys_of(alloc, members),
        None => Ok(None),
    }
}

/// The moment at a member.
fn moment(alloc: Global, value: &Value, name: &str) -> Result<Option<Moment>, AllocError> {
    let Some(member) = value.get(name) else {
        return Ok(None);
    };
    let Some(at) = member.as_f64() else {
        return Ok(None);
    };
    Ok(Some(Moment {
        at,
        text: member.to_string(alloc)?,
    }))
}

/// What the reply of a line says.
fn answered(alloc: Global, value: &Value) -> Result<Option<Answered>, AllocError>
    ensures { IfOk result (λ answered. option_map reply_of answered ≡ reply_in (data_of value.now)) }
{
    let Some(reply) = value.get("reply").and_then(Value::as_str) else {
        return Ok(None);
    };
    match reply {
        "done" => Ok(Some(Answered::Done)),
        "empty" => Ok(Some(Answered::Empty)),
        "refused" => Ok(Some(Answered::Refused)),
        "unknown" => Ok(Some(Answered::Unknown)),
        "got" => match key_at(alloc, value, "got")? {
            Some(got) => Ok(Some(Answered::Got(got))),
            None => Ok(None),
        },
        _ => Ok(None),
    }
}

/// What a line tells of an interrupted call.
fn told(alloc: Global, value: &Value, client: String) -> Result<Option<Line>, AllocError>
    ensures { IfOk result (λ line. option_map said_of line
        ≡ option_map (tells (string_bytes client)) (told_in (data_of value.now))) }
{
    let told = match value.get("told").and_then(Value::as_str) {
        Some("nottaken") => Told::NotTaken,
        Some("taken") => match answered(alloc, value)? {
            Some(Answered::Refused) | Some(Answered::Unknown) | None => return Ok(None),
            Some(answered) => Told::Taken(answered),
        },
        _ => return Ok(None),
    };
    Ok(Some(Line::Told { client, told }))
}

/// A whole call, of which this value is put, or none.
fn whole(
    alloc: Global,
    value: &Value,
    client: String,
    puts: Option<String>,
) -> Result<Option<Line>, AllocError> {
    let Some(from) = moment(alloc, value, "from")? else {
        return Ok(None);
    };
    let to = moment(alloc, value, "to")?;
    let has_to = value.get("to").is_some();
    if has_to != to.is_some() {
        return Ok(None);
    }
    let answered = match answered(alloc, value)? {
        Some(answered) if has_to => answered,
        None if !has_to && value.get("reply").is_none() => Answered::Unknown,
        _ => return Ok(None),
    };
    Ok(Some(Line::Whole(Whole {
        client,
        puts,
        from,
        to,
        answered,
    })))
}

/// A call of a client.
fn call(
    alloc: Global,
    value: &Value,
    client: String,
    puts: Option<String>,
) -> Result<Option<Line>, AllocError>
    ensures { IfOk result (λ line. is_some (get (codes "from") (data_of value.now)) ≡ false → option_map said_of line
        ≡ call_in (string_bytes client) (option_map string_bytes puts) (data_of value.now)) }
{
    if value.get("from").is_some() {
        return whole(alloc, value, client, puts);
    }
    if value.get("reply").is_some() {
        return Ok(None);
    }
    Ok(Some(Line::Begin { client, puts }))
}

/// What a line with an `op` says.
fn operation(alloc: Global, value: &Value, op: &str) -> Result<Option<Line>, AllocError>
    ensures { IfOk result (λ line. is_plain (data_of value.now) ≡ true → option_map said_of line
        ≡ operation_in op.now (data_of value.now)) }
{
    if op == "crash" {
        return match (value.get("at").is_some(), moment(alloc, value, "at")?) {
            (false, _) => Ok(Some(Line::Crash)),
            (true, Some(moment)) => Ok(Some(Line::CrashAt(moment))),
            (true, None) => Ok(None),
        };
    }
    let Some(client) = key_at(alloc, value, "client")? else {
        return Ok(None);
    };
    match op {
        "put" => match key_at(alloc, value, "value")? {
            Some(puts) => call(alloc, value, client, Some(puts)),
            None => Ok(None),
        },
        "take" => call(alloc, value, client, None),
        _ => Ok(None),
    }
}

/// What a line of one client says that begins no call.
fn rest(alloc: Global, value: &Value) -> Result<Option<Line>, AllocError>
    ensures { IfOk result (λ line. option_map said_of line ≡ rest_in (data_of value.now)) }
{
    let Some(client) = key_at(alloc, value, "client")? else {
        return Ok(None);
    };
    if value.get("told").is_some() {
        return told(alloc, value, client);
    }
    match answered(alloc, value)? {
        Some(answered) => Ok(Some(Line::Answer { client, answered })),
        None => Ok(None),
    }
}

/// What an object says, if it is a line.
pub(crate) fn line(alloc: Global, value: &Value) -> Result<Option<Line>, AllocError>
    ensures { IfOk result (λ line. is_plain (data_of value.now) ≡ true → option_map said_of line
        ≡ said_in (data_of value.now)) }
{
    if let Some(base) = value.get("base") {
        return Ok(keys(alloc, base)?.map(|keys| Line::Base(keys)));
    }
    if let Some(left) = value.get("final") {
        return Ok(keys(alloc, left)?.map(|keys| Line::Final(keys)));
    }
    match value.get("op") {
        Some(op) => match op.as_str() {
            Some(op) => operation(alloc, value, op),
            None => Ok(None),
        },
        None => rest(alloc, value),
    }
}
