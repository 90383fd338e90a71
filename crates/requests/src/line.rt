//! A line, and the request that it asks.

ghost use Rattle.std.specs.Prelude.{◌≡◌, ◌≢◌, ◌⊎◌, [], Err, IsUtf8};
ghost use Rattle.serde_json.specs.View.{view as data_of};
ghost use Rattle.requests.specs.Line.{meaning, value_meaning, text_meaning};

use crate::rows::request_in;
use serde_json::Value;
use std::alloc::Global;
use std::str;
use wire::Request;
use words::Refusal;

/// What a JSON value means. It is refused where it is no request (BadRequest).
fn value_request(value: &Value) -> Result<Request, Refusal>
    ensures { result ≡ value_meaning (data_of value.now) }
{
    match request_in(value) {
        Some(request) => Ok(request),
        None => Err(Refusal::BadRequest),
    }
}

/// What a text means, unless memory was refused.
fn text_request(alloc: Global, text: &str) -> Result<Request, Refusal>
    ensures meant { (result ≡ text_meaning text.now) ⊎ (result ≡ Err Refusal.NoMemory) }
    ensures memory { result ≡ Err Refusal.NoMemory → text.now ≢ [] }
{
    match Value::from_str(alloc, text) {
        Ok(value) => value_request(&value),
        Err(error) if error.is_memory() => Err(Refusal::NoMemory),
        Err(_) => Err(Refusal::BadJson),
    }
}

/// The request that a line asks. It is refused where it is no JSON (BadJson), where its JSON is none of the requests
/// that are served (BadRequest), and where memory was refused (NoMemory).
#[tactic(auto, using(crate::proofs::Texts::text_meant, crate::proofs::Texts::no_text_meant))]
pub fn request(alloc: Global, line: &[u8]) -> Result<Request, Refusal>
    ensures meant { (result ≡ meaning line.now) ⊎ (result ≡ Err Refusal.NoMemory) }
    ensures memory { result ≡ Err Refusal.NoMemory → IsUtf8 line.now × (line.now ≢ []) }
{
    match str::from_utf8(line) {
        Ok(text) => text_request(alloc, text),
        Err(_) => Err(Refusal::BadJson),
    }
}
