//! What is answered.

ghost use Rattle.std.specs.Prelude.{◌≡◌};

use crate::page::PAGE;
use gauges::{Gauges, metrics_text, stats_text};
use std::alloc::{AllocError, Global};

/// A status, and how it is called.
#[derive(Clone, Copy)]
pub(crate) struct Status {
    pub(crate) code: u16,
    pub(crate) reason: &'static str,
}

const OK: Status = Status {
    code: 200,
    reason: "OK",
};

const NOT_FOUND: Status = Status {
    code: 404,
    reason: "Not Found",
};

const NOT_ALLOWED: Status = Status {
    code: 405,
    reason: "Method Not Allowed",
};

/// What the body of an answer is.
const PROMETHEUS: &str = "text/plain; version=0.0.4; charset=utf-8";

const JSON: &str = "application/json";

const HTML: &str = "text/html; charset=utf-8";

const PLAIN: &str = "text/plain; charset=utf-8";

/// What is answered.
#[derive(Drop)]
pub(crate) struct Answer {
    pub(crate) status: Status,
    pub(crate) content: &'static str,
    pub(crate) body: String,
}

/// The status with which a request is refused that cannot be read, as `http1` says.
fn refused(code: u16) -> Status
    ensures { result.code ≡ code }
{
    let reason = match code {
        414 => "URI Too Long",
        431 => "Request Header Fields Too Large",
        _ => "Bad Request",
    };
    Status { code, reason }
}

/// An answer that says no more than its status.
fn bare(alloc: Global, status: Status) -> Result<Answer, AllocError> {
    let reason = status.reason;
    Ok(Answer {
        status,
        content: PLAIN,
        body: format!(in alloc; "{reason}\n")?,
    })
}

/// The answer to a request that cannot be read.
pub(crate) fn unread(alloc: Global, code: u16) -> Result<Answer, AllocError> {
    bare(alloc, refused(code))
}

/// An answer with this body.
fn told(content: &'static str, body: String) -> Answer {
    Answer {
        status: OK,
        content,
        body,
    }
}

/// The numbers as Prometheus reads them.
pub(crate) fn metrics(alloc: Global, gauges: &Gauges) -> Result<Answer, AllocError> {
    Ok(told(PROMETHEUS, metrics_text(alloc, gauges)?))
}

/// The numbers as JSON.
pub(crate) fn stats(alloc: Global, gauges: &Gauges) -> Result<Answer, AllocError> {
    Ok(told(JSON, stats_text(alloc, gauges)?))
}

/// The page that shows them.
pub(crate) fn page(alloc: Global) -> Result<Answer, AllocError> {
    Ok(told(HTML, String::from_str(alloc, PAGE)?))
}

/// What is asked for is not there.
pub(crate) fn not_found(alloc: Global) -> Result<Answer, AllocError> {
    bare(alloc, NOT_FOUND)
}

/// What is asked for is told for GET alone.
pub(crate) fn not_allowed(alloc: Global) -> Result<Answer, AllocError> {
    bare(alloc, NOT_ALLOWED)
}
