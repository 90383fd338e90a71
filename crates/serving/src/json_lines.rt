//! Lines of JSON.

ghost use Rattle.requests.specs.Line.{meaning};

use engine::Reading;
use std::alloc::Global;
use wire::Request;
use words::Refusal;

/// Requests as lines of JSON.
pub struct JsonLines;

impl Reading for JsonLines {
    ghost meaning = { meaning };

    fn request(alloc: Global, line: &[u8]) -> Result<Request, Refusal> {
        requests::request(alloc, line)
    }
}
