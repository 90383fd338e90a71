//! How clients and values are shown.

use serde_json::Value;
use std::alloc::{AllocError, Global};

/// What a JSON text shows: a text without its quotes, and anything else as it stands.
pub fn shown(alloc: Global, json: &str) -> Result<String, AllocError> {
    if let Ok(value) = Value::from_str(alloc, json) {
        if let Some(text) = value.as_str() {
            return String::from_str(alloc, text);
        }
    }
    String::from_str(alloc, json)
}
