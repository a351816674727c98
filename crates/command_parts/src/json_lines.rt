//! JSON, an object a line.

use serde_json::Value;
use std::alloc::{AllocError, Global};

/// Adds an object and the end of its line.
pub fn push_object(alloc: Global, out: &mut String, value: &Value) -> Result<(), AllocError> {
    let text = value.to_string(alloc)?;
    out.push_str(&text)?;
    out.push_str("\n")
}
