//! Lines of files that say what is expected.

use crate::values::Object;
use serde_json::Value;
use std::alloc::{AllocError, Global};

/// A line of a file that says what is expected: its number, from 1, and what it says.
pub fn line_value(alloc: Global, number: usize, text: &str) -> Result<Value, AllocError> {
    let mut line = Object::new(alloc);
    line.put_number("line", number as u64);
    line.put_text("text", text);
    line.whole()
}
