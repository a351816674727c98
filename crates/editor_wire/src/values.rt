//! The JSON of messages that came in.

use crate::framing::Frame;
use serde_json::Value;
use std::alloc::{AllocError, Global};

/// How many values a message may have at most. Each takes far more memory than its bytes.
pub const VALUE_LIMIT: usize = 20_000;

/// The value of a message; null where it is no JSON, or is past a limit.
pub fn message_of(alloc: Global, frame: &Frame) -> Result<Value, AllocError> {
    let Frame::Message(bytes) = frame else {
        return Ok(Value::Null);
    };
    if values_in(bytes) > VALUE_LIMIT {
        return Ok(Value::Null);
    }
    match Value::from_slice(alloc, bytes) {
        Ok(message) => Ok(message),
        Err(error) if error.is_memory() => Err(AllocError),
        Err(_) => Ok(Value::Null),
    }
}

/// How many values a text has at most. What stands within a string is none.
fn values_in(text: &[u8]) -> usize {
    let mut count: usize = 1;
    let mut state = Inside::Values;
    for byte in text {
        if state == Inside::Values && matches!(*byte, b',' | b':' | b'[' | b'{') {
            count = count.saturating_add(1);
        }
        state = state.after(*byte);
    }
    count
}

/// Where in a text of JSON a byte stands.
#[derive(Clone, Copy, PartialEq, Eq)]
enum Inside {
    /// Outside of strings.
    Values,
    /// In a string.
    Text,
    /// In a string, after a backslash.
    Escape,
}

impl Inside {
    /// Where the byte after this one stands.
    fn after(self, byte: u8) -> Inside {
        match (self, byte) {
            (Inside::Values, b'"') | (Inside::Escape, _) => Inside::Text,
            (Inside::Text, b'"') => Inside::Values,
            (Inside::Text, b'\\') => Inside::Escape,
            (place, _) => place,
        }
    }
}
