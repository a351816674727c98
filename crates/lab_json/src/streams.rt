//! Streams by their names.

use crate::fields::Fields;
use processor::Step;
use serde_json::Value;
use std::alloc::{AllocError, Global};

/// The name of a stream: `2.0`.
pub fn stream_value(alloc: Global, stream: Step) -> Result<Value, AllocError> {
    let p = stream.p;
    let s = stream.s;
    Ok(Value::String(format!(in alloc; "{p}.{s}")?))
}

/// Puts a field with streams, by their names.
pub fn put_streams(
    alloc: Global,
    fields: &mut Fields,
    name: &str,
    streams: &[Step],
) -> Result<(), AllocError> {
    let mut names = Vec::with_capacity(alloc, streams.len())?;
    for stream in streams {
        names.push(stream_value(alloc, *stream)?)?;
    }
    serde_json::put(fields, alloc, name, Value::Array(names))
}
