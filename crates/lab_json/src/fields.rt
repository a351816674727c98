//! Objects that are made field by field.

use crate::VERSION;
use serde_json::{Map, Value};
use std::alloc::{AllocError, Global};

/// The fields of an object.
pub type Fields = Map<String, Value>;

/// An object of this kind: its `version` and its `object`, which names the schema (share/schema). Its other fields are put
/// into it.
pub fn object_of(alloc: Global, kind: &str) -> Result<Fields, AllocError> {
    let mut fields = Map::new(alloc);
    put_number(alloc, &mut fields, "version", VERSION)?;
    put_text(alloc, &mut fields, "object", kind)?;
    Ok(fields)
}

/// Puts a field with a number.
pub fn put_number(
    alloc: Global,
    fields: &mut Fields,
    name: &str,
    number: u64,
) -> Result<(), AllocError> {
    serde_json::put(fields, alloc, name, Value::from(number))
}

/// Puts a field with a text.
pub fn put_text(
    alloc: Global,
    fields: &mut Fields,
    name: &str,
    text: &str,
) -> Result<(), AllocError> {
    let value = Value::String(String::from_str(alloc, text)?);
    serde_json::put(fields, alloc, name, value)
}
