//! What ended a search, as a value of JSON.

use lab_json::{Fields, text_value};
use program_searches::SearchBound;
use serde_json::Value;
use std::alloc::{AllocError, Global};

/// Puts what ended a search as `bound`; null where nothing did.
pub fn put_bound(
    alloc: Global,
    fields: &mut Fields,
    bound: Option<SearchBound>,
) -> Result<(), AllocError> {
    serde_json::put(fields, alloc, "bound", bound_value(alloc, bound)?)
}

/// What ended a search; null where nothing did.
pub fn bound_value(alloc: Global, bound: Option<SearchBound>) -> Result<Value, AllocError> {
    match bound {
        Some(bound) => text_value(alloc, bound.json_name()),
        None => Ok(Value::Null),
    }
}
