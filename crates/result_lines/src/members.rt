//! The members of an object, read.

use serde_json::Value;
use std::alloc::{AllocError, AllocFailed};

/// Why an object does not say what it should.
pub(crate) enum ReadFault {
    /// Memory was refused.
    NoMemory,
    /// A member is missing, or is none of the lab's.
    Damaged,
}

impl From<AllocError> for ReadFault {
    fn from(_error: AllocError) -> ReadFault {
        ReadFault::NoMemory
    }
}

impl<T: Drop> From<AllocFailed<T>> for ReadFault {
    fn from(_error: AllocFailed<T>) -> ReadFault {
        ReadFault::NoMemory
    }
}

/// What is there, or that it should be.
pub(crate) fn wanted<T>(found: Option<T>) -> Result<T, ReadFault> {
    match found {
        Some(value) => Ok(value),
        None => Err(ReadFault::Damaged),
    }
}

/// The text of a member.
pub(crate) fn text_in<'a>(object: &'a Value, name: &str) -> Result<&'a str, ReadFault> {
    wanted(object.get(name).and_then(Value::as_str))
}

/// The number of a member.
pub(crate) fn number_in(object: &Value, name: &str) -> Result<u64, ReadFault> {
    wanted(object.get(name).and_then(Value::as_u64))
}

/// The number of a member, as a count or a place.
pub(crate) fn count_in(object: &Value, name: &str) -> Result<usize, ReadFault> {
    match usize::try_from(number_in(object, name)?) {
        Ok(count) => Ok(count),
        Err(_) => Err(ReadFault::Damaged),
    }
}

/// Whether the member says so.
pub(crate) fn flag_in(object: &Value, name: &str) -> Result<bool, ReadFault> {
    wanted(object.get(name).and_then(Value::as_bool))
}

/// The values of a member.
pub(crate) fn list_in<'a>(object: &'a Value, name: &str) -> Result<&'a [Value], ReadFault> {
    match object.get(name).and_then(Value::as_array) {
        Some(values) => Ok(values),
        None => Err(ReadFault::Damaged),
    }
}

/// The member, which has to be there; None where it is null.
pub(crate) fn some_in<'a>(object: &'a Value, name: &str) -> Result<Option<&'a Value>, ReadFault> {
    let value = wanted(object.get(name))?;
    Ok(if value.is_null() { None } else { Some(value) })
}

/// The text of a member; None where it is null.
pub(crate) fn some_text_in<'a>(
    object: &'a Value,
    name: &str,
) -> Result<Option<&'a str>, ReadFault> {
    match some_in(object, name)? {
        Some(value) => Ok(Some(wanted(value.as_str())?)),
        None => Ok(None),
    }
}

/// The number of a member, as a count; None where it is null.
pub(crate) fn some_count_in(object: &Value, name: &str) -> Result<Option<usize>, ReadFault> {
    match some_in(object, name)? {
        Some(_) => Ok(Some(count_in(object, name)?)),
        None => Ok(None),
    }
}
