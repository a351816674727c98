//! Lines that end with a checksum of themselves, so that one which is not whole is never believed.

use crate::hex::{checksum_of, hex_of};
use std::alloc::{AllocError, Global};

/// What stands before the digits of the checksum.
const BEFORE: &str = ",\"sum\":\"";

/// What stands after them.
const AFTER: &str = "\"}";

/// How many digits there are.
const DIGITS: usize = 64;

/// The line of an object that has a member at least, with the checksum of its text as its last member `sum`.
pub(crate) fn sealed(alloc: Global, object: &str) -> Result<String, AllocError> {
    let digits = digits_of(alloc, object)?;
    let open = object.strip_suffix('}').unwrap_or(object);
    format!(in alloc; "{open}{BEFORE}{digits}{AFTER}\n")
}

/// The object of a line, without the checksum, which is that of the object; None of a line that is not whole.
pub(crate) fn unsealed(alloc: Global, line: &str) -> Result<Option<String>, AllocError> {
    let Some((open, digits)) = split(line) else {
        return Ok(None);
    };
    let object = format!(in alloc; "{open}}}")?;
    let wanted = digits_of(alloc, &object)?;
    if wanted.as_str() == digits {
        Ok(Some(object))
    } else {
        Ok(None)
    }
}

/// The digits of a text's checksum. It has no clause, so that of [`checksum_of`] burdens no proof above it.
fn digits_of(alloc: Global, text: &str) -> Result<String, AllocError> {
    hex_of(alloc, &checksum_of(text.as_bytes()))
}

/// A line's object without its end, and the digits of its checksum.
fn split(line: &str) -> Option<(&str, &str)> {
    let rest = line.strip_suffix(AFTER)?;
    let start = rest.len().checked_sub(DIGITS)?;
    let digits = rest.get(start..)?;
    let open = rest.get(..start)?.strip_suffix(BEFORE)?;
    Some((open, digits))
}
