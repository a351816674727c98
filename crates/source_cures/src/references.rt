//! Operands that are written as on other machines: `8(r1)`, `[8]`.

use crate::pieces::trimmed;
use fault_messages::Token;
use std::alloc::{AllocError, Global};
use std::str;

/// The last address that a displacement from r0 reaches.
pub(crate) const LAST_REACHED: u64 = 248;

/// The base and the displacement, as they are written here, of an operand that is `8(r1)`, `(r1)`, `[r1]` or `[8]`; None
/// where it is none of these, or no displacement reaches so far.
pub(crate) fn base_and_words(alloc: Global, operand: Token) -> Result<Option<String>, AllocError> {
    let text = str::from_utf8(trimmed(operand).bytes).unwrap_or("");
    if let Some(inner) = inner_of(text, "[", "]") {
        return match address_in(inner) {
            Some(address) => words_from(alloc, "r0", address),
            None => words_from(alloc, inner, 0),
        };
    }
    match text.split_once("(") {
        Some((front, rest)) => match (rest.strip_suffix(")"), address_in(front)) {
            (Some(base), Some(bytes)) => words_from(alloc, base, bytes),
            (Some(base), None) if front.is_empty() => words_from(alloc, base, 0),
            _ => Ok(None),
        },
        None => Ok(None),
    }
}

/// What stands between two signs.
fn inner_of<'t>(text: &'t str, begin: &str, end: &str) -> Option<&'t str> {
    text.strip_prefix(begin)?.strip_suffix(end)
}

/// A base with so many bytes as words; None where they are no words, or too many.
fn words_from(alloc: Global, base: &str, bytes: u64) -> Result<Option<String>, AllocError> {
    if bytes % 8 != 0 || bytes > LAST_REACHED || base.is_empty() {
        return Ok(None);
    }
    let words = bytes / 8;
    let text = format!(in alloc; "{base}, {words}")?;
    Ok(Some(text))
}

/// A decimal or hexadecimal number.
pub(crate) fn address_in(text: &str) -> Option<u64> {
    match text.strip_prefix("0x") {
        Some(digits) => u64::from_str_radix(digits, 16).ok(),
        None => text.parse::<u64>().ok(),
    }
}
