//! Numbers of a text.

use std::alloc::{AllocError, Global};
use text_parts::{Number, read_number};

/// A number as it is written, with its sign: decimal, hexadecimal and, where that is another, as a signed number of 64 bits.
/// None where the text is none.
pub(crate) fn number_description(alloc: Global, text: &[u8]) -> Result<Option<String>, AllocError> {
    match text.strip_prefix(b"-") {
        Some(digits) => match read_number(digits) {
            Some(Number::Word(value)) => {
                let word = value.wrapping_neg();
                Ok(Some(format!(in alloc; "-{value} = 0x{word:X}")?))
            }
            Some(Number::TooLarge) | None => Ok(None),
        },
        None => match read_number(text) {
            Some(Number::Word(value)) => Ok(Some(positive_description(alloc, value)?)),
            Some(Number::TooLarge) | None => Ok(None),
        },
    }
}

/// A number without a sign.
fn positive_description(alloc: Global, value: u64) -> Result<String, AllocError> {
    if value >> 63 == 0 {
        return format!(in alloc; "{value} = 0x{value:X}");
    }
    let below = value.wrapping_neg();
    format!(in alloc; "{value} = 0x{value:X}, signed -{below}")
}
