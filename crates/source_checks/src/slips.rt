//! What is likely not meant in a right source text, as messages.

use fault_messages::{Message, Severity};
use source_slips::{Slip, source_slips};
use std::alloc::{AllocError, Global};

/// Adds to the messages about a source text what is likely not meant by the ways that its program may go; all are then in
/// the order of lines and columns.
pub(crate) fn add_slips(
    alloc: Global,
    text: &[u8],
    messages: &mut Vec<Message>,
) -> Result<(), AllocError> {
    for slip in source_slips(alloc, text)? {
        messages.push(message_of(slip))?;
    }
    messages.sort_by_key(|message| (message.line, message.column))
}

/// The warning that reports a slip.
fn message_of(slip: Slip) -> Message {
    let Slip {
        number,
        line,
        column,
        width,
        words,
        help,
        start,
    } = slip;
    Message {
        severity: Severity::Warning,
        number: Some(number),
        line,
        column,
        width,
        words,
        help: Some(help),
        start,
    }
}
