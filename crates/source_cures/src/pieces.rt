//! Pieces of a line.

use fault_messages::Token;
use std::alloc::{AllocError, Global};
use std::str;

/// The most pieces of a statement that are looked at.
const MOST_PIECES: usize = 64;

/// A piece without the blanks at its ends. Where it has nothing else, it is at its own end.
pub(crate) fn trimmed(piece: Token<'_>) -> Token<'_> {
    let front = piece.bytes.iter().position(|byte| !is_blank(*byte));
    let rest = piece.after(front.unwrap_or(piece.bytes.len()));
    match rest.bytes.iter().rposition(|byte| !is_blank(*byte)) {
        Some(last) => rest.before(last.saturating_add(1)),
        None => rest,
    }
}

/// What stands before the first blank of a piece, and what stands after it, without blanks at its ends.
pub(crate) fn split_head(piece: Token<'_>) -> (Token<'_>, Token<'_>) {
    match piece.bytes.iter().position(|byte| is_blank(*byte)) {
        Some(place) => (piece.before(place), trimmed(piece.after(place))),
        None => (piece, piece.after(piece.bytes.len())),
    }
}

/// The operands of an operation or a directive, which commas separate; of very many the first ones.
pub(crate) fn operands_of(
    alloc: Global,
    operation: Token<'_>,
) -> Result<Vec<Token<'_>>, AllocError> {
    let mut list = Vec::new(alloc);
    let (_, operands) = split_head(operation);
    if operands.bytes.is_empty() {
        return Ok(list);
    }
    let mut rest = Some(operands);
    for _ in 0..MOST_PIECES {
        let Some(operands) = rest else {
            return Ok(list);
        };
        let (operand, following) = operands.cut(b',');
        list.push(trimmed(operand))?;
        rest = following;
    }
    Ok(list)
}

/// A piece as text. It is ASCII where it stands in a statement.
pub(crate) fn text_of(piece: Token<'_>) -> &'_ str {
    str::from_utf8(piece.bytes).unwrap_or("")
}

/// Whether a piece is this text.
pub(crate) fn is_text(piece: Token<'_>, text: &str) -> bool {
    piece.bytes == text.as_bytes()
}

/// How many bytes of the line stand before the end of a piece.
pub(crate) fn end_of(piece: Token<'_>) -> usize {
    piece.start.saturating_add(piece.bytes.len())
}

/// A space, a tab or a carriage return.
pub(crate) fn is_blank(byte: u8) -> bool {
    matches!(byte, b' ' | b'\t' | b'\r')
}
