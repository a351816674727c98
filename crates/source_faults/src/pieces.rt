//! Pieces of a statement, which blanks, bars and commas separate.

ghost use Rattle.std.specs.Prelude.{◌≡◌};
ghost use Rattle.asm_line.specs.Text.{is_blank};

use fault_messages::Token;
use std::alloc::{AllocError, Global};

/// A piece without the blanks at its ends.
pub(crate) fn trimmed<'t>(piece: Token<'t>) -> Token<'t> {
    let front = piece.bytes.iter().position(|b| !is_blank(*b));
    let token = piece.after(front.unwrap_or(piece.bytes.len()));
    let back = token.bytes.iter().rposition(|b| !is_blank(*b));
    match back {
        Some(last) => token.before(last.saturating_add(1)),
        None => token,
    }
}

/// What stands before the first blank of a piece, and what stands after it, without blanks at its ends.
pub(crate) fn split_head<'t>(piece: Token<'t>) -> (Token<'t>, Token<'t>) {
    match piece.bytes.iter().position(|b| is_blank(*b)) {
        Some(place) => (piece.before(place), trimmed(piece.after(place))),
        None => (piece, piece.after(piece.bytes.len())),
    }
}

/// The pieces between the places of a byte, each without blanks at its ends.
pub(crate) fn pieces<'t>(
    alloc: Global,
    piece: Token<'t>,
    byte: u8,
) -> Result<Vec<Token<'t>>, AllocError> {
    let mut pieces = Vec::new(alloc);
    let mut rest = Some(piece);
    while let Some(token) = rest {
        let (front, following) = token.cut(byte);
        pieces.push(trimmed(front))?;
        rest = following;
    }
    Ok(pieces)
}

/// Whether a piece has what begins a comment on other machines: `//`, `/*`, or `#` with no digit after it.
pub(crate) fn has_comment(piece: Token) -> bool {
    for (place, byte) in piece.bytes.iter().enumerate() {
        let next = piece.bytes.get(place.saturating_add(1)).copied();
        match (*byte, next.unwrap_or(b' ')) {
            (b'/', b'/' | b'*') => return true,
            (b'#', next) if !next.is_ascii_digit() => return true,
            _ => {}
        }
    }
    false
}

/// Whether a byte is a blank, as the reader of lines has it.
fn is_blank(byte: u8) -> bool
    ensures { result ≡ is_blank byte }
{
    byte == b' ' || byte == b'\t' || byte == b'\r'
}
