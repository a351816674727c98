//! Comments in ASCII.

ghost use Rattle.std.specs.Prelude.{◌≡◌, false, length, map, IfOk};
ghost use Rattle.text_parts.specs.Pieces.{pieces};
ghost use Rattle.asm_line.specs.Lines.{lines};
ghost use Rattle.source_comments.specs.AsciiComments.{ascii_byte, ascii_line};
ghost use Rattle.source_comments.specs.CommentWalk.{ascii_from, taken, inside_after};

use std::alloc::{AllocError, Global};

/// What stands in a comment for a byte that is not ASCII.
const FOREIGN: u8 = b'?';

/// A source text of the same length in which each byte of a comment that is not ASCII is a question mark, and each other
/// byte stays as it is. Its lines say the same to the assembler. Only memory can be missing.
#[tactic(auto, using(crate::proofs::SameLines::of_the_walk))]
pub fn ascii_comments(alloc: Global, text: &[u8]) -> Result<Vec<u8>, AllocError>
    ensures length { IfOk result (λ ascii. length ascii.items ≡ length text.now) }
    ensures bytes { IfOk result (λ ascii. pieces 10 ascii.items ≡ map ascii_line (pieces 10 text.now)) }
    ensures lines { IfOk result (λ ascii. lines ascii.items ≡ lines text.now) }
{
    walk(alloc, text)
}

/// What a walk over the bytes of a text leaves of them.
fn walk(alloc: Global, text: &[u8]) -> Result<Vec<u8>, AllocError>
    ensures { IfOk result (λ ascii. ascii.items ≡ ascii_from false text.now) }
{
    let mut ascii = Vec::with_capacity(alloc, text.len())?;
    let mut is_comment = false;
    for byte in text {
        ascii.push(taken(is_comment, *byte))?;
        is_comment = inside_after(is_comment, *byte);
    }
    Ok(ascii)
}

/// What stands for a byte that stands in a comment, or does not.
fn taken(is_comment: bool, byte: u8) -> u8
    ensures { result ≡ taken is_comment byte }
{
    if is_comment { in_ascii(byte) } else { byte }
}

/// A byte in ASCII.
fn in_ascii(byte: u8) -> u8
    ensures { result ≡ ascii_byte byte }
{
    if byte < 128 { byte } else { FOREIGN }
}

/// Whether the place after a byte is in a comment, if that of the byte is, or is not.
fn inside_after(is_comment: bool, byte: u8) -> bool
    ensures { result ≡ inside_after is_comment byte }
{
    byte != b'\n' && (is_comment || byte == b';')
}
