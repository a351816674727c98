//! Ends of lines.

ghost use Rattle.std.specs.Prelude.{◌≡◌, ◌++◌, IfOk, OnOk};
ghost use Rattle.editor_texts.specs.LineEnds.{ended_from, left_of, with_line_feeds};

use std::alloc::{AllocError, Global};

/// A text in which each line that ends as an editor ends it, with LF, CR LF or CR, ends with LF, as the assembler has it.
/// Only memory can be missing.
pub fn with_line_feeds(alloc: Global, text: &[u8]) -> Result<Vec<u8>, AllocError>
    ensures { IfOk result (λ ended. ended.items ≡ with_line_feeds text.now) }
{
    let mut ended = Vec::with_capacity(alloc, text.len())?;
    let mut before = 0;
    for byte in text {
        push_left(&mut ended, before, *byte)?;
        before = *byte;
    }
    Ok(ended)
}

/// Adds what is left of a byte after the one before it.
fn push_left(ended: &mut Vec<u8>, before: u8, byte: u8) -> Result<(), AllocError>
    ensures { OnOk result (ended.new.items ≡ ended.old.items ++ left_of before byte) }
{
    if byte == b'\r' {
        ended.push(b'\n')?;
    } else if byte != b'\n' || before != b'\r' {
        ended.push(byte)?;
    }
    Ok(())
}
