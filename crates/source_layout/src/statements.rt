//! Blanks within a statement.

use std::alloc::AllocError;

/// Adds a statement with one blank where it has blanks, none before a comma and one after it, and one on both sides of
/// a bar.
pub(crate) fn push_statement(out: &mut Vec<u8>, statement: &[u8]) -> Result<(), AllocError> {
    let mut is_first = true;
    let mut is_apart = false;
    for byte in statement {
        match *byte {
            b' ' | b'\t' | b'\r' => is_apart = true,
            b',' => {
                out.push(b',')?;
                is_apart = true;
                is_first = false;
            }
            other => {
                if (is_apart || other == b'|') && !is_first {
                    out.push(b' ')?;
                }
                out.push(other)?;
                is_apart = other == b'|';
                is_first = false;
            }
        }
    }
    Ok(())
}
