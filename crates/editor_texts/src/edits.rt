//! Edits of a text.

ghost use Rattle.std.specs.Prelude.{◌≡◌, ◌++◌, ◌≤◌, length, take, drop, IfOk, IfSome, OnOk, IsTrue, ℕ, List};
ghost use Rattle.editor_texts.specs.Edits.{between, edited, edits_seen, are_apart};

use std::alloc::{AllocError, Global};

/// A piece of a text, and what takes its place. Places are numbers of bytes before them.
#[derive(Debug, Drop)]
pub struct TextEdit {
    /// Where the piece begins.
    pub start: usize,
    /// Where it ends.
    pub end: usize,
    /// What takes its place.
    pub text: Vec<u8>,
}

/// A text after all edits, which are of the text as it is before any of them. None if they are not in order, or
/// overlap, or reach past its end. Only memory can be missing.
pub fn edited(alloc: Global, text: &[u8], edits: &[TextEdit]) -> Result<Option<Vec<u8>>, AllocError>
    ensures is { IfOk result (λ o. IfSome o (λ t. t.items ≡ edited 0 text.now (edits_seen edits.now))) }
    ensures apart { IfOk result (λ o. IfSome o (λ t. IsTrue (are_apart 0 (length text.now) (edits_seen edits.now)))) }
{
    let mut out = Vec::with_capacity(alloc, text.len())?;
    let mut place = 0;
    for edit in edits {
        if edit.start < place || edit.end < edit.start || text.len() < edit.end {
            return Ok(None);
        }
        out.extend_from_slice(&text[place..edit.start])?;
        out.extend_from_slice(&edit.text)?;
        place = edit.end;
    }
    out.extend_from_slice(&text[place..])?;
    Ok(Some(out))
}
