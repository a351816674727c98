//! The one layout, as edits.

ghost use Rattle.std.specs.Prelude.{◌≡◌, IfOk, IfSome};
ghost use Rattle.editor_texts.specs.Edits.{edited, edits_seen};
ghost use Rattle.source_layout.specs.Comments.{comments_of};
ghost use Rattle.source_layout.specs.SameMeaning.{MeanOneImage};

use editor_texts::{TextEdit, edits_between};
use source_layout::laid_out;
use std::alloc::{AllocError, Global};

/// The edits after which a text has the one layout, which `laid_out` gives it: no line moves. None where it has none. Only
/// memory can be missing.
#[tactic(auto, using(crate::proofs::SameTexts::image_of_same, crate::proofs::SameTexts::comments_of_same))]
pub fn layout_edits(alloc: Global, text: &[u8]) -> Result<Option<Vec<TextEdit>>, AllocError>
    ensures image { IfOk result (λ o. IfSome o (λ es. MeanOneImage (edited 0 text.now (edits_seen es.items)) text.now)) }
    ensures comments { IfOk result (λ o. IfSome o (λ es.
        comments_of (edited 0 text.now (edits_seen es.items)) ≡ comments_of text.now)) }
{
    let Some(laid) = laid_out(alloc, text)? else {
        return Ok(None);
    };
    match edits_between(alloc, text, &laid)? {
        Some(edits) => Ok(Some(edits)),
        None => Ok(None),
    }
}
