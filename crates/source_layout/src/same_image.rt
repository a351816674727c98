//! A layout that is kept where it means the same.

ghost use Rattle.std.specs.Prelude.{◌≡◌, Ok, Err, None, IfOk, IfSome};
ghost use Rattle.std.specs.Bool.{IsTrue};
ghost use Rattle.asm_line.specs.Lines.{lines};
ghost use Rattle.asm_text.specs.Sources.{meaning_of_lines};
ghost use Rattle.asm_text.specs.declared.fault.AsmFault.{AsmFault};
ghost use Rattle.source_layout.specs.Comments.{comments_of};
ghost use Rattle.source_layout.specs.SameMeaning.{MeanOneImage};

use crate::comments::have_same_comments;
use crate::lines::in_columns;
use asm_text::{Fault, assemble};
use image_file::Image;
use source_comments::ascii_comments;
use std::alloc::{AllocError, Global};

/// The text in the one layout: it means the image of the text, and has the same comments on the same lines. None where
/// the text has a fault, or where its layout would be otherwise. Comments may have any bytes. Only memory can be missing.
pub fn laid_out(alloc: Global, text: &[u8]) -> Result<Option<Vec<u8>>, AllocError>
    ensures image { IfOk result (λ o. IfSome o (λ laid. MeanOneImage laid.items text.now)) }
    ensures comments { IfOk result (λ o. IfSome o (λ laid. comments_of laid.items ≡ comments_of text.now)) }
    ensures fault { IfOk result (λ o. (e : AsmFault) → meaning_of_lines (lines text.now) ≡ Err e → o ≡ None) }
{
    let laid = in_columns(alloc, text)?;
    if !have_same_comments(alloc, &laid, text)? {
        return Ok(None);
    }
    if mean_one_image(alloc, &laid, text)? {
        Ok(Some(laid))
    } else {
        Ok(None)
    }
}

/// Whether two texts mean one image. Comments may have any bytes. Only memory can be missing.
pub fn mean_one_image(alloc: Global, text: &[u8], other: &[u8]) -> Result<bool, AllocError>
    ensures { IfOk result (λ same. IsTrue same → MeanOneImage text.now other.now) }
{
    let Some(image) = image_of(alloc, text)? else {
        return Ok(false);
    };
    match image_of(alloc, other)? {
        Some(same) => Ok(image == same),
        None => Ok(false),
    }
}

/// The image that a text means whose comments may have any bytes; None where it has a fault.
#[tactic(auto, using(crate::proofs::ByLines::means_by_lines))]
fn image_of(alloc: Global, text: &[u8]) -> Result<Option<Image>, AllocError>
    ensures { IfOk result (λ o. IfSome o (λ image. meaning_of_lines (lines text.now) ≡ Ok image)) }
{
    let ascii = ascii_comments(alloc, text)?;
    match assemble(alloc, &ascii) {
        Ok(image) => Ok(Some(image)),
        Err(fault) => no_image(fault.kind),
    }
}

/// No image, for a fault of this kind, unless memory was missing.
fn no_image(kind: Fault) -> Result<Option<Image>, AllocError>
    ensures { IfOk result (λ o. o ≡ None) }
{
    if kind == Fault::NoMemory {
        Err(AllocError)
    } else {
        Ok(None)
    }
}
