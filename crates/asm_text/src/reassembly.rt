//! The way from an image to its listing and back.

ghost use Rattle.std.specs.Prelude.{◌≡◌, IfOk, IfErr};
ghost use Rattle.asm_text.specs.Faults.{asm_no_memory};

use crate::fault::AsmFault;
use crate::listings::listing;
use crate::source::assemble;
use image_file::Image;
use std::alloc::Global;

/// The image that is assembled from an image's own listing: an image equal to the given one. The only fault is
/// `NoMemory`, on line 0.
pub fn reassemble(alloc: Global, image: &Image) -> Result<Image, AsmFault>
    ensures same { IfOk result (λ again. again ≡ image.now) }
    ensures no_memory { IfErr result (λ e. e ≡ asm_no_memory) }
{
    let text = listing(alloc, image)?;
    assemble(alloc, text.as_bytes())
}
