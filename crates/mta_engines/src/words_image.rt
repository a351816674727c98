//! The image that the command `words` runs ("What `words` runs", docs/MACHINE.md).
ghost use Rattle.std.specs.Prelude.{◌≡◌, ◌≤◌, length, IfOk};
ghost use Rattle.image_file.specs.ImageValue.{most_program_words};
ghost use Rattle.mta_engines.specs.WordsMachine.{words_image};

use image_file::Image;
use std::alloc::{AllocError, Global};
use tag_memory::{Tags, Word};

/// The trap entry that names no handler.
const NO_HANDLER: u32 = u32::MAX;

/// The image of a program of 1 to 65,536 words: one stream at the first of them, and one full word 0.
pub(crate) fn words_image(alloc: Global, mut program: Vec<u64>) -> Result<Image, AllocError>
    requires some { 1 ≤ length program.items }
    requires few { length program.items ≤ most_program_words }
    ensures { IfOk result (λ image. image ≡ words_image program.items) }
{
    let mut entries = Vec::from_slice(alloc, &[0])?;
    let mut cells = Vec::from_slice(alloc, &[Word::new(0, Tags::FULL)])?;
    match Image::from_parts(&mut entries, 1, 0, NO_HANDLER, &mut program, &mut cells) {
        Ok(image) => Ok(image),
        Err(_) => unreachable!(),
    }
}
