//! All slips of a text.

use crate::addresses::{warn_of_addresses, warn_of_pointers};
use crate::codes::warn_of_codes;
use crate::falls::warn_of_falls;
use crate::full_bits::warn_of_full_bits;
use crate::lost_results::{warn_of_lost_reads, warn_of_lost_results};
use crate::pointers::{warn_of_controls, warn_of_labels};
use crate::program::ProgramWords;
use crate::references::references_of;
use crate::rounds::warn_of_rounds;
use crate::spots::{Slip, Slips};
use asm_line::Fault;
use asm_text::assemble;
use std::alloc::{AllocError, Global};

/// What in a source text that is right is likely not meant, by the ways that its program may go; nothing where it is not
/// right. Only memory can be missing.
pub fn source_slips(alloc: Global, text: &[u8]) -> Result<Vec<Slip>, AllocError> {
    let image = match assemble(alloc, text) {
        Ok(image) => image,
        Err(fault) if fault.kind == Fault::NoMemory => return Err(AllocError),
        Err(_) => return Ok(Vec::new(alloc)),
    };
    let is_plain = image.cells().iter().all(|cell| cell.tag_number() <= 1);
    let program = ProgramWords::of(alloc, &image)?;
    let references = references_of(alloc, &program)?;
    let mut slips = Slips::of(alloc, text)?;
    warn_of_codes(&mut slips, &image, &program)?;
    warn_of_lost_results(&mut slips, &program)?;
    warn_of_lost_reads(&mut slips, &references)?;
    warn_of_labels(&mut slips, &references)?;
    warn_of_controls(&mut slips, &references)?;
    warn_of_pointers(&mut slips, &references)?;
    let endless = warn_of_rounds(&mut slips, &program)?;
    // (a word that forwards or traps leads a reference elsewhere, and a handler mends what traps)
    if is_plain && !program.goes_anywhere {
        warn_of_falls(&mut slips, &image, &program, &endless)?;
        warn_of_addresses(&mut slips, &references, image.cells().len())?;
    }
    if is_plain {
        warn_of_full_bits(&mut slips, &image, &program, &references)?;
    }
    Ok(slips.into_found())
}
