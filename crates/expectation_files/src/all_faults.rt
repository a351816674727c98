//! All faults of a file of expectations: for a program, or of its form alone.

ghost use Rattle.std.specs.Prelude.{◌≡◌, false, filter, IfOk};
ghost use Rattle.text_parts.specs.Pieces.{pieces};
ghost use Rattle.expectation_files.specs.Files.{file_said};
ghost use Rattle.expectation_files.specs.Faults.{faults_from, or_empty, file_faults, form_faults, is_of_form};
ghost use Rattle.expectation_files.specs.Faults.{widest_image};
ghost use Rattle.expectation_files.specs.Seen.{names_in};

use crate::addresses::KnownNames;
use crate::faults::{FileFault, Unread};
use crate::lines::read_line_after;
use crate::reading::read_requirements;
use image_file::Image;
use std::alloc::{AllocError, Global};
use tag_memory::{Tags, Word};
use text_parts::cut;

/// The faults of all lines of a text, for a program with these names and this image, in the order of the lines. Where no line
/// has one, that the text says nothing is the fault `Empty`. There is no fault exactly where `read_requirements` reads the
/// text, and the first one is the one that it gives.
pub fn file_faults(
    alloc: Global,
    names: KnownNames<'_, '_, '_>,
    image: &Image,
    text: &[u8],
) -> Result<Vec<FileFault>, AllocError>
    ensures { IfOk result (λ v. v.items ≡ file_faults (names_in names.entry) image.now text.now) }
{
    let faults = line_faults(alloc, names, image, text)?;
    with_empty(alloc, names, image, text, faults)
}

/// The faults of all lines of a text that no other program could mend, in the order of the lines. A name of a data word or of a
/// program word may be known to some program, so it is none, and what is wrong after it on its line is not found. Where no
/// line has one, that the text says nothing is the fault `Empty`.
pub fn form_faults(alloc: Global, text: &[u8]) -> Result<Vec<FileFault>, AllocError>
    ensures { IfOk result (λ v. v.items ≡ form_faults text.now) }
{
    let image = widest_image(alloc)?;
    let names = KnownNames {
        words: &[],
        labels: &[],
    };
    let faults = line_faults(alloc, names, &image, text)?;
    let faults = of_form(alloc, &faults)?;
    with_empty(alloc, names, &image, text, faults)
}

/// The faults of all lines of a text, in their order.
fn line_faults(
    alloc: Global,
    names: KnownNames<'_, '_, '_>,
    image: &Image,
    text: &[u8],
) -> Result<Vec<FileFault>, AllocError>
    ensures { IfOk result (λ v. v.items ≡ faults_from (names_in names.entry) image.now false 1 (pieces 10 text.now)) }
{
    let mut faults = Vec::new(alloc);
    let mut has_points = false;
    let mut number = 0;
    let mut rest = Some(text);
    while let Some(bytes) = rest {
        let (line, following) = cut(bytes, b'\n');
        number += 1;
        match read_line_after(alloc, names, image, has_points, line) {
            Ok(meaning) => has_points = has_points || meaning.is_points(),
            Err(Unread::Fault(fault)) => faults.push(FileFault::Line {
                line: number,
                fault,
            })?,
            Err(Unread::NoMemory) => return Err(AllocError),
        }
        rest = following;
    }
    Ok(faults)
}

/// The faults that are none of a program.
fn of_form(alloc: Global, faults: &[FileFault]) -> Result<Vec<FileFault>, AllocError>
    ensures { IfOk result (λ v. v.items ≡ filter is_of_form faults.now) }
{
    let mut kept = Vec::new(alloc);
    for fault in faults {
        if is_of_form(*fault) {
            kept.push(*fault)?;
        }
    }
    Ok(kept)
}

/// Whether a fault is none of a program.
fn is_of_form(fault: FileFault) -> bool
    ensures { result ≡ is_of_form fault }
{
    match fault {
        FileFault::Line { line: _, fault } => !fault.kind.is_of_program(),
        FileFault::Empty | FileFault::NoMemory => true,
    }
}

/// These faults; where there is none, that the text says nothing is one.
#[tactic(auto, using(crate::proofs::AllFaults::kept_ok, crate::proofs::AllFaults::kept_line, crate::proofs::AllFaults::kept_some, crate::proofs::AllFaults::added_empty))]
fn with_empty(
    alloc: Global,
    names: KnownNames<'_, '_, '_>,
    image: &Image,
    text: &[u8],
    mut faults: Vec<FileFault>,
) -> Result<Vec<FileFault>, AllocError>
    ensures { IfOk result (λ v. v.items ≡ or_empty (file_said (names_in names.entry) image.now text.now) faults.items) }
{
    if !faults.is_empty() {
        return Ok(faults);
    }
    match read_requirements(alloc, names, image, text) {
        Ok(_) | Err(FileFault::Line { .. }) => Ok(faults),
        Err(FileFault::Empty) => {
            faults.push(FileFault::Empty)?;
            Ok(faults)
        }
        Err(FileFault::NoMemory) => Err(AllocError),
    }
}

/// An image with all streams that images can have: 16 processors with 128 each, one program word and one data word. A file that
/// is read alone is read for it.
pub fn widest_image(alloc: Global) -> Result<Image, AllocError>
    ensures { IfOk result (λ image. image ≡ widest_image) }
{
    let mut entries = vec![in alloc; 0u32; 16]?;
    let mut program = Vec::from_slice(alloc, &[0])?;
    let mut cells = Vec::from_slice(alloc, &[Word::new(0, Tags::FULL)])?;
    match Image::from_parts(&mut entries, 128, 0, 0, &mut program, &mut cells) {
        Ok(image) => Ok(image),
        Err(_) => unreachable!(),
    }
}
