//! Images read from bytes.

ghost use Rattle.std.specs.Prelude.{◌≡◌, ◌*◌, ◌≤◌, ◌⊎◌, length, Ok, Err, None, IfOk, IfErr};
ghost use Rattle.image_file.specs.declared.fault.ImageFault.TheVariants.{NoMemory};
ghost use Rattle.image_file.specs.ImageValue.{ImageValue};
ghost use Rattle.image_file.specs.Spelling.{Stands};
ghost use Rattle.image_file.specs.Header.{header_at};
ghost use Rattle.image_file.specs.Reading.{entries_from, program_from, cells_from, tags_from, tag_fault};
ghost use Rattle.image_file.specs.Reading.{header_fault, body_fault, image_fault, image_at};
ghost use Rattle.image_file.specs.Answers.{Reads, SaysFault};

use crate::checking::body_fault;
use crate::fields::{from_place, u8_of, u32_of, u64_of};
use crate::header::Header;
use crate::{Image, ImageFault};
use std::alloc::{AllocError, Global};
use tag_memory::Word;

/// So many entries, which the bytes begin with.
fn entries_of(alloc: Global, count: usize, bytes: &[u8]) -> Result<Vec<u32>, AllocError>
    requires { 4 * count ≤ length bytes.now }
    ensures { IfOk result (λ v. v.items ≡ entries_from count bytes.now) }
{
    let mut entries = Vec::with_capacity(alloc, count)?;
    let mut rest = bytes;
    for _ in 0..count {
        entries.push(u32_of(rest))?;
        rest = from_place(rest, 4);
    }
    Ok(entries)
}

/// So many program words, which the bytes begin with.
fn program_of(alloc: Global, count: usize, bytes: &[u8]) -> Result<Vec<u64>, AllocError>
    requires { 8 * count ≤ length bytes.now }
    ensures { IfOk result (λ v. v.items ≡ program_from count bytes.now) }
{
    let mut program = Vec::with_capacity(alloc, count)?;
    let mut rest = bytes;
    for _ in 0..count {
        program.push(u64_of(rest))?;
        rest = from_place(rest, 8);
    }
    Ok(program)
}

/// So many cells, which the bytes begin with.
fn cells_of(alloc: Global, count: usize, bytes: &[u8]) -> Result<Vec<Word>, AllocError>
    requires long { 9 * count ≤ length bytes.now }
    requires tags { tag_fault (tags_from count bytes.now) ≡ None }
    ensures { IfOk result (λ v. v.items ≡ cells_from count bytes.now) }
{
    let mut cells = Vec::with_capacity(alloc, count)?;
    let mut rest = bytes;
    for _ in 0..count {
        let Some(cell) = Word::from_number(u64_of(rest), u8_of(from_place(rest, 8))) else {
            unreachable!("a tag byte is at most 15");
        };
        cells.push(cell)?;
        rest = from_place(rest, 9);
    }
    Ok(cells)
}

/// The image that bytes without a fault say.
fn sound_image(alloc: Global, header: Header, bytes: &[u8]) -> Result<Image, AllocError>
    requires header { header ≡ header_at bytes.now }
    requires sound_header { header_fault bytes.now ≡ None }
    requires sound_body { body_fault bytes.now ≡ None }
    ensures { IfOk result (λ i. i ≡ image_at bytes.now) }
{
    let chain_limit = header.chain_limit as u8;
    let entries = entries_of(
        alloc,
        usize::from(header.processors),
        from_place(bytes, header.entries_place()),
    )?;
    let program = program_of(
        alloc,
        header.words as usize,
        from_place(bytes, header.program_place()),
    )?;
    let cells = cells_of(
        alloc,
        header.cells as usize,
        from_place(bytes, header.cells_place()),
    )?;
    Ok(Image {
        profile: header.profile,
        slim: header.slim,
        chain_limit,
        retry_limit: header.retry_limit,
        trap_entry: header.trap_entry,
        entries,
        program,
        cells,
    })
}

/// The image that the bytes say, or their first fault.
fn image_of(alloc: Global, bytes: &[u8]) -> Result<Image, ImageFault>
    ensures { Reads bytes.now result }
{
    let header = Header::read(bytes)?;
    if let Some(fault) = body_fault(header, bytes) {
        return Err(fault);
    }
    Ok(sound_image(alloc, header, bytes)?)
}

/// The image that the bytes stand for; else their first fault, in the order of [`ImageFault`], with the least field,
/// processor or cell.
///
/// `NoMemory` comes only where the bytes have no fault, so bytes that lie about their length are refused for that.
pub fn read_image(alloc: Global, bytes: &[u8]) -> Result<Image, ImageFault>
    // What is read is what the bytes stand for.
    ensures found { IfOk result (λ i. Stands bytes.now i) }
    // What they stand for is read, unless memory is refused.
    ensures only { (i : ImageValue) → Stands bytes.now i → (result ≡ Ok i) ⊎ (result ≡ Err NoMemory) }
    // The fault is the first one, and memory is refused only where there is none.
    ensures fault { IfErr result (λ fault. SaysFault fault (image_fault bytes.now)) }
{
    image_of(alloc, bytes)
}
