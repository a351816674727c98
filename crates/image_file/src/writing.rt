//! Images written as bytes ("Image files", docs/FORMATS.md).

ghost use Rattle.std.specs.Prelude.{◌≡◌, ◌<◌, ◌^◌, ◌++◌, IfOk, OnOk};
ghost use Rattle.std.specs.List.{flat_map, All};
ghost use Rattle.image_file.specs.Fields.{number_bytes};
ghost use Rattle.image_file.specs.Versions.{chain_size};
ghost use Rattle.image_file.specs.Spelling.{entry_bytes, word_bytes, cell_bytes, header_of, Stands};

use crate::Image;
use crate::fields::{put_u8, put_u16, put_u32, put_u64};
use crate::header::MAGIC;
use crate::versions::{header_length, version_of};
use insn_word::Profile;
use std::alloc::{AllocError, Global};
use tag_memory::Word;

/// Adds the chain limit, where the version of the profile has the field.
fn put_chain_limit(out: &mut Vec<u8>, profile: Profile, limit: u8) -> Result<(), AllocError>
    ensures { OnOk result (out.new.items ≡ out.old.items ++ number_bytes (chain_size profile) limit) }
{
    match profile {
        Profile::One => Ok(()),
        Profile::Two => put_u16(out, u16::from(limit)),
    }
}

/// Adds the header.
fn put_header(out: &mut Vec<u8>, image: &Image) -> Result<(), AllocError>
    ensures is { OnOk result (out.new.items ≡ out.old.items ++ header_of image.now) }
    ensures fit { OnOk result ((image.now.retry_limit < 2 ^ 32) × (image.now.trap_entry < 2 ^ 32)) }
{
    put_u32(out, MAGIC)?;
    put_u16(out, version_of(image.profile()))?;
    put_u16(out, image.processors() as u16)?;
    put_u16(out, image.slim())?;
    put_chain_limit(out, image.profile(), image.chain_limit())?;
    put_u32(out, image.retry_limit())?;
    put_u32(out, image.trap_entry())?;
    put_u32(out, image.program().len() as u32)?;
    put_u32(out, image.cells().len() as u32)?;
    Ok(())
}

/// Adds the entries.
fn put_entries(out: &mut Vec<u8>, entries: &[u32]) -> Result<(), AllocError>
    ensures { OnOk result (out.new.items ≡ out.old.items ++ flat_map entry_bytes entries.now) }
{
    for entry in entries {
        put_u32(out, *entry)?;
    }
    Ok(())
}

/// Adds the program words.
fn put_program(out: &mut Vec<u8>, program: &[u64]) -> Result<(), AllocError>
    ensures is { OnOk result (out.new.items ≡ out.old.items ++ flat_map word_bytes program.now) }
    ensures fit { All (λ w. w < 2 ^ 64) program.now }
{
    for word in program {
        put_u64(out, *word)?;
    }
    Ok(())
}

/// Adds one data word.
fn put_cell(out: &mut Vec<u8>, cell: &Word) -> Result<(), AllocError>
    ensures is { OnOk result (out.new.items ≡ out.old.items ++ cell_bytes cell.now) }
    ensures fits { cell.now.value < 2 ^ 64 }
{
    let value = cell.value();
    put_u64(out, value)?;
    put_u8(out, cell.tag_number())
}

/// Adds the data words.
fn put_cells(out: &mut Vec<u8>, cells: &[Word]) -> Result<(), AllocError>
    ensures is { OnOk result (out.new.items ≡ out.old.items ++ flat_map cell_bytes cells.now) }
    ensures fit { OnOk result (All (λ c. c.value < 2 ^ 64) cells.now) }
{
    for cell in cells {
        put_cell(out, cell)?;
    }
    Ok(())
}

/// The bytes that stand for an image, in the version of its profile: 26 or 28 of header, 4 for each processor, 8 for each program word and 9 for each
/// cell. [`read_image`](crate::read_image) of them gives the image.
pub fn write_image(alloc: Global, image: &Image) -> Result<Vec<u8>, AllocError>
    ensures { IfOk result (λ v. Stands v.items image.now) }
{
    let (program, cells) = (image.program(), image.cells());
    let header = header_length(image.profile());
    let length = header + 4 * image.processors() + 8 * program.len() + 9 * cells.len();
    let mut out = Vec::with_capacity(alloc, length)?;
    put_header(&mut out, image)?;
    put_entries(&mut out, image.entries())?;
    put_program(&mut out, program)?;
    put_cells(&mut out, cells)?;
    Ok(out)
}
