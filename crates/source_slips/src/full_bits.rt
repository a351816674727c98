//! References that wait for what never comes.

use crate::full_bit_changes::FullBitChanges;
use crate::program::ProgramWords;
use crate::references::ProgramReference;
use crate::spots::{SlipKind, Slips};
use crate::stuck_references::stuck_references;
use asm_line::names;
use image_file::Image;
use insn_word::MemoryOp;
use std::alloc::AllocError;

/// Warns of each reference that waits for a word which is full from the start on, or empty, and which nothing turns;
/// and if the program shows where its streams go, of each for whose word that comes only after such waits. It warns of
/// none if waiting has a limit, if the program fills no word at all, if data words have other tags than full, or if a
/// TAGSET may let a word forward references to another one.
pub(crate) fn warn_of_full_bits(
    slips: &mut Slips,
    image: &Image,
    program: &ProgramWords,
    references: &[ProgramReference],
) -> Result<(), AllocError> {
    let cells = image.cells();
    let fills = references.iter().any(|reference| reference.may_fill());
    let sets_tags = references
        .iter()
        .any(|reference| reference.part.op == MemoryOp::TagSet);
    if image.retry_limit() > 0 || !fills || sets_tags {
        return Ok(());
    }
    let turns = FullBitChanges::of(slips.alloc(), references, cells.len())?;
    let stuck = stuck_references(slips.alloc(), image, program, references)?;
    for reference in references {
        if slips.is_full() {
            return Ok(());
        }
        let Some(cell) = reference.cell(cells.len()) else {
            continue;
        };
        let is_full = cells.get(cell).is_some_and(|word| word.is_full());
        if reference.waits_for() != Some(!is_full) {
            continue;
        }
        if !turns.may_turn(cell, is_full) {
            warn_of_word(slips, reference, cell, is_full)?;
        } else if stuck.get(reference.place).copied().unwrap_or(false) {
            warn_of_first(slips, reference, cell, is_full)?;
        }
    }
    Ok(())
}

/// Warns of a reference to a data word that begins as it must not be and that nothing turns.
fn warn_of_word(
    slips: &mut Slips,
    reference: &ProgramReference,
    cell: usize,
    is_full: bool,
) -> Result<(), AllocError> {
    if is_full {
        warn_of_full(slips, reference, cell)
    } else {
        warn_of_empty(slips, reference, cell)
    }
}

fn warn_of_empty(
    slips: &mut Slips,
    reference: &ProgramReference,
    cell: usize,
) -> Result<(), AllocError> {
    let alloc = slips.alloc();
    let name = names::memory(reference.part.op);
    let address = cell.saturating_mul(8);
    let words = format!(in alloc;
        "[{address}] begins empty, and nothing fills it: this {name} waits forever"
    )?;
    let help = match slips.data_line(cell) {
        Some(line) => {
            format!(in alloc; "fill it by STORE.S, or let it begin full: .data 0 on line {line}")?
        }
        None => String::from_str(alloc, "fill it by STORE.S, or let it begin full: .data 0")?,
    };
    slips.warn(SlipKind::EndlessWait, reference.place, words, help)
}

fn warn_of_full(
    slips: &mut Slips,
    reference: &ProgramReference,
    cell: usize,
) -> Result<(), AllocError> {
    let alloc = slips.alloc();
    let name = names::memory(reference.part.op);
    let address = cell.saturating_mul(8);
    let words = format!(in alloc;
        "[{address}] begins full, and nothing empties it: this {name} waits forever"
    )?;
    let help = match slips.data_line(cell) {
        Some(line) => {
            format!(in alloc; "let it begin empty: .data 0, 0 on line {line}; or write STORE.N")?
        }
        None => String::from_str(alloc, "let it begin empty: .data 0, 0; or write STORE.N")?,
    };
    slips.warn(SlipKind::EndlessWait, reference.place, words, help)
}

/// Warns of a reference for whose word what it waits for comes only after such waits.
fn warn_of_first(
    slips: &mut Slips,
    reference: &ProgramReference,
    cell: usize,
    is_full: bool,
) -> Result<(), AllocError> {
    let alloc = slips.alloc();
    let name = names::memory(reference.part.op);
    let address = cell.saturating_mul(8);
    let (begins, turns) = if is_full {
        ("full", "empties")
    } else {
        ("empty", "fills")
    };
    let words = format!(in alloc;
        "[{address}] begins {begins}, and a stream {turns} it only after a wait like this: this {name} waits forever"
    )?;
    let data = if is_full { ".data 0, 0" } else { ".data 0" };
    let begun = if is_full {
        "let it begin empty"
    } else {
        "a lock begins full"
    };
    let help = match slips.data_line(cell) {
        Some(line) => format!(in alloc; "{begun}: {data} on line {line}")?,
        None => format!(in alloc; "{begun}: {data}")?,
    };
    slips.warn(SlipKind::NobodyFirst, reference.place, words, help)
}
