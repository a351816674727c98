//! Files of the words of a case.

ghost use Rattle.std.specs.Prelude.{◌++◌, IfOk};
ghost use Rattle.asm_text.specs.Sources.{Means};
ghost use Rattle.case_cells.specs.CellLines.{program_behind};

use asm_text::AsmFault;
use case_cells::{CellsFault, program_of_cells, read_cells};
use command_parts::LabFault;
use image_file::Image;
use plain_text::plain;
use source_faults::check_source;
use std::alloc::{AllocError, Global};

/// Which lines a file of cells has.
const LINES_OF_CELLS: &str =
    "a line of cells is .data VALUE[, TAGS] or .fill COUNT, VALUE, TAGS, without a label";

/// What is said of a file of cells that gives none.
const NO_CELL: &str = "no cell is given here, so nothing replaces the submission's own";

/// An image with the cells that the text of a file gives, and a program of one word. Else what is wrong with the first line
/// that gives none.
pub fn cells_of(alloc: Global, path: &str, text: &[u8]) -> Result<Image, LabFault>
    ensures { IfOk result (Means (text.now ++ program_behind)) }
{
    match read_cells(alloc, text) {
        Ok(image) => Ok(image),
        Err(fault) => Err(cells_fault(alloc, path, text, fault)?),
    }
}

/// What is said of a file that says no cells.
fn cells_fault(
    alloc: Global,
    path: &str,
    text: &[u8],
    fault: CellsFault,
) -> Result<LabFault, AllocError> {
    match fault {
        CellsFault::NoMemory => Ok(LabFault::NoMemory),
        CellsFault::Line(line) => fault_at(alloc, path, line, LINES_OF_CELLS),
        CellsFault::Source(AsmFault { line: 0, .. }) => fault_at(alloc, path, 1, NO_CELL),
        CellsFault::Source(fault) => source_fault(alloc, path, text, fault.line),
    }
}

/// What is said of a line of `.data` or `.fill` that says no cells.
fn source_fault(
    alloc: Global,
    path: &str,
    text: &[u8],
    line: usize,
) -> Result<LabFault, AllocError> {
    let whole = program_of_cells(alloc, text)?;
    let messages = check_source(alloc, &whole)?;
    for message in &messages {
        if message.line == line {
            return fault_at(alloc, path, line, &message.words);
        }
    }
    fault_at(alloc, path, line, LINES_OF_CELLS)
}

/// What is said of a file: that this is wrong with its line of this number.
fn fault_at(alloc: Global, path: &str, line: usize, words: &str) -> Result<LabFault, AllocError> {
    let path = plain(alloc, path)?;
    Ok(LabFault::Lines(format!(in alloc; "{path}:{line}:1: error: {words}\n")?))
}
