//! Cells, read from their text.

ghost use Rattle.std.specs.Prelude.{◌≡◌, ◌++◌, codes, IfOk, IfErr, IfNone};
ghost use Rattle.asm_line.specs.SourceLines.{line_seen};
ghost use Rattle.asm_text.specs.Sources.{Means};
ghost use Rattle.case_cells.specs.declared.reading.CellsFault.TheVariants.{NoMemory};
ghost use Rattle.case_cells.specs.CellLines.{is_cells_line, program_behind, HasCellsAlone};
ghost use Rattle.case_cells.specs.CellLines.{first_other_line, HasCellsFault};

use asm_line::{SourceLine, next_source_line};
use asm_text::{AsmFault, Fault, assemble};
use image_file::Image;
use std::alloc::{AllocError, AllocFailed, Global};

/// What is put after the lines of cells, so that the assembler reads them as a program's.
const PROGRAM_BEHIND: &[u8] = b"\n .entry 0\n QUIT\n";

/// Why a text says no cells.
#[derive(Clone, Copy, Debug, PartialEq, Eq)]
pub enum CellsFault {
    /// The line of this number, from 1, has something else than a comment, `.data` or `.fill`. It is the least such
    /// line.
    Line(usize),
    /// The assembler finds this in its lines; of line 0 where there is no cell.
    Source(AsmFault),
    /// Memory was refused.
    NoMemory,
}

impl From<AllocError> for CellsFault {
    ghost from_gives = { λ _ fault. fault ≡ NoMemory };

    fn from(_error: AllocError) -> CellsFault {
        CellsFault::NoMemory
    }
}

impl<T: Drop> From<AllocFailed<T>> for CellsFault {
    ghost from_gives = { λ _ fault. fault ≡ NoMemory };

    fn from(_error: AllocFailed<T>) -> CellsFault {
        CellsFault::NoMemory
    }
}

/// The image of the cells that a text says and a program of one word, as the assembler reads them. Each line of the
/// text is one of `.data` or `.fill`, without a label, or has nothing but a comment. Else the first line that is another
/// one; else the fault that the assembler finds.
pub fn read_cells(alloc: Global, text: &[u8]) -> Result<Image, CellsFault>
    ensures means { IfOk result (Means (text.now ++ program_behind)) }
    ensures cells { IfOk result (λ _. HasCellsAlone text.now) }
    ensures fault { IfErr result (HasCellsFault text.now) }
{
    if let Some(line) = first_other_line(text) {
        return Err(CellsFault::Line(line));
    }
    let whole = program_of_cells(alloc, text)?;
    match assemble(alloc, &whole) {
        Ok(image) => Ok(image),
        Err(fault) if fault.kind == Fault::NoMemory => Err(CellsFault::NoMemory),
        Err(fault) => Err(CellsFault::Source(fault)),
    }
}

/// The source text that has these lines and a program of one word after them.
pub fn program_of_cells(alloc: Global, text: &[u8]) -> Result<Vec<u8>, AllocError>
    ensures { IfOk result (λ v. v.items ≡ text.now ++ program_behind) }
{
    let mut whole = Vec::from_slice(alloc, text)?;
    whole.extend_from_slice(PROGRAM_BEHIND)?;
    Ok(whole)
}

/// The number, from 1, of the first line that is none of cells.
fn first_other_line(text: &[u8]) -> Option<usize>
    ensures first { result ≡ first_other_line text.now }
    ensures none { IfNone result (HasCellsAlone text.now) }
{
    let mut number = 0;
    let mut rest = Some(text);
    while let Some(bytes) = rest {
        let (line, following) = next_source_line(bytes);
        number += 1;
        if !is_cells_line(&line) {
            return Some(number);
        }
        rest = following;
    }
    None
}

/// Whether a line is one of cells, or has nothing but a comment.
fn is_cells_line(line: &SourceLine) -> bool
    ensures { result ≡ is_cells_line (line_seen line.now) }
{
    let statement = line.statement;
    line.label.is_none()
        && (statement.is_empty()
            || statement.starts_with(b".data")
            || statement.starts_with(b".fill"))
}
