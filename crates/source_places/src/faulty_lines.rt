//! The lines of a text that have a fault by themselves.

ghost use Rattle.std.specs.Prelude.{◌≡◌, ◌++◌, IfOk, OnOk};
ghost use Rattle.asm_line.specs.Labels.{places_of};
ghost use Rattle.asm_line.specs.Lines.{lines};
ghost use Rattle.source_places.specs.FaultyLines.{fault_on, line_faults_from, line_faults};

use asm_line::{Fault, Item, is_word, next_source_line, read_line};
use asm_text::{Outline, outline_of};
use std::alloc::{AllocError, Global};

/// A line that has a fault by itself.
#[derive(Clone, Copy, Debug, PartialEq, Eq)]
pub struct LineFault {
    /// Its number, from 0.
    pub number: usize,
    /// The least kind of its faults.
    pub kind: Fault,
}

/// The lines of a text that have a fault by themselves, in their order, each with the least kind of its faults
/// ("Faults of a text", docs/WRITING_PROGRAMS.md). What only the text as a whole shows is not among them: a byte above
/// 7F, a directive that stands a second time, too many words or entries, or none. Only memory can be missing.
pub fn line_faults(alloc: Global, text: &[u8]) -> Result<Vec<LineFault>, AllocError>
    ensures { IfOk result (λ faults. faults.items ≡ line_faults text.now) }
{
    let outline = outline_of(alloc, text)?;
    faults_by(alloc, &outline, text)
}

/// The lines of a text with this outline that have a fault.
fn faults_by(alloc: Global, outline: &Outline, text: &[u8]) -> Result<Vec<LineFault>, AllocError>
    ensures { let o = outline.now in IfOk result (λ faults. faults.items
        ≡ line_faults_from o.profile (places_of o.labels) o.words 0 0 (lines text.now)) }
{
    let mut faults = Vec::new(alloc);
    let mut number = 0;
    let mut here = 0;
    let mut rest = Some(text);
    while let Some(bytes) = rest {
        let (line, following) = next_source_line(bytes);
        let item = read_line(
            outline.profile,
            &outline.labels,
            outline.words,
            number,
            here,
            &line,
        );
        note_fault(&mut faults, number, &item)?;
        if is_word(line.statement) {
            here += 1;
        }
        number += 1;
        rest = following;
    }
    Ok(faults)
}

/// Adds a line where it has a fault.
fn note_fault(
    faults: &mut Vec<LineFault>,
    number: usize,
    item: &Result<Item, Fault>,
) -> Result<(), AllocError>
    ensures { OnOk result (faults.new.items ≡ faults.old.items ++ fault_on number item.now) }
{
    if let Err(kind) = *item {
        faults.push(LineFault { number, kind })?;
    }
    Ok(())
}
