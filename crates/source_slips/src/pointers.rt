//! Pointers that are likely not meant: labels, and control bits that a program does not show.

use crate::references::ProgramReference;
use crate::spots::{SlipKind, Slips};
use asm_line::names;
use std::alloc::AllocError;
use std::str;
use tag_memory::AccessControl;

/// Warns of each reference whose base holds a label's value on every path to it.
pub(crate) fn warn_of_labels(
    slips: &mut Slips,
    references: &[ProgramReference],
) -> Result<(), AllocError> {
    for reference in references {
        if slips.is_full() {
            return Ok(());
        }
        if let Some(literal) = reference.base.literal {
            warn_of_label(slips, reference, literal)?;
        }
    }
    Ok(())
}

/// Warns of a reference whose base a LIT has set, if its operand is a label.
fn warn_of_label(
    slips: &mut Slips,
    reference: &ProgramReference,
    literal: usize,
) -> Result<(), AllocError> {
    let alloc = slips.alloc();
    let Some(label) = slips.label_of(literal) else {
        return Ok(());
    };
    let base = reference.part.base;
    let name = str::from_utf8(label).unwrap_or("");
    let words = format!(in alloc;
        "r{base} holds the label {name}, which is the number of an instruction line and no address"
    )?;
    let help = match slips.data_address(label) {
        Some(address) => {
            format!(in alloc; "the data on the label's line is at address {address}")?
        }
        None => String::from_str(alloc, "data words are at the addresses 0, 8, 16, ..")?,
    };
    slips.warn_of_base(SlipKind::LabelAddress, reference.place, words, help)
}

/// Warns of each reference that leaves its control to a pointer which says another one than normal on every path to it.
pub(crate) fn warn_of_controls(
    slips: &mut Slips,
    references: &[ProgramReference],
) -> Result<(), AllocError> {
    for reference in references {
        if slips.is_full() {
            return Ok(());
        }
        let control = match reference.control() {
            Some(AccessControl::Future) => "future control",
            Some(AccessControl::Sync) => "sync control",
            Some(AccessControl::Normal) | None => continue,
        };
        if reference.obeys_pointer() && !reference.is_refused() {
            warn_of_control(slips, reference, control)?;
        }
    }
    Ok(())
}

fn warn_of_control(
    slips: &mut Slips,
    reference: &ProgramReference,
    control: &str,
) -> Result<(), AllocError> {
    let alloc = slips.alloc();
    let base = reference.part.base;
    let name = names::memory(reference.part.op);
    let words = format!(in alloc;
        "the pointer in r{base} gives this {name} {control}: its bits 59 and 60 are set so"
    )?;
    let help = String::from_str(alloc, "a suffix .N, .F or .S says it in the program")?;
    slips.warn_of_base(SlipKind::PointerControl, reference.place, words, help)
}
