//! Results that r0 does not keep.

use crate::program::ProgramWords;
use crate::references::ProgramReference;
use crate::spots::{SlipKind, Slips};
use asm_line::names;
use insn_word::{Access, ArithmeticOp, Insn, MemoryOp, WideOp};
use std::alloc::AllocError;

/// Warns of each number and each result that goes to r0 and makes no code.
pub(crate) fn warn_of_lost_results(
    slips: &mut Slips,
    program: &ProgramWords,
) -> Result<(), AllocError> {
    let alloc = slips.alloc();
    for place in 0..program.insns.len() {
        match program.insn(place) {
            Some(Insn::Wide { op, reg, .. }) if reg == 0 && op != WideOp::TargetLiteral => {
                let words = String::from_str(alloc, "r0 is always 0: this number is lost")?;
                let help = String::from_str(alloc, "write r1 to r31")?;
                slips.warn(SlipKind::LostResult, place, words, help)?;
            }
            Some(Insn::Normal { a, .. }) if a.rd == 0 && !a.test && a.op != ArithmeticOp::Nop => {
                let name = names::arithmetic(a.op);
                let words = String::from_str(alloc, "r0 is always 0: this result is lost")?;
                let help = format!(in alloc;
                    "write r1 to r31; or {name}.T, which makes a code for a later SKIP"
                )?;
                slips.warn(SlipKind::LostResult, place, words, help)?;
            }
            _ => {}
        }
    }
    Ok(())
}

/// Warns of each reference that only reads, and whose number goes to r0: a LOAD of normal control, or a TAGGET. A LOAD of
/// another control waits for its word, and may take it, whatever becomes of the number.
pub(crate) fn warn_of_lost_reads(
    slips: &mut Slips,
    references: &[ProgramReference],
) -> Result<(), AllocError> {
    let alloc = slips.alloc();
    for reference in references {
        if reference.part.rd != 0 || reference.is_refused() || slips.is_full() {
            continue;
        }
        let (words, help) = match reference.part.op {
            MemoryOp::Load if reference.access() == Some(Access::Normal) => (
                "r0 is always 0: what this LOAD reads is lost",
                "write r1 to r31; or LOAD.F or LOAD.S, which wait for a full word",
            ),
            MemoryOp::TagGet => ("r0 is always 0: these tags are lost", "write r1 to r31"),
            _ => continue,
        };
        let words = String::from_str(alloc, words)?;
        let help = String::from_str(alloc, help)?;
        slips.warn(SlipKind::LostResult, reference.place, words, help)?;
    }
    Ok(())
}
