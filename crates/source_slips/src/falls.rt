//! Streams that run on where none is meant to.

use crate::program::ProgramWords;
use crate::spots::{SlipKind, Slips};
use crate::straight_ways::{past_ends, runs_into};
use image_file::Image;
use insn_word::{ControlOp, Insn, MemoryOp};
use std::alloc::AllocError;

/// Warns of each word from which a stream may run on past the end, or into another processor's code; not of these words,
/// whose loops never end.
pub(crate) fn warn_of_falls(
    slips: &mut Slips,
    image: &Image,
    program: &ProgramWords,
    endless: &[usize],
) -> Result<(), AllocError> {
    let ends = past_ends(slips.alloc(), image)?;
    for end in ends.iter() {
        let place = end.place as usize;
        if endless.binary_search(&place).is_err() {
            warn_of_end(slips, place)?;
        }
    }
    for into in runs_into(slips.alloc(), image)?.iter() {
        let place = into.place as usize;
        let is_told = ends.iter().any(|end| end.place == into.place)
            || endless.binary_search(&place).is_ok();
        if !is_told && is_others_entry(program, place.saturating_add(1)) {
            warn_of_entry(slips, place, into.processor)?;
        }
    }
    Ok(())
}

fn warn_of_end(slips: &mut Slips, place: usize) -> Result<(), AllocError> {
    let alloc = slips.alloc();
    let words = "a stream that goes on from here is past the end of the program, and traps";
    let words = String::from_str(alloc, words)?;
    let help = String::from_str(alloc, "did you forget QUIT?")?;
    slips.warn(SlipKind::PastEnd, place, words, help)
}

/// Whether a processor begins at a word and does not end there, after code of another one's that refers to memory.
fn is_others_entry(program: &ProgramWords, place: usize) -> bool {
    if !is_entry(program, place) || is_end(program, place) {
        return false;
    }
    let mut refers = false;
    for back in 0..place {
        let word = place.saturating_sub(back).saturating_sub(1);
        refers |= has_reference(program, word);
        if is_entry(program, word) {
            return refers;
        }
    }
    false
}

fn is_entry(program: &ProgramWords, place: usize) -> bool {
    program.entries.iter().any(|entry| *entry as usize == place)
}

/// Whether a stream ends at a word.
fn is_end(program: &ProgramWords, place: usize) -> bool {
    match program.insn(place) {
        Some(Insn::Normal { c, .. }) => { c.op == ControlOp::Quit || c.op == ControlOp::QuitKeep }
        _ => false,
    }
}

fn has_reference(program: &ProgramWords, place: usize) -> bool {
    match program.insn(place) {
        Some(Insn::Normal { m, .. }) => m.op != MemoryOp::Nop,
        _ => false,
    }
}

fn warn_of_entry(slips: &mut Slips, place: usize, processor: usize) -> Result<(), AllocError> {
    let alloc = slips.alloc();
    let words = format!(in alloc;
        "a stream that goes on from here is in the code of processor {processor}"
    )?;
    let help = String::from_str(alloc, "did you forget QUIT?")?;
    slips.warn(SlipKind::OthersCode, place, words, help)
}
