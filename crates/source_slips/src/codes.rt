//! Conditions on codes that nothing has made.

use crate::program::ProgramWords;
use crate::spots::{SlipKind, Slips};
use crate::unmade::unmade_codes;
use asm_line::names;
use image_file::Image;
use insn_word::{APart, ArithmeticOp, CPart, Condition, Insn};
use std::alloc::AllocError;

/// Warns of each SKIP and JUMP that asks a code which no `.T` has made on any way to it.
pub(crate) fn warn_of_codes(
    slips: &mut Slips,
    image: &Image,
    program: &ProgramWords,
) -> Result<(), AllocError> {
    for unmade in unmade_codes(slips.alloc(), image)?.iter() {
        let place = unmade.place as usize;
        if let Some(Insn::Normal { c, .. }) = program.insn(place) {
            warn_of_code(slips, program, place, c, unmade.most)?;
        }
    }
    Ok(())
}

/// Warns of a condition that asks a code of which so many are made at most.
fn warn_of_code(
    slips: &mut Slips,
    program: &ProgramWords,
    place: usize,
    c: CPart,
    most: u8,
) -> Result<(), AllocError> {
    let alloc = slips.alloc();
    let condition = names::condition(c.cond);
    let holds = if holds_of_none(c.cond) {
        "always holds"
    } else {
        "never holds"
    };
    let code = c.code;
    let words = match most {
        0 => format!(in alloc;
            "no .T has made a code on any path to here, so {condition} {holds}"
        )?,
        1 => format!(in alloc;
            "one code is made on the paths to here, and code {code} is none, so {condition} {holds}"
        )?,
        _ => format!(in alloc;
            "{most} codes are made on the paths to here, and code {code} is none, so {condition} {holds}"
        )?,
    };
    let help = match untested(program, place) {
        _ if most > 0 => String::from_str(alloc, "0 is the newest code, 1 the one before")?,
        Some((word, op)) => tested_help(slips, word, op)?,
        None => String::from_str(alloc, "make a code first, as by SUB.T r0, r1, 10")?,
    };
    slips.warn(SlipKind::NoCode, place, words, help)
}

/// That the operation of a word may be meant with `.T`.
fn tested_help(slips: &Slips, word: usize, op: ArithmeticOp) -> Result<String, AllocError> {
    let alloc = slips.alloc();
    let name = names::arithmetic(op);
    match slips.line(word) {
        Some(line) => format!(in alloc; "did you mean {name}.T on line {line}?"),
        None => format!(in alloc; "did you mean {name}.T?"),
    }
}

/// The last word before a place, of those that lead straight to it, that has an arithmetic operation.
fn untested(program: &ProgramWords, place: usize) -> Option<(usize, ArithmeticOp)> {
    for back in 0..place {
        let word = place.saturating_sub(back).saturating_sub(1);
        if !program.goes_on(word) {
            return None;
        }
        if let Some(Insn::Normal { a, .. }) = program.insn(word) {
            let APart { op, .. } = a;
            if op != ArithmeticOp::Nop {
                return Some((word, op));
            }
        }
    }
    None
}

/// Whether a condition holds on a code that was never made, which has no bit.
fn holds_of_none(condition: Condition) -> bool {
    match condition {
        Condition::Always
        | Condition::NotEqual
        | Condition::GreaterEqual
        | Condition::Greater
        | Condition::GreaterEqualUnsigned
        | Condition::GreaterUnsigned
        | Condition::Positive
        | Condition::NoOverflow => true,
        Condition::Equal
        | Condition::Less
        | Condition::LessEqual
        | Condition::LessUnsigned
        | Condition::LessEqualUnsigned
        | Condition::Negative
        | Condition::Overflow => false,
    }
}
