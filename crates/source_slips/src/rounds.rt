//! Loops that never end once they repeat.

use crate::program::ProgramWords;
use crate::spots::{SlipKind, Slips};
use insn_word::{APart, ArithmeticOp, CPart, Condition, ControlOp, Insn, MemoryOp, WideOp};
use std::alloc::AllocError;

/// Words one after the other that do arithmetic alone.
#[derive(Clone, Copy)]
struct LoopBody {
    /// The registers that are read before they are written, a bit each.
    read: u32,
    /// The registers that are written.
    written: u32,
    /// How many codes are made.
    codes: u8,
}

impl LoopBody {
    const NEW: LoopBody = LoopBody {
        read: 0,
        written: 0,
        codes: 0,
    };

    fn read(&mut self, register: u8) {
        let bit = bit_of(register);
        if self.written & bit == 0 {
            self.read |= bit;
        }
    }

    /// Takes an arithmetic operation.
    fn take(&mut self, a: APart) {
        if a.op == ArithmeticOp::Nop {
            return;
        }
        self.read(a.ra);
        if !a.imm {
            self.read(a.rb);
        }
        self.written |= bit_of(a.destination());
        if a.test {
            self.codes = self.codes.saturating_add(1);
        }
    }

    /// Takes a word that goes on to the next one; whether it does arithmetic alone.
    fn take_word(&mut self, insn: Option<Insn>) -> bool {
        match insn {
            Some(Insn::Wide { op, reg, .. }) => {
                if op == WideOp::LiteralHigh {
                    self.read(reg);
                }
                self.written |= bit_of(reg);
                op != WideOp::TargetLiteral
            }
            Some(Insn::Normal { m, a, c, .. }) => {
                self.take(a);
                m.op == MemoryOp::Nop && c.op == ControlOp::Nop
            }
            None => false,
        }
    }
}

/// The bit of a register; none of r0.
fn bit_of(register: u8) -> u32 {
    if register == 0 || register > 31 {
        0
    } else {
        1u32.wrapping_shl(u32::from(register))
    }
}

/// Warns of each loop of arithmetic alone in which nothing changes that it asks; the SKIPs that lead back in them, in their
/// order.
pub(crate) fn warn_of_rounds(
    slips: &mut Slips,
    program: &ProgramWords,
) -> Result<Vec<usize>, AllocError> {
    let mut endless = Vec::new(slips.alloc());
    for place in 0..program.insns.len() {
        let (Some(target), Some(Insn::Normal { m, a, c, .. })) = (
            program.skip_target(place),
            program.insn(place),
        ) else {
            continue;
        };
        let is_loop = target <= place && m.op == MemoryOp::Nop && program.is_reached(place);
        if is_loop && never_ends(program, target, place, a, c) {
            warn_of_round(slips, place, c)?;
            endless.push(place)?;
        }
    }
    Ok(endless)
}

/// Whether a loop from a word to the SKIP that goes back never ends once it repeats: it asks a code of before the loop, or
/// one that each time through all of it makes alike. One SKIP alone that always goes to itself is how a stream stays at
/// its end.
fn never_ends(program: &ProgramWords, first: usize, last: usize, a: APart, c: CPart) -> bool {
    let mut round = LoopBody::NEW;
    for place in first..last {
        if !round.take_word(program.insn(place)) {
            return false;
        }
    }
    if c.cond == Condition::Always {
        return first < last;
    }
    let asks_old = c.code >= round.codes;
    round.take(a);
    let is_same = if asks_old {
        round.codes == 0
    } else {
        !is_entered_within(program, first, last)
    };
    is_same && round.read & round.written == 0
}

/// Whether a stream may come to a word of a loop after its first one otherwise than from the word before it. What its
/// SKIP asks may then be another code than the next time.
fn is_entered_within(program: &ProgramWords, first: usize, last: usize) -> bool {
    for place in first..last {
        if program.is_beginning(place.saturating_add(1)) {
            return true;
        }
    }
    false
}

fn warn_of_round(slips: &mut Slips, place: usize, c: CPart) -> Result<(), AllocError> {
    let alloc = slips.alloc();
    let (words, help) = if c.cond == Condition::Always {
        (
            "this loop has no exit, and changes nothing in memory",
            "a SKIP with a condition leads out of a loop",
        )
    } else {
        (
            "nothing that this SKIP asks changes in its loop: once it repeats, it never ends",
            "change a register that the loop compares, as by ADD r1, r1, 1",
        )
    };
    slips.warn(
        SlipKind::EndlessLoop,
        place,
        String::from_str(alloc, words)?,
        String::from_str(alloc, help)?,
    )
}
