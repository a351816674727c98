//! Tables of the condition codes that may still be asked for, made by going through the program until nothing changes.

ghost use Rattle.std.specs.Prelude.{IfOk};
ghost use Rattle.program_flow.specs.Tables.{HasCodesOf};

use crate::closed_codes::{code_named, has_codes, makes_code};
use crate::operands::{may_trap, skipped};
use crate::rows::{CodeRow, codes_at, is_live};
use insn_word::{Condition, ControlOp, Insn, Profile, decode_as};
use std::alloc::{AllocError, Global};

/// How often a table is gone through at most.
const ROUNDS: u32 = 1000;

/// Which condition codes may be asked for from each word of a program on: a row for each word, or none at all, which says
/// that all may be. `handled` says whether a trap of some stream may have a handler, for which it keeps the codes in t0.
///
/// The table has all of these codes; that it has few others is not promised. It has no row where it is not done after
/// 1,000 rounds. An error where memory is refused.
pub fn code_table(
    alloc: Global,
    profile: Profile,
    program: &[u64],
    handled: bool,
) -> Result<Vec<CodeRow>, AllocError>
    ensures { IfOk result (λ table. HasCodesOf profile program.now handled table.items) }
{
    let mut table: Vec<CodeRow> = Vec::new(alloc);
    for _ in program {
        table.push([false; 4])?;
    }
    for _ in 0..ROUNDS {
        if !go_through(profile, program, handled, &mut table) {
            break;
        }
    }
    if has_codes(profile, program, handled, &table) {
        return Ok(table);
    }
    Ok(Vec::new(alloc))
}

/// Computes each row again from the rows of the places that can come next, the last row first, and says whether one has
/// changed.
fn go_through(profile: Profile, program: &[u64], handled: bool, table: &mut [CodeRow]) -> bool {
    let mut changed = false;
    for place in (0..table.len()).rev() {
        if let (Ok(number), Some(word)) = (u32::try_from(place), program.get(place)) {
            let row = row_of(decode_as(profile, *word), handled, table, number);
            if row != table[place] {
                table[place] = row;
                changed = true;
            }
        }
    }
    changed
}

/// What is asked for from a word on, by what is asked for at the places that can come next.
fn row_of(word: Option<Insn>, handled: bool, table: &[CodeRow], place: u32) -> CodeRow {
    let mut row = [handled; 4];
    if let Some(insn) = word {
        if !(handled && may_trap(&insn)) {
            for (code, asked) in row.iter_mut().enumerate() {
                *asked = asks(&insn, code) || is_asked_next(&insn, place, table, code);
            }
        }
    }
    row
}

/// Whether an instruction asks for a code.
fn asks(insn: &Insn, code: usize) -> bool {
    match insn {
        Insn::Wide { .. } => false,
        Insn::Normal { c, .. } => match c.op {
            ControlOp::Jump | ControlOp::Skip => {
                c.cond != Condition::Always && code == code_named(c.code)
            }
            ControlOp::Exchange => true,
            ControlOp::Nop
            | ControlOp::Call
            | ControlOp::TargetSet
            | ControlOp::TargetGet
            | ControlOp::TrapGet
            | ControlOp::Reserve
            | ControlOp::Create
            | ControlOp::Quit
            | ControlOp::QuitKeep
            | ControlOp::Mask => false,
        },
    }
}

/// Whether a code is asked for where an instruction goes on: there it is older by one, where the instruction makes a new
/// one, and the oldest is lost.
fn is_asked_next(insn: &Insn, place: u32, table: &[CodeRow], code: usize) -> bool {
    if !makes_code(insn) {
        return is_asked_after(insn, place, table, code);
    }
    code < 3 && is_asked_after(insn, place, table, code + 1)
}

/// Whether a code is asked for at a place where an instruction goes on, as it stands there.
fn is_asked_after(insn: &Insn, place: u32, table: &[CodeRow], code: usize) -> bool {
    let next = is_live(codes_at(table, place.wrapping_add(1)), code);
    match insn {
        Insn::Wide { .. } => next,
        Insn::Normal { c, .. } => match c.op {
            ControlOp::Jump | ControlOp::Call | ControlOp::Exchange => true,
            ControlOp::Skip => {
                (next && c.cond != Condition::Always)
                    || is_live(codes_at(table, skipped(place, c.n)), code)
            }
            ControlOp::Quit | ControlOp::QuitKeep => false,
            ControlOp::Nop
            | ControlOp::TargetSet
            | ControlOp::TargetGet
            | ControlOp::TrapGet
            | ControlOp::Reserve
            | ControlOp::Create
            | ControlOp::Mask => next,
        },
    }
}
