//! Tables of what may still be read, made by going through the program until nothing changes.

ghost use Rattle.std.specs.Prelude.{IfOk};
ghost use Rattle.program_flow.specs.Tables.{IsClosedTable};

use crate::closed_tables::is_closed;
use crate::operands::{may_trap, reads, skipped, writes};
use crate::rows::{Row, is_live, is_named, row_at};
use insn_word::{Condition, ControlOp, Insn, Profile, decode_as};
use std::alloc::{AllocError, Global};

/// How often a table is gone through at most.
const ROUNDS: u32 = 1000;

/// Which registers are live at each word of a program: a row for each word, or none at all, which says that all are
/// live. `handled` says whether a trap of some stream may have a handler, which may read each register; `names` says which
/// registers are live at each word all the same, since somebody else looks at them.
///
/// A register is live at a word where it may be read from there on, before it is written. The table has all of these, r0
/// too; that it has few others is not promised. It has no row where it is not done after 1,000 rounds. An error where
/// memory is refused.
pub fn live_table(
    alloc: Global,
    profile: Profile,
    program: &[u64],
    handled: bool,
    names: &Row,
) -> Result<Vec<Row>, AllocError>
    ensures { IfOk result (λ table. IsClosedTable profile program.now handled names.now table.items) }
{
    let mut table: Vec<Row> = Vec::new(alloc);
    for _ in program {
        table.push([false; 32])?;
    }
    for _ in 0..ROUNDS {
        if !go_through(profile, program, handled, names, &mut table) {
            break;
        }
    }
    if is_closed(profile, program, handled, names, &table) {
        return Ok(table);
    }
    Ok(Vec::new(alloc))
}

/// Computes each row again from the rows of the places that can come next, the last row first, and says whether one has
/// changed.
fn go_through(
    profile: Profile,
    program: &[u64],
    handled: bool,
    names: &Row,
    table: &mut [Row],
) -> bool {
    let mut changed = false;
    for place in (0..table.len()).rev() {
        if let (Ok(number), Some(word)) = (u32::try_from(place), program.get(place)) {
            let mut row = row_of(decode_as(profile, *word), handled, table, number);
            for (register, live) in row.iter_mut().enumerate() {
                *live = *live || is_named(names, register);
            }
            if row != table[place] {
                table[place] = row;
                changed = true;
            }
        }
    }
    changed
}

/// What is live at a word, by what is live at the places that can come next.
fn row_of(word: Option<Insn>, handled: bool, table: &[Row], place: u32) -> Row {
    let mut row = [true; 32];
    match word {
        None => {
            for (register, live) in row.iter_mut().enumerate() {
                *live = handled || register == 0;
            }
        }
        Some(insn) => {
            if !(handled && may_trap(&insn)) {
                for (register, live) in row.iter_mut().enumerate() {
                    *live = register == 0
                        || reads(&insn, register)
                        || (is_live_next(&insn, place, table, register)
                            && !writes(&insn, register));
                }
            }
        }
    }
    row
}

/// Whether a register is live where an instruction goes on.
fn is_live_next(insn: &Insn, place: u32, table: &[Row], register: usize) -> bool {
    let next = is_live(row_at(table, place.wrapping_add(1)), register);
    match insn {
        Insn::Wide { .. } => next,
        Insn::Normal { c, .. } => match c.op {
            ControlOp::Jump | ControlOp::Call | ControlOp::Exchange => true,
            ControlOp::Skip => {
                (next && c.cond != Condition::Always)
                    || is_live(row_at(table, skipped(place, c.n)), register)
            }
            ControlOp::Quit | ControlOp::QuitKeep => false,
            ControlOp::Nop
            | ControlOp::TargetSet
            | ControlOp::TargetGet
            | ControlOp::TrapGet
            | ControlOp::Reserve
            | ControlOp::Create
            | ControlOp::Mask => next,
        },
    }
}
