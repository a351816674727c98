//! Whether a table has all that may be read.

ghost use Rattle.std.specs.Prelude.{ℕ, ◌⊎◌, IsTrue, slice_get};
ghost use Rattle.std.specs.List.{AllByRecursion};
ghost use Rattle.stream_core.specs.StreamRow.{fetch_word};
ghost use Rattle.stream_core.specs.declared.steps.Fetch.TheVariants as fetch;
ghost use Rattle.program_flow.specs.Operands.{registers_read, registers_written};
ghost use Rattle.program_flow.specs.Flow.{IsOneOf, GoesTo, MayTrap, IsClosedAt};
ghost use Rattle.program_flow.specs.Tables.{is_live_by, is_live_at, is_named_by, IsClosedTable};

use crate::operands::{may_trap, memory_source, second_source, skipped, wide_source, writes};
use crate::rows::{Row, is_live, row_at};
use insn_word::{Condition, ControlOp, Insn, Profile, decode_as};

/// Whether a row has all that an instruction reads.
fn has_reads(row: &[bool], insn: &Insn) -> bool
    ensures { IsTrue result → AllByRecursion (λ r. IsTrue (is_live_by row.now r)) (registers_read insn.now) }
{
    match insn {
        Insn::Wide { op, reg, .. } => is_live(row, usize::from(wide_source(*op, *reg))),
        Insn::Normal { m, a, c, .. } => {
            is_live(row, usize::from(m.base))
                && is_live(row, usize::from(memory_source(m.op, m.rd)))
                && is_live(row, usize::from(a.ra))
                && is_live(row, usize::from(second_source(a)))
                && is_live(row, usize::from(c.ra))
        }
    }
}

/// Whether a row has all registers, or all codes.
pub(crate) fn has_all(row: &[bool]) -> bool
    ensures { IsTrue result → (r : ℕ) → IsTrue (is_live_by row.now r) }
{
    for live in row {
        if !*live {
            return false;
        }
    }
    true
}

/// Whether a row has all registers that are named.
fn has_named(row: &[bool], names: &[bool]) -> bool
    ensures { IsTrue result → (r : ℕ) → IsTrue (is_named_by names.now r) → IsTrue (is_live_by row.now r) }
{
    for (register, named) in names.iter().enumerate() {
        if *named && !is_live(row, register) {
            return false;
        }
    }
    true
}

/// Whether a row has all of another one but what the instruction writes.
fn covers(row: &[bool], insn: &Insn, to: &[bool]) -> bool
    ensures { IsTrue result → (r : ℕ) → IsTrue (is_live_by to.now r)
        → IsTrue (is_live_by row.now r) ⊎ IsOneOf (registers_written insn.now) r }
{
    for (register, live) in row.iter().enumerate() {
        if !*live && is_live(to, register) && !writes(insn, register) {
            return false;
        }
    }
    true
}

/// Whether a row has all that is live where an instruction goes on, but what it writes.
fn covers_next(row: &[bool], insn: &Insn, place: u32, table: &[Row]) -> bool
    ensures { IsTrue result → (j r : ℕ) → GoesTo insn.now place j → IsTrue (is_live_at table.now j r)
        → IsTrue (is_live_by row.now r) ⊎ IsOneOf (registers_written insn.now) r }
{
    let next = row_at(table, place.wrapping_add(1));
    match insn {
        Insn::Wide { .. } => covers(row, insn, next),
        Insn::Normal { c, .. } => match c.op {
            ControlOp::Jump | ControlOp::Call | ControlOp::Exchange => covers(row, insn, &[]),
            ControlOp::Skip => {
                (c.cond == Condition::Always || covers(row, insn, next))
                    && covers(row, insn, row_at(table, skipped(place, c.n)))
            }
            ControlOp::Quit | ControlOp::QuitKeep => true,
            ControlOp::Nop
            | ControlOp::TargetSet
            | ControlOp::TargetGet
            | ControlOp::TrapGet
            | ControlOp::Reserve
            | ControlOp::Create
            | ControlOp::Mask => covers(row, insn, next),
        },
    }
}

/// Whether the row of a place has all that may be read from there on, by the rows of the places that can come next.
fn is_closed_at(profile: Profile, program: &[u64], handled: bool, table: &[Row], place: u32) -> bool
    ensures { IsTrue result → IsClosedAt (IsTrue handled) (λ k r. IsTrue (is_live_at table.now k r)) place
        (fetch_word profile (slice_get program.now place)) }
{
    let row = row_at(table, place);
    match program.get(place as usize) {
        None => !handled || has_all(row),
        Some(word) => match decode_as(profile, *word) {
            None => !handled || has_all(row),
            Some(insn) => {
                has_reads(row, &insn)
                    && covers_next(row, &insn, place, table)
                    && (!handled || !may_trap(&insn) || has_all(row))
            }
        },
    }
}

/// Whether each row of a table has all that may be read from its place on, and the registers that are named.
#[tactic(auto, using(crate::proofs::Live::closed_table))]
pub(crate) fn is_closed(
    profile: Profile,
    program: &[u64],
    handled: bool,
    names: &[bool],
    table: &[Row],
) -> bool
    ensures { IsTrue result → IsClosedTable profile program.now handled names.now table.now }
{
    for place in 0..table.len() {
        let Ok(place) = u32::try_from(place) else {
            return false;
        };
        let row = row_at(table, place);
        if !is_live(row, 0)
            || !has_named(row, names)
            || !is_closed_at(profile, program, handled, table, place)
        {
            return false;
        }
    }
    true
}
