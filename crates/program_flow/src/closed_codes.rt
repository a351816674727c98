//! Whether a table has all condition codes that may be asked for.

ghost use Rattle.std.specs.Prelude.{◌≡◌, ◌<◌, ℕ, IsTrue, Some, slice_get};
ghost use Rattle.std.specs.List.{AllByRecursion};
ghost use Rattle.stream_core.specs.StreamRow.{fetch_word};
ghost use Rattle.stream_core.specs.declared.steps.Fetch.TheVariants as fetch;
ghost use Rattle.program_flow.specs.Flow.{GoesTo, MayTrap};
ghost use Rattle.program_flow.specs.Codes.{code_named, codes_asked, makes_code, CameFrom, HasCodesAt};
ghost use Rattle.program_flow.specs.Tables.{is_live_by, is_asked_at, HasCodesOf};

use crate::closed_tables::has_all;
use crate::operands::{may_trap, skipped};
use crate::rows::{CodeRow, codes_at, is_live};
use insn_word::{Condition, ControlOp, Insn, Profile, decode_as};

/// The code that an instruction names by a number: 0 is the newest, 3 the oldest.
pub(crate) fn code_named(code: u8) -> usize
    ensures { result ≡ code_named code }
{
    if code == 0 {
        0
    } else if code == 1 {
        1
    } else if code == 2 {
        2
    } else {
        3
    }
}

/// Whether an instruction makes a new code.
pub(crate) fn makes_code(insn: &Insn) -> bool
    ensures { result ≡ makes_code insn.now }
{
    match insn {
        Insn::Wide { .. } => false,
        Insn::Normal { a, .. } => a.test,
    }
}

/// Whether a row has all codes that an instruction asks for.
fn has_asked(row: &[bool], insn: &Insn) -> bool
    ensures { IsTrue result → AllByRecursion (λ c. IsTrue (is_live_by row.now c)) (codes_asked insn.now) }
{
    match insn {
        Insn::Wide { .. } => true,
        Insn::Normal { c, .. } => match c.op {
            ControlOp::Jump | ControlOp::Skip => {
                c.cond == Condition::Always || is_live(row, code_named(c.code))
            }
            ControlOp::Exchange => has_all(row),
            ControlOp::Nop
            | ControlOp::Call
            | ControlOp::TargetSet
            | ControlOp::TargetGet
            | ControlOp::TrapGet
            | ControlOp::Reserve
            | ControlOp::Create
            | ControlOp::Quit
            | ControlOp::QuitKeep
            | ControlOp::Mask => true,
        },
    }
}

/// Whether a row has what a code was before an instruction that makes a new one, or none.
fn came_from(row: &[bool], makes: bool, code: usize) -> bool
    ensures { IsTrue result → CameFrom makes (λ d. IsTrue (is_live_by row.now d)) code }
{
    if makes {
        code == 0 || is_live(row, code - 1)
    } else {
        is_live(row, code)
    }
}

/// Whether a row has all codes of another one, as they were before an instruction that makes a new one, or none.
fn covers_codes(row: &[bool], makes: bool, to: &[bool]) -> bool
    ensures { IsTrue result → (c : ℕ) → c < 4 → IsTrue (is_live_by to.now c)
        → CameFrom makes (λ d. IsTrue (is_live_by row.now d)) c }
{
    for code in 0..4usize {
        if is_live(to, code) && !came_from(row, makes, code) {
            return false;
        }
    }
    true
}

/// Whether a row has all codes that are asked for where an instruction goes on, as they were before it.
fn covers_next(row: &[bool], insn: &Insn, place: u32, table: &[CodeRow]) -> bool
    ensures { IsTrue result → (j c : ℕ) → c < 4 → GoesTo insn.now place j → IsTrue (is_asked_at table.now j c)
        → CameFrom (makes_code insn.now) (λ d. IsTrue (is_live_by row.now d)) c }
{
    let next = codes_at(table, place.wrapping_add(1));
    let makes = makes_code(insn);
    match insn {
        Insn::Wide { .. } => covers_codes(row, makes, next),
        Insn::Normal { c, .. } => match c.op {
            ControlOp::Jump | ControlOp::Call | ControlOp::Exchange => {
                covers_codes(row, makes, &[])
            }
            ControlOp::Skip => {
                (c.cond == Condition::Always || covers_codes(row, makes, next))
                    && covers_codes(row, makes, codes_at(table, skipped(place, c.n)))
            }
            ControlOp::Quit | ControlOp::QuitKeep => true,
            ControlOp::Nop
            | ControlOp::TargetSet
            | ControlOp::TargetGet
            | ControlOp::TrapGet
            | ControlOp::Reserve
            | ControlOp::Create
            | ControlOp::Mask => covers_codes(row, makes, next),
        },
    }
}

/// Whether a row has all codes where an instruction may trap into a handler.
fn has_trapped(row: &[bool], insn: &Insn, handled: bool) -> bool
    ensures { IsTrue result → MayTrap (fetch.Instruction insn.now) → IsTrue handled → (c : ℕ) → IsTrue (is_live_by row.now c) }
{
    !handled || !may_trap(insn) || has_all(row)
}

/// Whether the row of a place at which this instruction stands has all codes that may be asked for from there on.
#[tactic(auto, using(crate::proofs::Live::instruction_has))]
fn has_codes_of(insn: &Insn, handled: bool, table: &[CodeRow], place: u32) -> bool
    ensures { IsTrue result → HasCodesAt (IsTrue handled) (λ k c. IsTrue (is_asked_at table.now k c)) place
        (fetch.Instruction insn.now) }
{
    let row = codes_at(table, place);
    has_asked(row, insn) && covers_next(row, insn, place, table) && has_trapped(row, insn, handled)
}

/// The same of a place at which this word stands.
fn has_codes_of_word(
    profile: Profile,
    word: u64,
    handled: bool,
    table: &[CodeRow],
    place: u32,
) -> bool
    ensures { IsTrue result → HasCodesAt (IsTrue handled) (λ k c. IsTrue (is_asked_at table.now k c)) place
        (fetch_word profile (Some word)) }
{
    match decode_as(profile, word) {
        None => !handled || has_all(codes_at(table, place)),
        Some(insn) => has_codes_of(&insn, handled, table, place),
    }
}

/// The word at a place of a program.
fn word_at(program: &[u64], place: u32) -> Option<u64>
    ensures { result ≡ slice_get program.now place }
{
    program.get(place as usize).copied()
}

/// Whether the row of a place has all codes that may be asked for from there on, by the rows of the places that can
/// come next.
fn has_codes_at(
    profile: Profile,
    program: &[u64],
    handled: bool,
    table: &[CodeRow],
    place: u32,
) -> bool
    ensures { IsTrue result → HasCodesAt (IsTrue handled) (λ k c. IsTrue (is_asked_at table.now k c)) place
        (fetch_word profile (slice_get program.now place)) }
{
    match word_at(program, place) {
        None => !handled || has_all(codes_at(table, place)),
        Some(word) => has_codes_of_word(profile, word, handled, table, place),
    }
}

/// Whether each row of a table has all codes that may be asked for from its place on.
#[tactic(auto, using(crate::proofs::Live::codes_table))]
pub(crate) fn has_codes(profile: Profile, program: &[u64], handled: bool, table: &[CodeRow]) -> bool
    ensures { IsTrue result → HasCodesOf profile program.now handled table.now }
{
    for place in 0..table.len() {
        let Ok(place) = u32::try_from(place) else {
            return false;
        };
        if !has_codes_at(profile, program, handled, table, place) {
            return false;
        }
    }
    true
}
