//! The successors of an instruction: the places to which it leads.

ghost use Rattle.std.specs.Prelude.{◌≡◌, slice_get};
ghost use Rattle.stream_core.specs.StreamRow.{fetch_word};
ghost use Rattle.stream_core.specs.Effects.{next_pc, skip_pc};
ghost use Rattle.reachable_places.specs.Successors.{where_holding, wide_successors, control_successors};
ghost use Rattle.reachable_places.specs.Successors.{successors_of, successors_at};

use insn_word::{CPart, Condition, ControlOp, Insn, Profile, WideOp, decode_as};

/// The places to which an instruction leads: where its stream goes on, and what it writes to target registers, where a
/// stream may go on later.
#[derive(Clone, Copy, Debug, PartialEq, Eq)]
pub(crate) enum Successors {
    /// It leads nowhere.
    None,
    /// It leads to this place.
    One(u32),
    /// It leads to these two.
    Two(u32, u32),
    /// It may lead to any place.
    Any,
}

/// The place to which a target register leads that nothing has set.
const UNSET_TARGET: u32 = 0;

/// The successors of what stands at a place of a program: none where that is no instruction.
pub(crate) fn successors_at(profile: Profile, program: &[u64], place: u32) -> Successors
    ensures { result ≡ successors_at (fetch_word profile (slice_get program.now place)) place }
{
    match program.get(place as usize) {
        None => Successors::None,
        Some(word) => match decode_as(profile, *word) {
            None => Successors::None,
            Some(insn) => successors_of(&insn, place),
        },
    }
}

/// The successors of an instruction at a place ("What each operation does", docs/MACHINE.md).
fn successors_of(insn: &Insn, place: u32) -> Successors
    ensures { result ≡ successors_of insn.now place }
{
    match insn {
        Insn::Wide { op, imm, .. } => wide_successors(*op, *imm, place),
        Insn::Normal { c, .. } => control_successors(c, place),
    }
}

/// The successors of a wide operation.
fn wide_successors(op: WideOp, imm: u32, place: u32) -> Successors
    ensures { result ≡ wide_successors op imm place }
{
    let next = place.wrapping_add(1);
    match op {
        WideOp::Literal | WideOp::LiteralHigh => Successors::One(next),
        WideOp::TargetLiteral => Successors::Two(next, imm),
    }
}

/// The successors of a word by its control operation.
fn control_successors(c: &CPart, place: u32) -> Successors
    ensures { result ≡ control_successors c.now c.now.op place }
{
    let next = place.wrapping_add(1);
    match c.op {
        ControlOp::Jump => where_holding(c.cond, next, UNSET_TARGET),
        ControlOp::Skip => where_holding(c.cond, next, skipped(place, c.n)),
        ControlOp::Call | ControlOp::Exchange | ControlOp::Create => {
            Successors::Two(next, UNSET_TARGET)
        }
        ControlOp::TargetSet => Successors::Any,
        ControlOp::Quit | ControlOp::QuitKeep => Successors::None,
        ControlOp::Nop
        | ControlOp::TargetGet
        | ControlOp::TrapGet
        | ControlOp::Reserve
        | ControlOp::Mask => Successors::One(next),
    }
}

/// The next place, unless the condition always holds, and the one to which it leads where it holds.
fn where_holding(condition: Condition, next: u32, place: u32) -> Successors
    ensures { result ≡ where_holding condition next place }
{
    if condition == Condition::Always {
        Successors::One(place)
    } else {
        Successors::Two(next, place)
    }
}

/// The place so many words after the next one, modulo 2^32.
fn skipped(place: u32, words: i8) -> u32
    ensures { result ≡ skip_pc place words }
{
    place
        .wrapping_add(1)
        .wrapping_add(i32::from(words).cast_unsigned())
}
