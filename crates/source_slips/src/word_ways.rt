//! What a word makes of the codes before it, and where it leads.

ghost use Rattle.std.specs.Prelude.{◌≡◌, IfSome};
ghost use Rattle.source_slips.specs.Places.{GoesStraight, GoesStraightBy};
ghost use Rattle.source_slips.specs.MostCodes.{kept_after, kept_after_insn, leaves_by, leaves_with, returns_to, aimed_by, aimed_place};

use crate::straight_ways::skipped;
use insn_word::{CPart, ControlOp, Insn, WideOp};

/// How many codes a stream keeps.
const CODES: u8 = 4;

/// How many codes are made after an instruction, with so many before it: at most four count.
pub(crate) fn kept_after_insn(insn: &Insn, before: u8) -> u8
    ensures { result ≡ kept_after_insn insn.now before }
{
    match insn {
        Insn::Wide { .. } => before,
        Insn::Normal { a, .. } => kept_after(a.test, before),
    }
}

/// How many codes are made after an instruction that makes one, or none: at most four count.
fn kept_after(makes: bool, before: u8) -> u8
    ensures { result ≡ kept_after makes before }
{
    if makes {
        if before < CODES { before + 1 } else { CODES }
    } else {
        before
    }
}

/// The place to which a SKIP leads; None of any other instruction.
pub(crate) fn skip_target(insn: &Insn, place: u32) -> Option<u32>
    ensures { IfSome result (GoesStraight insn.now place) }
{
    match insn {
        Insn::Wide { .. } => None,
        Insn::Normal { c, .. } => skip_by(c, place),
    }
}

/// The place to which a SKIP leads; None of any other control operation.
fn skip_by(c: &CPart, place: u32) -> Option<u32>
    ensures { IfSome result (GoesStraightBy c.now.op c.now place) }
{
    match c.op {
        ControlOp::Skip => Some(skipped(place, c.n)),
        _ => None,
    }
}

/// With how many codes an instruction with so many after it goes to a target register, or starts a stream there.
pub(crate) fn leaves_with(insn: &Insn, count: u8) -> Option<u8>
    ensures { result ≡ leaves_with insn.now count }
{
    match insn {
        Insn::Wide { .. } => None,
        Insn::Normal { c, .. } => leaves_by(c.op, count),
    }
}

/// The same of a control operation.
fn leaves_by(op: ControlOp, count: u8) -> Option<u8>
    ensures { result ≡ leaves_by op count }
{
    match op {
        ControlOp::Jump | ControlOp::Call => Some(count),
        ControlOp::Create => Some(0),
        ControlOp::Nop
        | ControlOp::Skip
        | ControlOp::Exchange
        | ControlOp::TargetSet
        | ControlOp::TargetGet
        | ControlOp::TrapGet
        | ControlOp::Reserve
        | ControlOp::Quit
        | ControlOp::QuitKeep
        | ControlOp::Mask => None,
    }
}

/// The place to which an instruction sets a target register: the one that TLIT names, or after CALL the next one.
pub(crate) fn aimed_place(insn: &Insn, place: u32) -> Option<u32>
    ensures { result ≡ aimed_place insn.now place }
{
    match insn {
        Insn::Wide { op, imm, .. } => aimed_by(*op, *imm),
        Insn::Normal { c, .. } => returns_to(c.op, place),
    }
}

/// The place to which a wide operation sets a target register.
fn aimed_by(op: WideOp, place: u32) -> Option<u32>
    ensures { result ≡ aimed_by op place }
{
    match op {
        WideOp::TargetLiteral => Some(place),
        WideOp::Literal | WideOp::LiteralHigh => None,
    }
}

/// The place to which a control operation sets a target register.
fn returns_to(op: ControlOp, place: u32) -> Option<u32>
    ensures { result ≡ returns_to op place }
{
    match op {
        ControlOp::Call => Some(place.wrapping_add(1)),
        _ => None,
    }
}
