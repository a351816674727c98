//! Whether a table of codes has all that streams come to.

ghost use Rattle.std.specs.Prelude.{◌≡◌, ℕ, IsTrue, Some, slice_get};
ghost use Rattle.stream_core.specs.Effects.{next_pc};
ghost use Rattle.source_slips.specs.Places.{insn_at, GoesStraightBy};
ghost use Rattle.source_slips.specs.Made.{IsWithin, Allows, AllowsAny, IsAimed, count_after, GoesByTarget, Starts, Returns};
ghost use Rattle.source_slips.specs.Made.{SetsHandler, ControlLeads, WideAims, Leads, most_at, LeadsIf, LeadsWhere};
ghost use Rattle.source_slips.specs.Made.{IsClosedTable};

use crate::straight_ways::{insn_at, skipped};
use image_file::Image;
use insn_word::{CPart, Condition, ControlOp, Insn, WideOp};

/// Whether so many codes are no more than the most; all are within four, which is all that a stream keeps.
fn is_within(most: u8, count: u32) -> bool
    ensures { IsTrue result → IsWithin most count }
{
    count <= u32::from(most) || most >= 4
}

/// Whether a stream may come to a place with so many codes, by what a table says.
fn allows(table: &[Option<u8>], place: u32, count: u32) -> bool
    ensures { IsTrue result → Allows table.now place count }
{
    match table.get(place as usize) {
        None => true,
        Some(None) => false,
        Some(Some(most)) => is_within(*most, count),
    }
}

/// Whether a stream may go to a target register with so many codes.
fn allows_any(anywhere: Option<u8>, count: u32) -> bool
    ensures { IsTrue result → AllowsAny anywhere count }
{
    match anywhere {
        None => false,
        Some(most) => is_within(most, count),
    }
}

/// Whether a target register may lead to a place.
fn is_aimed(table: &[Option<u8>], anywhere: Option<u8>, place: u32) -> bool
    ensures { IsTrue result → IsAimed table.now anywhere place }
{
    match anywhere {
        None => true,
        Some(most) => allows(table, place, u32::from(most)),
    }
}

/// How many codes are made after an instruction that makes one, or none.
fn count_after(makes: bool, count: u8) -> u32
    ensures { result ≡ count_after makes count }
{
    if makes {
        u32::from(count) + 1
    } else {
        u32::from(count)
    }
}

/// Whether a table has what a control operation leads to without a target register.
fn leads_straight(table: &[Option<u8>], place: u32, count: u32, c: &CPart) -> bool
    ensures { IsTrue result → (j : ℕ) → GoesStraightBy c.now.op c.now place j → Allows table.now j count }
{
    let next = place.wrapping_add(1);
    match c.op {
        ControlOp::Jump => c.cond == Condition::Always || allows(table, next, count),
        ControlOp::Skip => {
            (c.cond == Condition::Always || allows(table, next, count))
                && allows(table, skipped(place, c.n), count)
        }
        ControlOp::Call | ControlOp::Exchange | ControlOp::Quit | ControlOp::QuitKeep => true,
        ControlOp::Nop
        | ControlOp::TargetSet
        | ControlOp::TargetGet
        | ControlOp::TrapGet
        | ControlOp::Reserve
        | ControlOp::Create
        | ControlOp::Mask => allows(table, next, count),
    }
}

/// Whether a table has what a control operation does by target registers.
fn leads_by_targets(
    table: &[Option<u8>],
    anywhere: Option<u8>,
    place: u32,
    count: u32,
    c: &CPart,
) -> bool
    ensures jumps { IsTrue result → GoesByTarget c.now.op → AllowsAny anywhere count }
    ensures starts { IsTrue result → Starts c.now.op → AllowsAny anywhere 0 }
    ensures returns { IsTrue result → Returns c.now.op → IsAimed table.now anywhere (next_pc place) }
    ensures handler { IsTrue result → SetsHandler c.now.op c.now → ⊥ }
{
    match c.op {
        ControlOp::Jump => allows_any(anywhere, count),
        ControlOp::Call => {
            c.u != 0
                && allows_any(anywhere, count)
                && is_aimed(table, anywhere, place.wrapping_add(1))
        }
        ControlOp::Create => allows_any(anywhere, 0),
        ControlOp::Exchange | ControlOp::TargetSet => false,
        ControlOp::Nop
        | ControlOp::Skip
        | ControlOp::Quit
        | ControlOp::QuitKeep
        | ControlOp::TargetGet
        | ControlOp::TrapGet
        | ControlOp::Reserve
        | ControlOp::Mask => true,
    }
}

/// Whether a table has all that a control operation leads to.
#[tactic(auto, using(crate::proofs::MadeTables::control_leads))]
fn control_leads(
    table: &[Option<u8>],
    anywhere: Option<u8>,
    place: u32,
    count: u32,
    c: &CPart,
) -> bool
    ensures { IsTrue result → ControlLeads table.now anywhere place count c.now c.now.op }
{
    leads_straight(table, place, count, c) && leads_by_targets(table, anywhere, place, count, c)
}

/// Whether a table has what a wide operation sets a target register to.
fn wide_aims(table: &[Option<u8>], anywhere: Option<u8>, op: WideOp, reg: u8, imm: u32) -> bool
    ensures { IsTrue result → WideAims table.now anywhere op reg imm }
{
    match op {
        WideOp::Literal | WideOp::LiteralHigh => true,
        WideOp::TargetLiteral => {
            reg != 0 && is_aimed(table, anywhere, imm) && allows(table, imm, 0)
        }
    }
}

/// Whether a table has all that an instruction leads to.
fn leads(table: &[Option<u8>], anywhere: Option<u8>, place: u32, count: u8, insn: &Insn) -> bool
    ensures { IsTrue result → Leads table.now anywhere place count insn.now }
{
    match insn {
        Insn::Wide { op, reg, imm, .. } => {
            allows(table, place.wrapping_add(1), u32::from(count))
                && wide_aims(table, anywhere, *op, *reg, *imm)
        }
        Insn::Normal { a, c, .. } => {
            control_leads(table, anywhere, place, count_after(a.test, count), c)
        }
    }
}

/// How many codes a way to a place makes at most, by a table; None where there is none.
pub(crate) fn most_at(table: &[Option<u8>], place: u32) -> Option<u8>
    ensures { result ≡ most_at table.now place }
{
    match table.get(place as usize) {
        None => None,
        Some(None) => None,
        Some(Some(most)) => Some(*most),
    }
}

/// Whether a table has all that the instruction at a place leads to, if there is one, with at most so many codes before it.
fn leads_from(
    image: &Image,
    table: &[Option<u8>],
    anywhere: Option<u8>,
    place: u32,
    most: u8,
) -> bool
    ensures { IsTrue result → LeadsIf table.now anywhere place most (insn_at image.now place) }
{
    match insn_at(image, place) {
        None => true,
        Some(insn) => leads(table, anywhere, place, most, &insn),
    }
}

/// Whether a table has all that the instruction at a place leads to, if streams come there.
fn leads_at(image: &Image, table: &[Option<u8>], anywhere: Option<u8>, place: u32) -> bool
    ensures { IsTrue result → LeadsWhere image.now table.now anywhere place (most_at table.now place) }
{
    match most_at(table, place) {
        None => true,
        Some(most) => leads_from(image, table, anywhere, place, most),
    }
}

/// Whether a table has all that the instructions of an image's program lead to.
#[tactic(auto, using(crate::proofs::MadeTables::all_lead))]
fn all_lead(image: &Image, table: &[Option<u8>], anywhere: Option<u8>) -> bool
    ensures { IsTrue result → (k : ℕ) → LeadsWhere image.now table.now anywhere k (most_at table.now k) }
{
    for place in 0..table.len() {
        let Ok(place) = u32::try_from(place) else {
            return false;
        };
        if !leads_at(image, table, anywhere, place) {
            return false;
        }
    }
    true
}

/// Whether a table has the entries of an image's processors, with no code.
fn has_entries(image: &Image, table: &[Option<u8>]) -> bool
    ensures { IsTrue result → (p e : ℕ) → slice_get image.now.entries p ≡ Some e → Allows table.now e 0 }
{
    for processor in 0..image.processors() {
        if let Some(entry) = image.entry(processor) {
            if !allows(table, entry, 0) {
                return false;
            }
        }
    }
    true
}

/// Whether a table has all that streams of an image come to, and traps lead past its end.
#[tactic(auto, using(crate::proofs::MadeTables::closed_table))]
pub(crate) fn is_closed(image: &Image, table: &[Option<u8>], anywhere: Option<u8>) -> bool
    ensures { IsTrue result → IsClosedTable image.now table.now anywhere }
{
    table.len() == image.program().len()
        && table.len() <= image.trap_entry() as usize
        && is_aimed(table, anywhere, 0)
        && has_entries(image, table)
        && all_lead(image, table, anywhere)
}
