//! Conditions that ask a code which no run has made.

ghost use Rattle.std.specs.Prelude.{◌≢◌, All, IsTrue, IfOk};
ghost use Rattle.insn_word.specs.declared.operations.Condition.TheVariants as condition;
ghost use Rattle.source_slips.specs.Places.{insn_at};
ghost use Rattle.source_slips.specs.Codes.{HasCondition, AsksNoCode};
ghost use Rattle.source_slips.specs.Made.{AsksFrom, AsksIf};
ghost use Rattle.source_slips.specs.MostCodes.{IsLeast, MostMade};

use crate::closed_codes::{is_closed, most_at};
use crate::made_codes::codes_made;
use crate::program::ProgramWords;
use crate::straight_ways::insn_at;
use image_file::Image;
use insn_word::{CPart, Condition, ControlOp, Insn};
use std::alloc::{AllocError, Global};

/// A SKIP or JUMP that asks a condition code which no run has made where it stands.
#[derive(Clone, Copy)]
pub struct UnmadeCode {
    /// The word of the program.
    pub place: u32,
    /// How many codes are made at most on the ways to it, which are newer.
    pub most: u8,
}

/// The words of an image's program, in their order, that ask a condition code which no run has made there: in each world
/// that a schedule leads to it has no bit. Not all such words are found: none where a trap handler, XCHG or TSET may go on
/// anywhere with any codes. Only memory can be missing.
pub fn unmade_codes(alloc: Global, image: &Image) -> Result<Vec<UnmadeCode>, AllocError>
    ensures codes { IfOk result (λ found. All (λ u. AsksNoCode image.now u.place) found.items) }
    ensures most { IfOk result (λ found. All (λ u. MostMade image.now u.place u.most) found.items) }
{
    let program = ProgramWords::of(alloc, image)?;
    if program.goes_anywhere {
        return Ok(Vec::new(alloc));
    }
    let Some(made) = codes_made(alloc, image)? else {
        return Ok(Vec::new(alloc));
    };
    unmade_by(alloc, image, &made.most, made.anywhere)
}

/// The words that ask a code which is not made there by a table of how many are at most; none where the table lacks
/// something.
fn unmade_by(
    alloc: Global,
    image: &Image,
    table: &[Option<u8>],
    anywhere: Option<u8>,
) -> Result<Vec<UnmadeCode>, AllocError>
    requires { IsLeast image.now table.now anywhere }
    ensures codes { IfOk result (λ found. All (λ u. AsksNoCode image.now u.place) found.items) }
    ensures most { IfOk result (λ found. All (λ u. MostMade image.now u.place u.most) found.items) }
{
    let mut found = Vec::new(alloc);
    if !is_closed(image, table, anywhere) {
        return Ok(found);
    }
    for place in 0..table.len() {
        let Ok(place) = u32::try_from(place) else {
            return Ok(found);
        };
        if let Some(most) = most_at(table, place) {
            if asks_at(image, place, most) {
                found.push(UnmadeCode { place, most })?;
            }
        }
    }
    Ok(found)
}

/// Whether an instruction at a place asks a code that so many leave unmade.
fn asks_at(image: &Image, place: u32, most: u8) -> bool
    ensures { IsTrue result → AsksIf most (insn_at image.now place) }
{
    match insn_at(image, place) {
        None => false,
        Some(insn) => asks_from(&insn, most),
    }
}

/// Whether an instruction asks a code that so many leave unmade; not where the code seems meant that its own word makes.
fn asks_from(insn: &Insn, most: u8) -> bool
    ensures { IsTrue result → AsksFrom most insn.now }
{
    match insn {
        Insn::Wide { .. } => false,
        Insn::Normal { a, c, .. } => {
            let is_own = a.test && c.code == 0;
            is_asking(c) && c.code >= most && c.code < 4 && !is_own
        }
    }
}

/// Whether a control operation asks a code.
fn is_asking(c: &CPart) -> bool
    ensures operation { IsTrue result → HasCondition c.now.op }
    ensures conditional { IsTrue result → c.now.cond ≢ condition.Always }
{
    match c.op {
        ControlOp::Jump | ControlOp::Skip => c.cond != Condition::Always,
        _ => false,
    }
}
