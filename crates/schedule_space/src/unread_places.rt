//! Places of a program at which an instruction loads what nobody reads.

ghost use Rattle.std.specs.Prelude.{◌≡◌, ◌⊎◌, ℕ, false, IsTrue, IfOk, slice_get, slice_index_or};
ghost use Rattle.insn_word.specs.declared.insn.Insn.{Insn};
ghost use Rattle.stream_core.specs.Effects.{next_pc};
ghost use Rattle.stream_core.specs.StreamRow.{fetch_word};
ghost use Rattle.stream_core.specs.declared.steps.Fetch.TheVariants as fetch;
ghost use Rattle.program_flow.specs.Flow.{GoesTo};
ghost use Rattle.program_flow.specs.Tables.{is_live_at, is_named_by};
ghost use Rattle.first_sets.specs.UnreadLoads.{loaded_register, IsUnread};
ghost use Rattle.schedule_space.specs.Tables.{AreUnreadBy};

use image_file::Image;
use insn_word::{Condition, ControlOp, Insn, decode_as};
use program_flow::skipped;
use std::alloc::{AllocError, Global};
use world_keys::registers::LiveRegisters;

/// For each place of an image's program whether nobody reads what the instruction there loads, by what is live and which
/// registers are named. Nothing is marked where that is not known. An error where memory is refused.
pub(crate) fn unread_places(
    alloc: Global,
    image: &Image,
    live: &LiveRegisters,
) -> Result<Vec<bool>, AllocError>
    ensures { IfOk result (λ marks. AreUnreadBy live.now image.now.profile image.now.program marks.items) }
{
    let marks = draft(alloc, image, live)?;
    if are_unread(image, live, &marks) {
        return Ok(marks);
    }
    Ok(Vec::new(alloc))
}

/// Such marks, which nobody has looked at.
fn draft(alloc: Global, image: &Image, live: &LiveRegisters) -> Result<Vec<bool>, AllocError> {
    let mut marks = Vec::new(alloc);
    for place in 0..image.program().len() {
        let number = u32::try_from(place).unwrap_or(u32::MAX);
        marks.push(is_unread_place(image, live, number))?;
    }
    Ok(marks)
}

/// Whether at each marked place nobody reads what the instruction there loads.
fn are_unread(image: &Image, live: &LiveRegisters, marks: &[bool]) -> bool
    ensures { IsTrue result → AreUnreadBy live.now image.now.profile image.now.program marks.now }
{
    for place in 0..marks.len() {
        let Ok(place) = u32::try_from(place) else {
            return false;
        };
        if !is_marked_rightly(image, live, marks, place) {
            return false;
        }
    }
    true
}

/// Whether a place is not marked, or nobody reads what the instruction there loads.
fn is_marked_rightly(image: &Image, live: &LiveRegisters, marks: &[bool], place: u32) -> bool
    ensures { IsTrue result → (i : Insn) → IsTrue (slice_index_or marks.now place false)
        → fetch_word image.now.profile (slice_get image.now.program place) ≡ fetch.Instruction i
        → IsUnread (λ r. IsTrue (is_named_by live.now.names r)) (λ k r. IsTrue (is_live_at live.now.table k r)) i place }
{
    !is_marked(marks, place) || is_unread_place(image, live, place)
}

/// Whether a place is marked.
fn is_marked(marks: &[bool], place: u32) -> bool
    ensures { result ≡ slice_index_or marks.now place false }
{
    match marks.get(place as usize) {
        Some(is_marked) => *is_marked,
        None => false,
    }
}

/// Whether an instruction stands at a place that loads what nobody reads.
fn is_unread_place(image: &Image, live: &LiveRegisters, place: u32) -> bool
    ensures { IsTrue result → (i : Insn)
        → fetch_word image.now.profile (slice_get image.now.program place) ≡ fetch.Instruction i
        → IsUnread (λ r. IsTrue (is_named_by live.now.names r)) (λ k r. IsTrue (is_live_at live.now.table k r)) i place }
{
    match image.program().get(place as usize) {
        None => false,
        Some(word) => match decode_as(image.profile(), *word) {
            None => false,
            Some(insn) => is_unread(live, &insn, place),
        },
    }
}

/// Whether nobody reads what an instruction at a place loads.
fn is_unread(live: &LiveRegisters, insn: &Insn, place: u32) -> bool
    ensures { IsTrue result → IsUnread (λ r. IsTrue (is_named_by live.now.names r))
        (λ k r. IsTrue (is_live_at live.now.table k r)) insn.now place }
{
    let register = loaded_register(insn);
    !live.is_named(register) && is_dead_after(live, insn, place, register)
}

/// The register that an instruction loads; r0 where it loads none.
fn loaded_register(insn: &Insn) -> u8
    ensures { result ≡ loaded_register insn.now }
{
    match insn {
        Insn::Wide { .. } => 0,
        Insn::Normal { m, .. } => m.destination(),
    }
}

/// Whether a register is not live wherever an instruction at a place goes on.
fn is_dead_after(live: &LiveRegisters, insn: &Insn, place: u32, register: u8) -> bool
    ensures { IsTrue result → (j : ℕ) → GoesTo insn.now place j → ¬ (IsTrue (is_live_at live.now.table j register)) }
{
    let is_dead_next = !live.is_live(place.wrapping_add(1), register);
    match insn {
        Insn::Wide { .. } => is_dead_next,
        Insn::Normal { c, .. } => match c.op {
            ControlOp::Jump | ControlOp::Call | ControlOp::Exchange => false,
            ControlOp::Skip => {
                is_dead_or_passed(c.cond, is_dead_next)
                    && !live.is_live(skipped(place, c.n), register)
            }
            ControlOp::Quit | ControlOp::QuitKeep => true,
            ControlOp::Nop
            | ControlOp::TargetSet
            | ControlOp::TargetGet
            | ControlOp::TrapGet
            | ControlOp::Reserve
            | ControlOp::Create
            | ControlOp::Mask => is_dead_next,
        },
    }
}

/// Whether a SKIP with this condition always skips, or a register is dead where it does not.
fn is_dead_or_passed(cond: Condition, is_dead: bool) -> bool
    ensures { IsTrue result → (cond ≡ Condition.Always) ⊎ IsTrue is_dead }
{
    cond == Condition::Always || is_dead
}
