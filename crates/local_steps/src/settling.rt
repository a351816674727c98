//! Places of a program from which no way leads to a RESERVE or CREATE.

ghost use Rattle.std.specs.Prelude.{◌≡◌, ℕ, IsTrue, IfOk, slice_get};
ghost use Rattle.stream_core.specs.StreamRow.{fetch_word};
ghost use Rattle.program_flow.specs.Flow.{GoesTo};
ghost use Rattle.local_steps.specs.SettledEndings.{is_settled_place, AreSettled};
ghost use Rattle.local_steps.specs.CalmPlaces.{is_calm, IsCalmAt, AreCalm};

use image_file::Image;
use insn_word::{Condition, ControlOp, Insn, Profile, WideOp, decode_as};
use program_flow::skipped;
use std::alloc::{AllocError, Global};

/// How often a program is gone through at most.
const ROUNDS: u32 = 1000;

/// For each word of an image's program whether it is settled: from there no RESERVE or CREATE can be reached, as far as
/// the program alone shows, if t0 names no handler. That all such words are found is not promised: none is found if
/// that is not done after going through the program 1,000 times. An error if memory is refused.
pub fn settled_places(alloc: Global, image: &Image) -> Result<Vec<bool>, AllocError>
    ensures { IfOk result (λ places. AreSettled image.now places.items) }
{
    let profile = image.profile();
    let program = image.program();
    let mut places = vec![in alloc; true; program.len()]?;
    for _ in 0..ROUNDS {
        if !go_through(profile, program, &mut places) {
            break;
        }
    }
    if are_settled(image, &places) {
        return Ok(places);
    }
    Ok(Vec::new(alloc))
}

/// Whether a stream at one of these places never asks for a stream, as far as the program alone shows.
fn are_settled(image: &Image, places: &[bool]) -> bool
    ensures { IsTrue result → AreSettled image.now places.now }
{
    are_calm(image.profile(), image.program(), places)
}

/// Takes away from the settled places those that are not settled, by the places that can come next, the last one first,
/// and says whether there were any.
fn go_through(profile: Profile, program: &[u64], places: &mut [bool]) -> bool {
    let mut changed = false;
    for place in (0..places.len()).rev() {
        if let Ok(number) = u32::try_from(place)
            && places[place]
            && !is_calm_at(profile, program, places, number)
        {
            places[place] = false;
            changed = true;
        }
    }
    changed
}

/// Whether each settled place leads to settled ones alone, and asks for no stream.
fn are_calm(profile: Profile, program: &[u64], places: &[bool]) -> bool
    ensures { IsTrue result → AreCalm profile program.now places.now }
{
    for place in 0..places.len() {
        let Ok(place) = u32::try_from(place) else {
            return false;
        };
        if !is_calm_if_settled(profile, program, places, place) {
            return false;
        }
    }
    true
}

/// Whether a place is not settled, or what stands there is calm.
fn is_calm_if_settled(profile: Profile, program: &[u64], places: &[bool], place: u32) -> bool
    ensures { IsTrue result → IsTrue (is_settled_place places.now place)
        → IsCalmAt places.now place (fetch_word profile (slice_get program.now place)) }
{
    !is_settled_place(places, place) || is_calm_at(profile, program, places, place)
}

/// Whether what stands at a place asks for no stream, leaves t0, and leads to settled places.
fn is_calm_at(profile: Profile, program: &[u64], places: &[bool], place: u32) -> bool
    ensures { IsTrue result → IsCalmAt places.now place (fetch_word profile (slice_get program.now place)) }
{
    match program.get(place as usize) {
        None => true,
        Some(word) => match decode_as(profile, *word) {
            None => true,
            Some(insn) => is_calm(&insn) && leads_to_settled(&insn, places, place),
        },
    }
}

/// Whether an instruction asks for no stream, leaves t0, and leads to places that the word names.
pub fn is_calm(insn: &Insn) -> bool
    ensures { result ≡ is_calm insn.now }
{
    match insn {
        Insn::Wide { op, reg, .. } => match op {
            WideOp::TargetLiteral => *reg != 0,
            WideOp::Literal | WideOp::LiteralHigh => true,
        },
        Insn::Normal { c, .. } => match c.op {
            ControlOp::TargetSet => c.t != 0,
            ControlOp::Jump
            | ControlOp::Call
            | ControlOp::Exchange
            | ControlOp::Reserve
            | ControlOp::Create => false,
            ControlOp::Nop
            | ControlOp::Skip
            | ControlOp::TargetGet
            | ControlOp::TrapGet
            | ControlOp::Quit
            | ControlOp::QuitKeep
            | ControlOp::Mask => true,
        },
    }
}

/// Whether an instruction leads to settled places alone.
fn leads_to_settled(insn: &Insn, places: &[bool], place: u32) -> bool
    ensures { IsTrue result → (j : ℕ) → GoesTo insn.now place j → IsTrue (is_settled_place places.now j) }
{
    let next = is_settled_place(places, place.wrapping_add(1));
    match insn {
        Insn::Wide { .. } => next,
        Insn::Normal { c, .. } => match c.op {
            ControlOp::Jump | ControlOp::Call | ControlOp::Exchange => false,
            ControlOp::Skip => {
                (c.cond == Condition::Always || next)
                    && is_settled_place(places, skipped(place, c.n))
            }
            ControlOp::Quit | ControlOp::QuitKeep => true,
            ControlOp::Nop
            | ControlOp::TargetSet
            | ControlOp::TargetGet
            | ControlOp::TrapGet
            | ControlOp::Reserve
            | ControlOp::Create
            | ControlOp::Mask => next,
        },
    }
}

/// Whether a place is settled; past the end none is.
pub(crate) fn is_settled_place(places: &[bool], place: u32) -> bool
    ensures { result ≡ is_settled_place places.now place }
{
    match places.get(place as usize) {
        Some(is_settled) => *is_settled,
        None => false,
    }
}
