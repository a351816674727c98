//! Words from which a stream runs on past the end of its program, or into the code where a processor begins.

ghost use Rattle.std.specs.Prelude.{◌≡◌, ◌≤◌, All, true, IsTrue, IfOk, IfSome, Some, length, slice_get};
ghost use Rattle.stream_core.specs.Effects.{skip_pc};
ghost use Rattle.source_slips.specs.Places.{insn_at, GoesStraight, GoesStraightBy};
ghost use Rattle.source_slips.specs.Falls.{RunsPast, RunsInto, LeadsPast, LeadsInto};

use image_file::Image;
use insn_word::{CPart, Condition, ControlOp, Insn, decode_as};
use reachable_places::reachable_places;
use std::alloc::{AllocError, Global};

/// A word from which a stream goes straight on to a place past the program's end.
#[derive(Clone, Copy)]
pub struct PastEnd {
    /// The word of the program.
    pub place: u32,
    /// Where the stream goes on.
    pub next: u32,
}

/// The words of an image's program, in their order, to which ways lead and from which a stream that goes straight on is past
/// the end: by the next word, or by a SKIP forward. Only memory can be missing.
pub fn past_ends(alloc: Global, image: &Image) -> Result<Vec<PastEnd>, AllocError>
    ensures { IfOk result (λ found. All (λ e. RunsPast image.now e.place e.next) found.items) }
{
    let reached = reachable_places(alloc, image)?;
    let mut found = Vec::new(alloc);
    for place in 0..image.program().len() {
        let Ok(place) = u32::try_from(place) else {
            return Ok(found);
        };
        if is_reached(&reached, place) {
            if let Some(next) = past_from(image, place) {
                found.push(PastEnd { place, next })?;
            }
        }
    }
    Ok(found)
}

/// A word from which a stream goes on into the code where a processor begins.
#[derive(Clone, Copy)]
pub struct RunInto {
    /// The word of the program.
    pub place: u32,
    /// The processor.
    pub processor: usize,
}

/// The words of an image's program, in their order, to which ways lead and whose next word, where a stream may go on, is the
/// entry of a processor. Only memory can be missing.
pub fn runs_into(alloc: Global, image: &Image) -> Result<Vec<RunInto>, AllocError>
    ensures { IfOk result (λ found. All (λ r. RunsInto image.now r.place r.processor) found.items) }
{
    let reached = reachable_places(alloc, image)?;
    let mut found = Vec::new(alloc);
    for place in 0..image.program().len() {
        let Ok(place) = u32::try_from(place) else {
            return Ok(found);
        };
        if is_reached(&reached, place) {
            if let Some(processor) = entered_from(image, place) {
                found.push(RunInto { place, processor })?;
            }
        }
    }
    Ok(found)
}

/// Whether a list says of a word that a way leads to it.
fn is_reached(reached: &[bool], place: u32) -> bool
    ensures { IsTrue result → slice_get reached.now place ≡ Some true }
{
    match reached.get(place as usize) {
        None => false,
        Some(is_reached) => *is_reached,
    }
}

/// The instruction at a place of an image's program, if there is one.
pub(crate) fn insn_at(image: &Image, place: u32) -> Option<Insn>
    ensures { result ≡ insn_at image.now place }
{
    match image.program().get(place as usize) {
        None => None,
        Some(word) => decode_as(image.profile(), *word),
    }
}

/// The first processor whose entry is the next word, where a stream may go on from a word.
fn entered_from(image: &Image, place: u32) -> Option<usize>
    ensures { IfSome result (LeadsInto image.now (insn_at image.now place) place) }
{
    match insn_at(image, place) {
        None => None,
        Some(insn) => entered(image, &insn, place),
    }
}

/// The first processor whose entry is the next word, where an instruction may go on.
fn entered(image: &Image, insn: &Insn, place: u32) -> Option<usize>
    ensures { IfSome result (LeadsInto image.now (Some insn.now) place) }
{
    match next_place(insn, place) {
        None => None,
        Some(next) => processor_from(image, next),
    }
}

/// The first processor that begins at a place.
fn processor_from(image: &Image, place: u32) -> Option<usize>
    ensures { IfSome result (λ p. slice_get image.now.entries p ≡ Some place) }
{
    for processor in 0..image.processors() {
        if let Some(entry) = image.entry(processor) {
            if entry == place {
                return Some(processor);
            }
        }
    }
    None
}

/// A place past the end to which the instruction at a word goes straight on; None where there is none, or where SKIP leads
/// back before the program.
fn past_from(image: &Image, place: u32) -> Option<u32>
    ensures { IfSome result (LeadsPast (insn_at image.now place) place (length image.now.program)) }
{
    match insn_at(image, place) {
        None => None,
        Some(insn) => past_place(&insn, place, image.program().len()),
    }
}

/// A place past so many words to which an instruction goes straight on.
fn past_place(insn: &Insn, place: u32, count: usize) -> Option<u32>
    ensures { IfSome result (λ j. GoesStraight insn.now place j × (count ≤ j)) }
{
    match next_place(insn, place) {
        None => past_skip(insn, place, count),
        Some(next) => {
            if next as usize >= count {
                Some(next)
            } else {
                past_skip(insn, place, count)
            }
        }
    }
}

/// A place past so many words to which a SKIP leads.
fn past_skip(insn: &Insn, place: u32, count: usize) -> Option<u32>
    ensures { IfSome result (λ j. GoesStraight insn.now place j × (count ≤ j)) }
{
    match skip_place(insn, place) {
        None => None,
        Some(target) => {
            if target as usize >= count {
                Some(target)
            } else {
                None
            }
        }
    }
}

/// The next place, if an instruction may go on there.
pub(crate) fn next_place(insn: &Insn, place: u32) -> Option<u32>
    ensures { IfSome result (GoesStraight insn.now place) }
{
    match insn {
        Insn::Wide { .. } => Some(place.wrapping_add(1)),
        Insn::Normal { c, .. } => next_by(c, place),
    }
}

/// The next place, if a word with this control operation may go on there.
fn next_by(c: &CPart, place: u32) -> Option<u32>
    ensures { IfSome result (GoesStraightBy c.now.op c.now place) }
{
    match c.op {
        ControlOp::Jump | ControlOp::Skip => {
            if c.cond == Condition::Always {
                None
            } else {
                Some(place.wrapping_add(1))
            }
        }
        ControlOp::Call | ControlOp::Exchange | ControlOp::Quit | ControlOp::QuitKeep => None,
        ControlOp::Nop
        | ControlOp::TargetSet
        | ControlOp::TargetGet
        | ControlOp::TrapGet
        | ControlOp::Reserve
        | ControlOp::Create
        | ControlOp::Mask => Some(place.wrapping_add(1)),
    }
}

/// The place to which a SKIP forward leads; None of any other instruction.
fn skip_place(insn: &Insn, place: u32) -> Option<u32>
    ensures { IfSome result (GoesStraight insn.now place) }
{
    match insn {
        Insn::Wide { .. } => None,
        Insn::Normal { c, .. } => skip_by(c, place),
    }
}

/// The place to which a SKIP forward leads; None of any other control operation.
fn skip_by(c: &CPart, place: u32) -> Option<u32>
    ensures { IfSome result (GoesStraightBy c.now.op c.now place) }
{
    match c.op {
        ControlOp::Skip => {
            if c.n >= 0 {
                Some(skipped(place, c.n))
            } else {
                None
            }
        }
        _ => None,
    }
}

/// The place so many words after the next one, modulo 2^32.
pub(crate) fn skipped(place: u32, words: i8) -> u32
    ensures { result ≡ skip_pc place words }
{
    place
        .wrapping_add(1)
        .wrapping_add(i32::from(words).cast_unsigned())
}
