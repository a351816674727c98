//! The marks of streams in what processors hold.

ghost use Rattle.std.specs.Prelude.{◌≡◌, ◌+◌, ◌*◌, ℕ, List, true, Some, slice_get, slice_set, IfSome, IfOk, OnOk};
ghost use Rattle.processor.specs.Processors.{stream_at};
ghost use Rattle.world_keys.specs.Tables.{place_in, Has, Extends};
ghost use Rattle.world_keys.specs.WorldKeys.{processor_in};
ghost use Rattle.schedule_space.specs.StreamSteps.{IsPlainIn, IsMark};

use machine::Machine;
use processor::Step;
use std::alloc::{AllocError, Global};
use stream_core::Control;
use world_keys::{Table, mark_of};

/// A mark in the numbers of a processor: which it is, and the place of what its stream holds.
#[derive(Clone, Copy, Debug, PartialEq, Eq)]
pub(crate) struct Mark {
    pub(crate) number: usize,
    pub(crate) content: u32,
}

/// The mark of a stream in the numbers at a place of a table; None where the stream is idle.
pub(crate) fn mark_in(contents: &Table, place: u32, s: u8) -> Option<Mark>
    ensures { IfSome result (λ m. IsMark contents.now place s m) }
{
    let numbers = contents.list(place as usize)?;
    let number = mark_of(numbers, s)?;
    Some(Mark {
        number,
        content: numbers[2 * number + 2],
    })
}

/// The place of the same numbers but for what the stream of a mark holds.
pub(crate) fn place_with(
    alloc: Global,
    contents: &mut Table,
    place: u32,
    s: u8,
    mark: Mark,
    content: u32,
) -> Result<u32, AllocError>
    requires mark { IsMark contents.old place s mark }
    ensures is { (ns : List ℕ) → slice_get contents.old place ≡ Some ns
        → IfOk result (λ k. k ≡ place_in contents.new (slice_set ns (2 * mark.number + 2) content)) }
    ensures has { (ns : List ℕ) → slice_get contents.old place ≡ Some ns
        → OnOk result (Has contents.new (slice_set ns (2 * mark.number + 2) content)) }
    ensures grown { Extends contents.old contents.new }
{
    let mut numbers = Vec::from_slice(alloc, contents.list(place as usize).unwrap())?;
    numbers[2 * mark.number + 2] = content;
    contents.place(&numbers)
}

/// Whether the instruction of a step neither reserves nor starts nor ends a stream.
pub(crate) fn is_plain<const S: usize>(machine: &Machine<'_, S>, step: Step) -> bool
    ensures { result ≡ true
        → IsPlainIn machine.now.image (stream_at (processor_in machine.now.world step.p).streams step.s) }
{
    let image = machine.image();
    match machine.stream(step.p, step.s) {
        Some(stream) => matches!(
            stream.control(image.profile(), image.program()),
            Control::Plain
        ),
        None => false,
    }
}
