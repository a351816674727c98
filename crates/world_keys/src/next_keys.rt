//! The key of a machine's world after a step, from the key before it.

ghost use Rattle.std.specs.Prelude.{◌≡◌, ◌≢◌, ◌<◌, ◌+◌, ◌*◌, ℕ, true, Some, None, length, slice_get, slice_index_or};
ghost use Rattle.std.specs.Prelude.{◌++◌, take, drop, slice_set, IfOk, OnOk, IfSome};
ghost use Rattle.dead_registers.specs.Clearing.{cleared};
ghost use Rattle.world_keys.specs.Tables.{place_in, Has, Extends};
ghost use Rattle.world_keys.specs.MemoryNumbers.{memory_numbers};
ghost use Rattle.world_keys.specs.WorldKeys.{processor_in, processor_numbers, processor_place, key_of};
ghost use Rattle.world_keys.specs.WorldKeys.{IsMemoryOf, IsHeld, IsKnownProcessor, IsKnown};
ghost use Rattle.world_keys.specs.Changes.{IsPlaceBefore, IsKeyBefore};

use crate::keys::{is_idle, processor_place};
use crate::memory_numbers::memory_numbers;
use crate::stream_numbers::stream_numbers;
use crate::tables::Table;
use dead_registers::LiveRegisters;
use machine::Machine;
use processor::Step;
use std::alloc::{AllocError, Global};

/// What a step can have changed: its processor, and in it its stream.
#[derive(Clone, Copy, Debug, PartialEq, Eq)]
pub struct Change {
    /// The step.
    pub step: Step,
    /// Whether the memory is as it was.
    pub is_memory_kept: bool,
    /// Whether the other streams of the step's processor are as they were.
    pub are_others_kept: bool,
}

/// The key of a machine's world after a step, as `world_key` gives it, from the key `before` the step: only what the
/// step can have changed is looked up anew.
pub fn next_key<const S: usize>(
    alloc: Global,
    live: &LiveRegisters,
    contents: &mut Table,
    before: &[u32],
    machine: &Machine<'_, S>,
    change: Change,
) -> Result<Vec<u32>, AllocError>
    requires memory { IsMemoryOf machine.now.image machine.now.world.memory }
    requires there { change.step.p < length machine.now.world.processors }
    requires before { IsKeyBefore contents.old machine.now.image (cleared live.now machine.now.world) change before.now }
    ensures is { IfOk result (λ v. v.items ≡ key_of contents.new machine.now.image (cleared live.now machine.now.world)) }
    ensures known { OnOk result (IsKnown contents.new machine.now.image (cleared live.now machine.now.world)) }
    ensures grown { Extends contents.old contents.new }
{
    let here = usize::from(change.step.p) + 1;
    let memory = memory_place(alloc, contents, before[0], machine, change.is_memory_kept)?;
    let place = changed_place(alloc, live, contents, before[here], machine, change)?;
    let mut key = Vec::from_slice(alloc, before)?;
    key[0] = memory;
    key[here] = place;
    Ok(key)
}

/// The place of what the memory holds: the one before, where the memory is as it was.
fn memory_place<const S: usize>(
    alloc: Global,
    contents: &mut Table,
    before: u32,
    machine: &Machine<'_, S>,
    is_kept: bool,
) -> Result<u32, AllocError>
    requires memory { IsMemoryOf machine.now.image machine.now.world.memory }
    requires there { is_kept ≡ true → Has contents.old (memory_numbers machine.now.image machine.now.world.memory) }
    requires before { is_kept ≡ true
        → before ≡ place_in contents.old (memory_numbers machine.now.image machine.now.world.memory) }
    ensures is { IfOk result (λ k. k ≡ place_in contents.new (memory_numbers machine.now.image machine.now.world.memory)) }
    ensures there { OnOk result (Has contents.new (memory_numbers machine.now.image machine.now.world.memory)) }
    ensures grown { Extends contents.old contents.new }
{
    if is_kept {
        return Ok(before);
    }
    let numbers = memory_numbers(alloc, machine)?;
    let place = contents.place(&numbers)?;
    Ok(place)
}

/// The place of what the processor of a step holds, from the one before.
fn changed_place<const S: usize>(
    alloc: Global,
    live: &LiveRegisters,
    contents: &mut Table,
    before: u32,
    machine: &Machine<'_, S>,
    change: Change,
) -> Result<u32, AllocError>
    requires there { change.step.p < length machine.now.world.processors }
    requires before { IsPlaceBefore contents.old machine.now.image (processor_in (cleared live.now machine.now.world) change.step.p) change before }
    ensures is { IfOk result (λ k. k
        ≡ processor_place contents.new (processor_in (cleared live.now machine.now.world) change.step.p)) }
    ensures known { OnOk result (IsKnownProcessor contents.new machine.now.image
        (processor_in (cleared live.now machine.now.world) change.step.p)) }
    ensures grown { Extends contents.old contents.new }
{
    match changed_numbers(alloc, live, contents, before, machine, change)? {
        Some(numbers) => {
            let place = contents.place(&numbers)?;
            Ok(place)
        }
        None => processor_place(alloc, live, contents, machine, change.step.p),
    }
}

/// The numbers of a processor where only the stream of the step changed, or ended; None where that is not known.
fn changed_numbers<const S: usize>(
    alloc: Global,
    live: &LiveRegisters,
    contents: &mut Table,
    before: u32,
    machine: &Machine<'_, S>,
    change: Change,
) -> Result<Option<Vec<u32>>, AllocError>
    requires there { change.step.p < length machine.now.world.processors }
    requires before { IsPlaceBefore contents.old machine.now.image (processor_in (cleared live.now machine.now.world) change.step.p) change before }
    ensures is { IfOk result (λ o. IfSome o (λ v. v.items
        ≡ processor_numbers contents.new (processor_in (cleared live.now machine.now.world) change.step.p))) }
    ensures held { IfOk result (λ o. IfSome o (λ _. IsHeld contents.new machine.now.image
        (processor_in (cleared live.now machine.now.world) change.step.p))) }
    ensures grown { Extends contents.old contents.new }
{
    let Step { p, s } = change.step;
    let Some(stream) = machine.stream(p, s) else {
        return Ok(None);
    };
    if !change.are_others_kept {
        return Ok(None);
    }
    let Some(marks) = contents.list(before as usize) else {
        return Ok(None);
    };
    let Some(mark) = mark_of(marks, s) else {
        return Ok(None);
    };
    let (_, sres) = machine.counts(p).unwrap();
    let reserved = u32::from(sres);
    if is_idle(stream.status()) {
        let rest = numbers_without(alloc, marks, mark, reserved)?;
        return Ok(Some(rest));
    }
    let mut numbers = Vec::from_slice(alloc, marks)?;
    let held = stream_numbers(alloc, live, stream)?;
    let place = contents.place(&held)?;
    numbers[0] = reserved;
    numbers[2 * mark + 2] = place;
    Ok(Some(numbers))
}

/// The numbers of a processor without one of its marks, and with how many streams are reserved now.
fn numbers_without(
    alloc: Global,
    marks: &[u32],
    mark: usize,
    sres: u32,
) -> Result<Vec<u32>, AllocError>
    requires { 2 * mark + 2 < length marks.now }
    ensures { IfOk result (λ v. v.items
        ≡ slice_set (take (2 * mark + 1) marks.now ++ drop (2 * mark + 3) marks.now) 0 sres) }
{
    let mut numbers = Vec::from_slice(alloc, &marks[..2 * mark + 1])?;
    numbers.extend_from_slice(&marks[2 * mark + 3..])?;
    numbers[0] = sres;
    Ok(numbers)
}

/// Which of the marks in a processor's numbers, which stand in pairs after the first number, is that of this stream;
/// None if it has none, since the stream is idle. A mark is the stream's number and the place of what it holds.
pub fn mark_of(numbers: &[u32], s: u8) -> Option<usize>
    ensures within { IfSome result (λ k. 2 * k + 2 < length numbers.now) }
    ensures mark { IfSome result (λ k. slice_get numbers.now (2 * k + 1) ≡ Some s) }
    ensures none { result ≡ None → (k : ℕ) → 2 * k + 2 < length numbers.now
        → slice_get numbers.now (2 * k + 1) ≢ Some s }
{
    let marks = numbers.len().saturating_sub(1) / 2;
    for mark in 0..marks {
        if numbers[2 * mark + 1] == u32::from(s) {
            return Some(mark);
        }
    }
    None
}
