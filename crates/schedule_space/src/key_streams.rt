//! What the key of a world shows of its streams: which of them run, and how it goes on from the world.

ghost use Rattle.std.specs.Prelude.{◌≡◌, ◌≢◌, ◌<◌, ◌+◌, ◌*◌, ◌⊎◌, ℕ, [], true, length, Some, IsTrue, IfSome, IfOk, OnOk, Contains};
ghost use Rattle.std.specs.Prelude.{slice_get};
ghost use Rattle.stream_core.specs.Streams.{StreamValue};
ghost use Rattle.processor.specs.declared.steps.Step.{Step};
ghost use Rattle.processor.specs.Processors.{ProcessorValue, stream_at};
ghost use Rattle.processor.specs.Records.{is_running};
ghost use Rattle.processor.specs.World.{World, after};
ghost use Rattle.machine.specs.MachineValue.{MachineValue};
ghost use Rattle.waiting.specs.Running.{runs_in};
ghost use Rattle.world_keys.specs.DeadRegisters.Clearing.{LiveValue, cleared};
ghost use Rattle.world_keys.specs.Tables.{place_in, Has, Extends};
ghost use Rattle.world_keys.specs.StreamNumbers.{stream_numbers, IsReadable};
ghost use Rattle.world_keys.specs.WorldKeys.{processor_numbers, processor_place, key_of};
ghost use Rattle.world_keys.specs.WorldKeys.{IsHeld, IsKnownProcessor, IsKnown};
ghost use Rattle.schedule_space.specs.Spaces.{AreAllDifferent};
ghost use Rattle.schedule_space.specs.Fates.{IsFate};
ghost use Rattle.schedule_space.specs.StreamSteps.{AreAllLeft};
ghost use Rattle.schedule_space.specs.Before.{IsBefore};

use crate::fates::Fate;
use crate::known_steps::SearchKnowledge;
use crate::next_worlds::{left_if_known, places_in};
use image_file::Image;
use processor::Step;
use std::alloc::{AllocError, Global};
use world_keys::Table;

/// Where the numbers of a stream have its status.
const STATUS_AT: usize = 86;

/// The status of a stream that runs, as a number.
const RUNNING: u32 = 1;

/// The streams that run in a world, by its key, in the order of processor and stream: all of them, each once.
pub(crate) fn running_by(
    alloc: Global,
    image: &Image,
    contents: &Table,
    key: &[u32],
) -> Result<Vec<Step>, AllocError>
    requires { length key.now ≡ length image.now.entries + 1 }
    ensures all { IfOk result (λ v. (live : LiveValue) (w : World) → IsKnown contents.now image.now (cleared live w)
        → key.now ≡ key_of contents.now image.now (cleared live w)
        → (t : Step) → IsTrue (runs_in w t) → Contains v.items t) }
    ensures once { IfOk result (λ v. (live : LiveValue) (w : World) → IsKnown contents.now image.now (cleared live w)
        → key.now ≡ key_of contents.now image.now (cleared live w) → AreAllDifferent v.items) }
{
    let mut running = Vec::new(alloc);
    push_running_by(image, contents, key, &mut running)?;
    Ok(running)
}

/// Adds these.
fn push_running_by(
    image: &Image,
    contents: &Table,
    key: &[u32],
    running: &mut Vec<Step>,
) -> Result<(), AllocError>
    requires { length key.now ≡ length image.now.entries + 1 }
    ensures all { OnOk result ((live : LiveValue) (w : World) → IsKnown contents.now image.now (cleared live w)
        → key.now ≡ key_of contents.now image.now (cleared live w)
        → (t : Step) → IsTrue (runs_in w t) → Contains running.new.items t) }
    ensures once { running.old.items ≡ [] → OnOk result ((live : LiveValue) (w : World)
        → IsKnown contents.now image.now (cleared live w)
        → key.now ≡ key_of contents.now image.now (cleared live w) → AreAllDifferent running.new.items) }
{
    for p in 0..image.processors() {
        push_running(image, contents, key[p + 1], p as u8, running)?;
    }
    Ok(())
}

/// Adds those of a processor, by the place of what it holds: there each stream that is not idle has a mark, in the order of
/// the streams.
fn push_running(
    image: &Image,
    contents: &Table,
    content: u32,
    p: u8,
    running: &mut Vec<Step>,
) -> Result<(), AllocError>
    ensures each { OnOk result ((proc : ProcessorValue) → IsKnownProcessor contents.now image.now proc
        → content ≡ processor_place contents.now proc
        → (s : ℕ) → is_running (stream_at proc.streams s) ≡ true
        → Contains running.new.items (record { p = p; s = s })) }
    ensures others { (t : Step) → Contains running.old.items t → Contains running.new.items t }
    ensures own { (t : Step) → Contains running.new.items t → Contains running.old.items t ⊎ (t.p ≡ p) }
    ensures once { OnOk result ((proc : ProcessorValue) → IsKnownProcessor contents.now image.now proc
        → content ≡ processor_place contents.now proc
        → ((t : Step) → Contains running.old.items t → ¬ (t.p ≡ p)) → AreAllDifferent running.old.items
        → AreAllDifferent running.new.items) }
{
    let Some(marks) = contents.list(content as usize) else {
        return Ok(());
    };
    for mark in 0..marks.len().saturating_sub(1) / 2 {
        if let Some(s) = running_by_mark(image, contents, marks, mark) {
            running.push(Step { p, s })?;
        }
    }
    Ok(())
}

/// The stream of a mark, where it runs.
fn running_by_mark(image: &Image, contents: &Table, marks: &[u32], mark: usize) -> Option<u8>
    requires { 2 * mark + 2 < length marks.now }
    ensures runs { (proc : ProcessorValue) → IsHeld contents.now image.now proc
        → marks.now ≡ processor_numbers contents.now proc → (s : ℕ) → slice_get marks.now (2 * mark + 1) ≡ Some s
        → is_running (stream_at proc.streams s) ≡ true → result ≡ Some s }
    ensures of { IfSome result (λ s. slice_get marks.now (2 * mark + 1) ≡ Some s) }
{
    let s = marks[2 * mark + 1];
    if s < u32::from(image.slim()) && is_running_at(contents, marks[2 * mark + 2]) {
        return Some(s as u8);
    }
    None
}

/// Whether what stands at a place is what a stream holds that runs.
fn is_running_at(contents: &Table, place: u32) -> bool
    ensures { (s : StreamValue) → place ≡ place_in contents.now (stream_numbers s) → Has contents.now (stream_numbers s)
        → IsReadable s → is_running s ≡ true → result ≡ true }
{
    match contents.list(place as usize) {
        Some(numbers) => numbers.len() > STATUS_AT && numbers[STATUS_AT] == RUNNING,
        None => false,
    }
}

/// How it goes on from a world, where its key and the steps that are known tell: no stream runs, or it is known of each
/// that runs what its step leaves, and one changes something. The list is for the streams that run: no other is made.
pub(crate) fn fate_by_key(
    seen: &mut SearchKnowledge,
    running: &mut Vec<Step>,
    image: &Image,
    key: &[u32],
) -> Result<Option<Fate>, AllocError>
    requires { length key.now ≡ length image.now.entries + 1 }
    ensures fate { (live : LiveValue) (m : MachineValue) → m.image ≡ image.now
        → IsBefore live seen.old.contents seen.old.steps m key.now
        → IfOk result (λ o. IfSome o (IsFate m.image m.world)) }
    ensures steps { (live : LiveValue) (m : MachineValue)
        → IsBefore live seen.old.contents seen.old.steps m key.now
        → AreAllLeft m.image live seen.new.contents seen.new.steps }
    ensures grown { Extends seen.old.contents seen.new.contents }
{
    running.clear();
    push_running_by(image, &seen.contents, key, running)?;
    if running.is_empty() {
        return Ok(Some(Fate::Finished));
    }
    let mut goes_on = false;
    for step in running.iter() {
        match is_moving(seen, key, *step)? {
            Some(is_moving) => goes_on = goes_on || is_moving,
            None => return Ok(None),
        }
    }
    if goes_on {
        return Ok(Some(Fate::GoesOn));
    }
    Ok(None)
}

/// Whether a step changes something, where it is known what it leaves.
fn is_moving(
    seen: &mut SearchKnowledge,
    key: &[u32],
    step: Step,
) -> Result<Option<bool>, AllocError>
    ensures moves { (live : LiveValue) (m : MachineValue)
        → IsBefore live seen.old.contents seen.old.steps m key.now
        → IfOk result (λ o. IfSome o (λ b. b ≡ true → after m.image m.world step ≢ m.world)) }
    ensures steps { (live : LiveValue) (m : MachineValue)
        → IsBefore live seen.old.contents seen.old.steps m key.now
        → AreAllLeft m.image live seen.new.contents seen.new.steps }
    ensures grown { Extends seen.old.contents seen.new.contents }
{
    if usize::from(step.p) + 1 >= key.len() {
        return Ok(None);
    }
    let Some(left) = left_if_known(seen, key, step)? else {
        return Ok(None);
    };
    Ok(Some(left != places_in(key, step.p)))
}
