//! The key of the world to which a step leads, as it is cleared of registers that do not matter.

ghost use Rattle.std.specs.Prelude.{◌≡◌, ◌<◌, ◌+◌, ◌∷◌, [], length, slice_index_or, IsTrue, None, Some, IfSome, IfOk, OnOk};
ghost use Rattle.machine.specs.MachineValue.{MachineValue};
ghost use Rattle.processor.specs.World.{after};
ghost use Rattle.agreeing_ends.specs.SameFutures.Links.{TellsHandlers};
ghost use Rattle.agreeing_ends.specs.SameFutures.Handlers.{may_have_handlers};
ghost use Rattle.world_keys.specs.DeadRegisters.Clearing.{LiveValue, cleared_processor, cleared, IsLive};
ghost use Rattle.world_keys.specs.Tables.{Extends};
ghost use Rattle.world_keys.specs.WorldKeys.{processor_in, key_of, IsKnown};
ghost use Rattle.schedule_space.specs.Spaces.{machine_after, machine_by, IsRoute};
ghost use Rattle.schedule_space.specs.Kept.{IsAtHand, IsSameButHere};
ghost use Rattle.schedule_space.specs.KnownSteps.{IsAt, step_numbers};
ghost use Rattle.schedule_space.specs.StreamSteps.{AreStreamsLeft, AreAllLeft, IsStreamAsked};
ghost use Rattle.schedule_space.specs.Before.{IsBefore, IsBehind};

use crate::kept_machines::KeptMachines;
use crate::known_steps::{KnownSteps, Places, SearchKnowledge};
use crate::marks::{is_plain, mark_in, place_with};
use crate::routes::Route;
use crate::stepping::{Reach, change_of, reach_of, stepped};
use machine::Machine;
use processor::Step;
use std::alloc::{AllocError, Global};
use world_keys::registers::LiveRegisters;
use world_keys::{Table, next_key};

/// The key of the world to which a step leads from the one at the end of a route, from the key `before` the step; None
/// where it is the same. Both are of the worlds with 0 in each register that does not matter. Only a step of which it is
/// not known what it leaves is taken, on a copy of the machine, which is made where it is not at hand.
pub(crate) fn key_after<const S: usize>(
    seen: &mut SearchKnowledge,
    live: &LiveRegisters,
    before: &[u32],
    machines: &mut KeptMachines<'_, S>,
    route: Route<'_>,
    step: Step,
) -> Result<Option<Vec<u32>>, AllocError>
    requires route { IsRoute route.links.now route.place }
    requires first { machines.old.first ≡ machine_after machines.old.first.image route.begin.now }
    requires here { IsAtHand (machine_by machines.old.first.image route.begin.now route.links.now route.place) machines.old.here }
    requires before { IsBefore live.now seen.old.contents seen.old.steps
        (machine_by machines.old.first.image route.begin.now route.links.now route.place) before.now }
    ensures is { let m = machine_by machines.old.first.image route.entry.begin.now route.entry.links.now route.entry.place in
        IfOk result (λ o. IfSome o (λ v. v.items
        ≡ key_of seen.new.contents m.image (cleared live.now (after m.image m.world step)))) }
    ensures same { let m = machine_by machines.old.first.image route.entry.begin.now route.entry.links.now route.entry.place in
        result ≡ Ok None → before.now
        ≡ key_of seen.new.contents m.image (cleared live.now (after m.image m.world step)) }
    ensures known { let m = machine_by machines.old.first.image route.entry.begin.now route.entry.links.now route.entry.place in
        OnOk result (IsKnown seen.new.contents m.image (cleared live.now (after m.image m.world step))) }
    ensures steps { AreAllLeft machines.old.first.image live.now seen.new.contents seen.new.steps }
    ensures grown { Extends seen.old.contents seen.new.contents }
    ensures kept { IsSameButHere machines.old machines.new }
    ensures here { IsAtHand (machine_by machines.old.first.image route.entry.begin.now route.entry.links.now route.entry.place) machines.new.here }
{
    let here = usize::from(step.p) + 1;
    if here >= before.len() {
        return Ok(None);
    }
    let left = left_by(seen, live, before, machines, route, step)?;
    if left.memory == before[0] && left.content == before[here] {
        return Ok(None);
    }
    let mut key = Vec::from_slice(seen.alloc, before)?;
    key[0] = left.memory;
    key[here] = left.content;
    Ok(Some(key))
}

/// What a step leaves of its processor and of the memory.
fn left_by<const S: usize>(
    seen: &mut SearchKnowledge,
    live: &LiveRegisters,
    before: &[u32],
    machines: &mut KeptMachines<'_, S>,
    route: Route<'_>,
    step: Step,
) -> Result<Places, AllocError>
    requires there { step.p + 1 < length before.now }
    requires route { IsRoute route.links.now route.place }
    requires first { machines.old.first ≡ machine_after machines.old.first.image route.begin.now }
    requires here { IsAtHand (machine_by machines.old.first.image route.begin.now route.links.now route.place) machines.old.here }
    requires before { IsBefore live.now seen.old.contents seen.old.steps
        (machine_by machines.old.first.image route.begin.now route.links.now route.place) before.now }
    ensures left { IfOk result (IsBehind live.now seen.new.contents
        (machine_by machines.old.first.image route.entry.begin.now route.entry.links.now route.entry.place) step) }
    ensures steps { AreAllLeft machines.old.first.image live.now seen.new.contents seen.new.steps }
    ensures grown { Extends seen.old.contents seen.new.contents }
    ensures kept { IsSameButHere machines.old machines.new }
    ensures here { IsAtHand (machine_by machines.old.first.image route.entry.begin.now route.entry.links.now route.entry.place) machines.new.here }
{
    if let Some(left) = left_if_known(seen, before, step)? {
        return Ok(left);
    }
    machines.make_here(seen.alloc, route)?;
    left_anew(seen, live, before, machines.here().unwrap(), step)
}

/// The same, where it is known by what a step from the same numbers left, or that of a stream that held the same; else
/// None.
pub(crate) fn left_if_known(
    seen: &mut SearchKnowledge,
    before: &[u32],
    step: Step,
) -> Result<Option<Places>, AllocError>
    requires there { step.p + 1 < length before.now }
    ensures left { (live : LiveValue) (m : MachineValue)
        → IsBefore live seen.old.contents seen.old.steps m before.now
        → IfOk result (λ o. IfSome o (IsBehind live seen.new.contents m step)) }
    ensures steps { (live : LiveValue) (m : MachineValue)
        → IsBefore live seen.old.contents seen.old.steps m before.now
        → AreAllLeft m.image live seen.new.contents seen.new.steps }
    ensures grown { Extends seen.old.contents seen.new.contents }
{
    let here = places_in(before, step.p);
    let asked = [here.content, u32::from(step.s), here.memory];
    if let Some(left) = seen.steps.by_processor.find(&asked) {
        return Ok(Some(left));
    }
    let Some(mark) = mark_in(&seen.contents, here.content, step.s) else {
        return Ok(None);
    };
    let of_stream = [mark.content, here.memory];
    let Some(left) = seen.steps.by_stream.find(&of_stream) else {
        return Ok(None);
    };
    let content = place_with(
        seen.alloc,
        &mut seen.contents,
        here.content,
        step.s,
        mark,
        left.content,
    )?;
    let places = Places { content, ..left };
    seen.steps.by_processor.keep(&asked, places)?;
    Ok(Some(places))
}

/// The same, by taking the step: what it left is known from then on.
fn left_anew<const S: usize>(
    seen: &mut SearchKnowledge,
    live: &LiveRegisters,
    before: &[u32],
    machine: &Machine<'_, S>,
    step: Step,
) -> Result<Places, AllocError>
    requires there { step.p < length machine.now.world.processors }
    requires before { IsBefore live.now seen.old.contents seen.old.steps machine.now before.now }
    ensures left { IfOk result (IsBehind live.now seen.new.contents machine.now step) }
    ensures steps { AreAllLeft machine.now.image live.now seen.new.contents seen.new.steps }
    ensures grown { Extends seen.old.contents seen.new.contents }
{
    let here = places_in(before, step.p);
    let left = places_after(seen.alloc, live, &mut seen.contents, before, machine, step)?;
    let of_processor = [here.content, u32::from(step.s), here.memory];
    seen.steps.by_processor.keep(&of_processor, left)?;
    let Some(mark) = mark_in(&seen.contents, here.content, step.s) else {
        return Ok(left);
    };
    let asked = [mark.content, here.memory];
    keep_stream(
        &seen.contents,
        &mut seen.steps.by_stream,
        &asked,
        machine,
        step,
        left,
    )?;
    Ok(left)
}

/// Keeps what a step left that was taken, where it changed its stream and the memory alone.
fn keep_stream<const S: usize>(
    contents: &Table,
    steps: &mut KnownSteps,
    asked: &[u32],
    machine: &Machine<'_, S>,
    step: Step,
    left: Places,
) -> Result<(), AllocError>
    requires there { step.p < length machine.now.world.processors }
    requires told { TellsHandlers (IsTrue (may_have_handlers machine.now.image)) machine.now.world }
    ensures { (l : LiveValue) → AreStreamsLeft machine.now.image l contents.now steps.old
        → IsStreamAsked machine.now.image l contents.now machine.now.world step asked.now
        → IsAt machine.now.image contents.now
        (cleared_processor l (processor_in (after machine.now.image machine.now.world step) step.p))
        (after machine.now.image machine.now.world step).memory left
        → AreStreamsLeft machine.now.image l contents.now steps.new }
{
    if !is_plain(machine, step) {
        return Ok(());
    }
    let Some(mark) = mark_in(contents, left.content, step.s) else {
        return Ok(());
    };
    let content = mark.content;
    steps.keep(asked, Places { content, ..left })
}

/// The same, by taking the step.
fn places_after<const S: usize>(
    alloc: Global,
    live: &LiveRegisters,
    contents: &mut Table,
    before: &[u32],
    machine: &Machine<'_, S>,
    step: Step,
) -> Result<Places, AllocError>
    requires there { step.p < length machine.now.world.processors }
    requires known { IsKnown contents.old machine.now.image (cleared live.now machine.now.world) }
    requires before { before.now ≡ key_of contents.old machine.now.image (cleared live.now machine.now.world) }
    ensures left { IfOk result (λ l. IsAt machine.now.image contents.new
        (cleared_processor live.now (processor_in (after machine.now.image machine.now.world step) step.p))
        (after machine.now.image machine.now.world step).memory l) }
    ensures grown { Extends contents.old contents.new }
{
    let reach = reach_of(machine, step);
    if reach == Reach::Nothing {
        return Ok(places_in(before, step.p));
    }
    let next = stepped(machine, step)?;
    let change = change_of(machine, &next, step, reach);
    let key = next_key(alloc, live, contents, before, &next, change)?;
    Ok(places_in(&key, step.p))
}

/// The places that a key has of a processor and of the memory.
pub(crate) fn places_in(key: &[u32], p: u8) -> Places
    requires { p + 1 < length key.now }
    ensures content { result.content ≡ slice_index_or key.now (p + 1) 0 }
    ensures memory { result.memory ≡ slice_index_or key.now 0 0 }
{
    Places {
        content: key[usize::from(p) + 1],
        memory: key[0],
    }
}
