//! A step from a machine's world, and what it can change.

ghost use Rattle.std.specs.Prelude.{◌≡◌, ◌≢◌, ◌<◌, ◌≤◌, length, true, Some, IsSome, IfOk};
ghost use Rattle.machine.specs.MachineValue.{MachineValue};
ghost use Rattle.processor.specs.World.{after};
ghost use Rattle.world_keys.specs.WorldKeys.{processor_in};
ghost use Rattle.world_keys.specs.Changes.{HasOthersOf};
ghost use Rattle.schedule_space.specs.Kept.{IsAtHand, machine_next};

use machine::Machine;
use processor::{Next, Step};
use std::alloc::AllocError;
use waiting::is_stuck;
use world_keys::Change;

/// What a step can change.
#[derive(Clone, Copy, Debug, PartialEq, Eq)]
pub(crate) enum Reach {
    /// Nothing: its stream does not run, or is stuck.
    Nothing,
    /// Its processor alone.
    Processor,
    /// Its processor and the memory.
    Memory,
}

/// What a step from a machine's world can change.
pub(crate) fn reach_of<const S: usize>(machine: &Machine<'_, S>, step: Step) -> Reach
    ensures nothing { result ≡ Reach.Nothing → after machine.now.image machine.now.world step ≡ machine.now.world }
    ensures there { result ≢ Reach.Nothing → step.p < length machine.now.world.processors }
    ensures memory { result ≡ Reach.Processor
        → (after machine.now.image machine.now.world step).memory ≡ machine.now.world.memory }
{
    match machine.next(step.p, step.s) {
        Next::Skip => Reach::Nothing,
        Next::Local => Reach::Processor,
        Next::Ask(_) => {
            if is_stuck(machine, step.p, step.s) {
                Reach::Nothing
            } else {
                Reach::Memory
            }
        }
    }
}

/// A machine like this one, after one step more.
pub(crate) fn stepped<'i, const S: usize>(
    machine: &Machine<'i, S>,
    step: Step,
) -> Result<Machine<'i, S>, AllocError>
    ensures image { IfOk result (λ m. m.image ≡ machine.now.image) }
    ensures world { IfOk result (λ m. m.world ≡ after machine.now.image machine.now.world step) }
{
    let mut next = machine.try_clone()?;
    next.step(step.p, step.s);
    Ok(next)
}

/// A machine at the world after a step: the machine itself, moved on, if it is let go, else a copy of it.
///
/// Not inlined: its caller would pay for the room of its machines at each step, also where no machine is made.
#[inline(never)]
pub(crate) fn moved_on<'i, const S: usize>(
    machine: &mut Option<Machine<'i, S>>,
    step: Step,
    is_let_go: bool,
) -> Result<Machine<'i, S>, AllocError>
    requires { IsSome machine.old }
    ensures next { (m : MachineValue) → machine.old ≡ Some m
        → IfOk result (λ n. n ≡ record { image = m.image; world = after m.image m.world step }) }
    ensures here { (m : MachineValue) → IsAtHand m machine.old → IsAtHand m machine.new }
{
    if !is_let_go {
        return stepped(machine.as_ref().unwrap(), step);
    }
    let mut next = machine.take().unwrap();
    next.step(step.p, step.s);
    Ok(next)
}

/// The machine itself, moved on by a step, where it is let go; else none, since that would cost a copy.
#[inline(never)]
pub(crate) fn moved_if_let_go<'i, const S: usize>(
    machine: &mut Option<Machine<'i, S>>,
    step: Step,
    is_let_go: bool,
) -> Option<Machine<'i, S>>
    ensures next { (m : MachineValue) → IsAtHand m machine.old → IsAtHand (machine_next m step) result }
    ensures here { (m : MachineValue) → IsAtHand m machine.old → IsAtHand m machine.new }
{
    if !is_let_go {
        return None;
    }
    let mut next = machine.take()?;
    next.step(step.p, step.s);
    Some(next)
}

/// What the step changed that led from one machine to the next: the other streams of its processor are as they were
/// where no more are current.
pub(crate) fn change_of<const S: usize>(
    machine: &Machine<'_, S>,
    next: &Machine<'_, S>,
    step: Step,
    reach: Reach,
) -> Change
    requires world { next.now.world ≡ after machine.now.image machine.now.world step }
    requires reach { reach ≢ Reach.Nothing }
    requires memory { reach ≡ Reach.Processor → next.now.world.memory ≡ machine.now.world.memory }
    ensures step { result.step ≡ step }
    ensures memory { result.is_memory_kept ≡ true → next.now.world.memory ≡ machine.now.world.memory }
    ensures others { HasOthersOf (processor_in machine.now.world step.p) (processor_in next.now.world step.p) result }
{
    Change {
        step,
        is_memory_kept: is_memory_kept(reach),
        are_others_kept: are_no_more_current(machine, next, step.p),
    }
}

/// Whether a step of this reach leaves the memory as it is.
fn is_memory_kept(reach: Reach) -> bool
    ensures { result ≡ true → reach ≢ Reach.Nothing → reach ≡ Reach.Processor }
{
    match reach {
        Reach::Nothing | Reach::Processor => true,
        Reach::Memory => false,
    }
}

/// Whether processor `p` has no more current streams in the next machine.
fn are_no_more_current<const S: usize>(
    machine: &Machine<'_, S>,
    next: &Machine<'_, S>,
    p: u8,
) -> bool
    ensures { result ≡ true → (processor_in next.now.world p).scur ≤ (processor_in machine.now.world p).scur }
{
    match (machine.counts(p), next.counts(p)) {
        (Some((before, _)), Some((after, _))) => after <= before,
        _ => false,
    }
}
