//! The round that the last steps of a run are asked to be.

use command_parts::{LabFault, Program};
use image_machines::{by_room, loaded};
use lab_texts::{Notation, plural, push_differences};
use machine::LoadFault;
use processor::Step;
use run_rounds::{EndRound, LastSteps, last_steps};
use std::alloc::{AllocError, Global};
use step_views::Change;
use stream_core::Outcome;

/// The most places that are named in which two states differ.
const MOST_PLACES: usize = 8;

/// The round that the last steps of a program's run are, so many of them. A fault if they are none: the run is shorter, one
/// of them is of a stream that does not run, or they do not lead back to the state before them.
pub fn round_asked(
    alloc: Global,
    program: &Program,
    notation: Notation<'_, '_>,
    steps: &[Step],
    size: usize,
) -> Result<EndRound, LabFault> {
    let Some(begin) = steps.len().checked_sub(size) else {
        return Err(too_many(alloc, size, steps.len())?);
    };
    if let Some(number) = by_room!(program.image, idle_step(alloc, program, steps, begin))? {
        return Err(idle_fault(alloc, size, steps, number)?);
    }
    let last = by_room!(
        program.image,
        last_steps(alloc, &program.image, steps, size)
    );
    match last {
        Ok(LastSteps::Round(round)) => Ok(round),
        Ok(LastSteps::Differ(places)) => {
            Err(no_round(alloc, notation, begin, steps.len(), &places)?)
        }
        Err(LoadFault::NoMemory | LoadFault::Streams) => Err(LabFault::NoMemory),
    }
}

/// The number of the first step after so many that is of a stream which does not run then; None if there is none.
fn idle_step<const S: usize>(
    alloc: Global,
    program: &Program,
    steps: &[Step],
    begin: usize,
) -> Result<Option<usize>, AllocError> {
    let mut machine = loaded::<S>(alloc, &program.image)?;
    for (index, step) in steps.iter().enumerate() {
        let outcome = machine.step(step.p, step.s);
        if index >= begin && outcome == Outcome::Skipped {
            return Ok(Some(index.saturating_add(1)));
        }
    }
    Ok(None)
}

/// What is said of a round of more steps than the run has.
fn too_many(alloc: Global, size: usize, count: usize) -> Result<LabFault, AllocError> {
    let some_steps = plural(count);
    Ok(LabFault::Words(format!(in alloc; "--round {size}: the run has {count} step{some_steps}")?))
}

/// What is said of a round with the step of this number, whose stream does not run.
fn idle_fault(
    alloc: Global,
    size: usize,
    steps: &[Step],
    number: usize,
) -> Result<LabFault, AllocError> {
    let index = number.saturating_sub(1);
    let (p, s) = steps.get(index).map_or((0, 0), |step| (step.p, step.s));
    Ok(LabFault::Words(format!(in alloc;
        "--round {size}: no round: step {number} is of {p}.{s}, which does not run then"
    )?))
}

/// What is said of steps that do not lead back: in what the states after so many steps and after so many differ.
fn no_round(
    alloc: Global,
    notation: Notation<'_, '_>,
    begin: usize,
    end: usize,
    places: &[Change],
) -> Result<LabFault, AllocError> {
    let size = end.saturating_sub(begin);
    let some_begin = plural(begin);
    let some_end = plural(end);
    let mut words = format!(in alloc;
        "--round {size}: no round: the states after {begin} step{some_begin} and after {end} step{some_end} differ: "
    )?;
    let shown = places.get(..MOST_PLACES).unwrap_or(places);
    push_differences(&mut words, notation, shown)?;
    if shown.len() < places.len() {
        words.push_str(", ..")?;
    }
    Ok(LabFault::Words(words))
}
