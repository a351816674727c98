//! The command `picture`.

use crate::paging::{RunToShow, program_name, run_to_show, schedule_words};
use expectation_messages::parts::{CommandAnswer, Inputs, LabFault};
use image_machines::{by_room, loaded};
use lab_requests::PageRequest;
use plain_text::plural;
use replay_page::{MOST_DRAWN_STEPS, MOST_STEPS, RunNames, picture_of};
use std::alloc::{AllocError, Global};
use std::io::Read;
use std::rt::Files;

/// Writes a picture of a run's lanes.
pub fn write_picture<F: Files, R: Read>(
    alloc: Global,
    inputs: &mut Inputs<'_, F, R>,
    request: &PageRequest,
) -> Result<CommandAnswer, LabFault> {
    if request.from > request.to {
        return Err(none_drawn(alloc, request)?);
    }
    let picture = picture_asked(alloc, inputs, request)?;
    inputs.write(alloc, request.out, picture.as_bytes())?;
    Ok(CommandAnswer::silent(alloc))
}

/// The picture that is asked for.
fn picture_asked<F: Files, R: Read>(
    alloc: Global,
    inputs: &mut Inputs<'_, F, R>,
    request: &PageRequest,
) -> Result<String, LabFault> {
    let mut run = run_to_show(alloc, inputs, request, MOST_STEPS)?;
    run.steps.truncate(request.to);
    check_drawn(alloc, request, run.steps.len())?;
    Ok(picture_text(alloc, request, &run)?)
}

/// Refuses steps that begin after the last of so many, and more than are drawn.
fn check_drawn(alloc: Global, request: &PageRequest, count: usize) -> Result<(), LabFault> {
    if request.from > count.max(1) {
        return Err(past_end(alloc, request.from, count)?);
    }
    let drawn = count.saturating_sub(request.from.saturating_sub(1));
    if drawn > MOST_DRAWN_STEPS {
        return Err(too_many(alloc, request.out, drawn)?);
    }
    Ok(())
}

/// What is said of steps that end before they begin.
fn none_drawn(alloc: Global, request: &PageRequest) -> Result<LabFault, AllocError> {
    let (from, to) = (request.from, request.to);
    Ok(LabFault::Words(format!(in alloc; "--from {from} is after --to {to}: no step is drawn")?))
}

/// What is said of steps that begin after the last of so many.
fn past_end(alloc: Global, from: usize, count: usize) -> Result<LabFault, AllocError> {
    let some_steps = plural(count);
    Ok(LabFault::Words(format!(in alloc;
        "--from {from}: the run has {count} step{some_steps}, so no step is drawn"
    )?))
}

/// What is said of more steps than are drawn.
fn too_many(alloc: Global, out: &str, count: usize) -> Result<LabFault, AllocError> {
    Ok(LabFault::Words(format!(in alloc;
        "{out}: {count} steps, and no more than {MOST_DRAWN_STEPS} are drawn; --from and --to make fewer"
    )?))
}

/// The picture of a run.
fn picture_text(
    alloc: Global,
    request: &PageRequest,
    run: &RunToShow,
) -> Result<String, AllocError> {
    let schedule = schedule_words(alloc, request.run)?;
    let names = RunNames {
        program: program_name(request),
        schedule: &schedule,
    };
    by_room!(
        run.program.image,
        picture_on(alloc, names, run, request.from)
    )
}

/// The picture from this step on, on a machine with room for `S` streams a processor.
fn picture_on<const S: usize>(
    alloc: Global,
    names: RunNames,
    run: &RunToShow,
    from: usize,
) -> Result<String, AllocError> {
    let machine = loaded::<S>(alloc, &run.program.image)?;
    let before = from.saturating_sub(1);
    picture_of(
        alloc,
        names,
        &run.program.text,
        &machine,
        &run.steps,
        before,
    )
}
