//! `view --why`: the steps that a value comes from.

use asked_programs::read_asked_program;
use command_parts::texts::{Columns, Notation, ProgramNames, TextWriter, push_step_head};
use command_parts::{CommandAnswer, Inputs, LabFault, Program, Status, steps_of, style_of};
use image_file::Image;
use image_machines::{by_room, loaded};
use lab_requests::{Shown, ViewRequest};
use machine::Machine;
use processor::Step;
use std::alloc::{AllocError, Global};
use std::io::Read;
use std::rt::Files;
use value_origins::Location;
use value_reasons::{LocationFault, Reason, location_named, put_location_fault};

/// Shows the steps that the value of a register or a word comes from: the value after the last step that is asked.
pub(crate) fn view_reason<F: Files, R: Read>(
    alloc: Global,
    inputs: &mut Inputs<'_, F, R>,
    request: &ViewRequest,
    text: &str,
) -> Result<CommandAnswer, LabFault> {
    let program = read_asked_program(alloc, inputs, request.program, request.given)?;
    let location = asked_location(alloc, text, &program)?;
    let steps = steps_of(alloc, inputs, &program, request.run)?;
    let taken = steps.get(..request.to).unwrap_or(&steps);
    view_steps(alloc, &program, taken, request.shown, location)
}

/// Shows the steps of a program's run that the value after them comes from.
fn view_steps(
    alloc: Global,
    program: &Program,
    steps: &[Step],
    shown: Shown,
    location: Location,
) -> Result<CommandAnswer, LabFault> {
    let output = by_room!(
        program.image,
        reason_on(alloc, program, steps, shown, location)
    )?;
    Ok(CommandAnswer::printed(alloc, output, Status::Done))
}

/// The register or word of a program that a text names.
fn asked_location(alloc: Global, text: &str, program: &Program) -> Result<Location, LabFault> {
    let names = ProgramNames::of(alloc, &program.text)?;
    match location_named(&names, &program.image, text, None) {
        Ok(location) => Ok(location),
        Err(fault) => Err(refusal(alloc, &names, program, text, fault)?),
    }
}

/// That a text names none.
fn refusal(
    alloc: Global,
    names: &ProgramNames<'_>,
    program: &Program,
    text: &str,
    fault: LocationFault,
) -> Result<LabFault, AllocError> {
    let mut words = String::from_str(alloc, "--why: ")?;
    let mut out = TextWriter::take(&mut words);
    let found = put_location_fault(alloc, &mut out, names, &program.image, text, fault);
    out.give_back(&mut words)?;
    found?;
    Ok(LabFault::Words(words))
}

/// The steps that the value after these steps comes from, on machines with room for `S` streams a processor.
fn reason_on<const S: usize>(
    alloc: Global,
    program: &Program,
    steps: &[Step],
    shown: Shown,
    location: Location,
) -> Result<String, AllocError> {
    let names = ProgramNames::of(alloc, &program.text)?;
    let notation = Notation {
        names: &names,
        style: style_of(shown),
    };
    let reason = Reason::of::<S>(alloc, &program.image, steps, location)?;
    let mut out = String::new(alloc);
    push_reason::<S>(alloc, &mut out, notation, &program.image, steps, &reason)?;
    Ok(out)
}

/// Adds the value after the steps of an image's run, and the steps that it comes from.
fn push_reason<const S: usize>(
    alloc: Global,
    out: &mut String,
    notation: Notation<'_, '_>,
    image: &Image,
    steps: &[Step],
    reason: &Reason,
) -> Result<(), AllocError> {
    push_held::<S>(alloc, out, notation, image, steps, reason)?;
    if reason.is_unwritten() {
        return Ok(());
    }
    push_written::<S>(alloc, out, notation, image, steps, reason)
}

/// Adds the value after these steps.
fn push_held<const S: usize>(
    alloc: Global,
    out: &mut String,
    notation: Notation<'_, '_>,
    image: &Image,
    steps: &[Step],
    reason: &Reason,
) -> Result<(), AllocError> {
    let mut machine: Machine<'_, S> = loaded(alloc, image)?;
    machine.run(steps);
    let mut text = TextWriter::take(out);
    reason.put_head(&mut text, notation, &machine);
    text.give_back(out)
}

/// Adds those of these steps that the value comes from, below the heads of their columns.
fn push_written<const S: usize>(
    alloc: Global,
    out: &mut String,
    notation: Notation<'_, '_>,
    image: &Image,
    steps: &[Step],
    reason: &Reason,
) -> Result<(), AllocError> {
    let columns = Columns::of(notation.names, steps.len());
    push_step_head(out, notation.names, columns)?;
    let mut text = TextWriter::take(out);
    let taken = reason.put_steps::<S>(alloc, &mut text, notation, columns, image, steps);
    text.give_back(out)?;
    taken
}
