//! By which steps a program runs: those of a schedule's file, or of a schedule that is made.

use crate::inputs::Inputs;
use crate::lab_fault::LabFault;
use crate::loose_schedules::{check_loose_schedule, read_loose_schedule};
use crate::programs::Program;
use fault_messages::push_message;
use image_file::Image;
use image_machines::{by_room, loaded};
use lab_requests::{Maker, RunChoice};
use plain_text::plain;
use processor::Step;
use schedule_makers::{MadeSchedule, fair, fair_length, rounds, seeded};
use std::alloc::{AllocError, Global};
use std::io::Read;
use std::rt::Files;
use trace_text::{ScheduleFault, ScheduleFaultKind};

/// The schedule that a rule makes of an image.
pub fn made_by(
    alloc: Global,
    image: &Image,
    maker: Maker,
    most: usize,
) -> Result<MadeSchedule, AllocError> {
    by_room!(image, made_on(alloc, image, maker, most))
}

/// The same on a machine with room for `S` streams a processor.
fn made_on<const S: usize>(
    alloc: Global,
    image: &Image,
    maker: Maker,
    most: usize,
) -> Result<MadeSchedule, AllocError> {
    let mut machine = loaded::<S>(alloc, image)?;
    match maker {
        Maker::Rounds => rounds(alloc, &mut machine, most),
        Maker::Fair => fair(alloc, &mut machine, most),
        Maker::Random { seed } => {
            let fair_steps = fair_length(alloc, &machine)?;
            seeded(alloc, &mut machine, seed, fair_steps, most)
        }
    }
}

/// The steps by which a program is to run.
pub fn steps_of<F: Files, R: Read>(
    alloc: Global,
    inputs: &mut Inputs<'_, F, R>,
    program: &Program,
    run: RunChoice,
) -> Result<Vec<Step>, LabFault> {
    match run {
        RunChoice::File(path) => read_steps(alloc, inputs, program, path),
        RunChoice::Made { maker, most } => {
            Ok(made_by(alloc, &program.image, maker, most)?.steps)
        }
    }
}

/// The steps of a schedule's file.
pub fn read_steps<F: Files, R: Read>(
    alloc: Global,
    inputs: &mut Inputs<'_, F, R>,
    program: &Program,
    path: &str,
) -> Result<Vec<Step>, LabFault> {
    let text = inputs.read(alloc, path)?;
    match read_loose_schedule(alloc, &text, &program.image) {
        Ok(steps) => Ok(steps),
        Err(
            ScheduleFault {
                kind: ScheduleFaultKind::NoMemory,
                ..
            },
        ) => Err(LabFault::NoMemory),
        Err(_) => Err(LabFault::Lines(schedule_messages(alloc, program, path, &text)?)),
    }
}

/// What is wrong with a schedule, in lines.
fn schedule_messages(
    alloc: Global,
    program: &Program,
    path: &str,
    text: &[u8],
) -> Result<String, AllocError> {
    let mut lines = String::new(alloc);
    let path = plain(alloc, path)?;
    for message in &check_loose_schedule(alloc, text, Some(&program.image))? {
        push_message(&mut lines, &path, text, message)?;
    }
    Ok(lines)
}
