//! What is launched: a program and its schedule.

use command_parts::{Inputs, LabFault, Program, is_image, program_of, steps_of};
use debug_adapter::{LaunchRequest, ScheduleChoice};
use lab_requests::{Maker, RunChoice};
use processor::Step;
use std::alloc::Global;
use std::rt::Files;

/// A program that was launched, and its schedule.
#[derive(Drop)]
pub(crate) struct Loaded {
    /// The program.
    pub(crate) program: Program,
    /// Whether it is an image.
    pub(crate) is_image: bool,
    /// The steps of its schedule.
    pub(crate) steps: Vec<Step>,
}

/// Reads what is to be launched.
pub(crate) fn load<F: Files>(
    alloc: Global,
    files: &F,
    launch: &LaunchRequest<'_>,
) -> Result<Loaded, LabFault> {
    let mut none: &'static [u8] = b"";
    load_from(alloc, files, &mut none, launch)
}

/// The same, with a standard input that has nothing.
fn load_from<'a, F: Files>(
    alloc: Global,
    files: &'a F,
    none: &'a mut &'static [u8],
    launch: &LaunchRequest<'_>,
) -> Result<Loaded, LabFault> {
    let mut inputs = Inputs::new(alloc, files, none);
    let path = launch.program;
    if path == "-" {
        return Err(LabFault::Words(String::from_str(
            alloc,
            "standard input has the requests, and no program",
        )?));
    }
    let bytes = inputs.read(alloc, path)?;
    let is_image = is_image(&bytes);
    let program = program_of(alloc, path, bytes)?;
    let steps = steps_of(alloc, &mut inputs, &program, run_asked(launch))?;
    Ok(Loaded {
        program,
        is_image,
        steps,
    })
}

/// By which schedule the program is to run.
fn run_asked<'r>(launch: &LaunchRequest<'r>) -> RunChoice<'r> {
    let maker = match launch.schedule {
        ScheduleChoice::File(path) => return RunChoice::File(path),
        ScheduleChoice::Fair => Maker::Fair,
        ScheduleChoice::Rounds => Maker::Rounds,
        ScheduleChoice::Random(seed) => Maker::Random { seed },
    };
    RunChoice::Made {
        maker,
        most: launch.steps,
    }
}
