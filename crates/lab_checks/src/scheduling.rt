//! The command `schedule`.

use command_parts::{CommandAnswer, Inputs, LabFault, Status, made_by, read_program};
use end_kinds::EndKind;
use lab_requests::Maker;
use plain_text::plural;
use schedule_makers::MadeEnd;
use std::alloc::Global;
use std::io::Read;
use std::rt::Files;
use trace_text::write_schedule;

/// Makes a schedule of a program. Why it ends stands in the answer's errors.
pub fn make_schedule<F: Files, R: Read>(
    alloc: Global,
    inputs: &mut Inputs<'_, F, R>,
    path: &str,
    maker: Maker,
    most: usize,
) -> Result<CommandAnswer, LabFault> {
    let program = read_program(alloc, inputs, path)?;
    let made = made_by(alloc, &program.image, maker, most)?;
    let steps = made.steps.len();
    let some_steps = plural(steps);
    let why = sentence_of(made.end);
    Ok(CommandAnswer {
        output: write_schedule(alloc, &made.steps)?,
        errors: format!(in alloc; "after {steps} step{some_steps}: {why}\n")?,
        status: Status::Done,
        fault: None,
    })
}

/// What is said of the run of a schedule that was made, and that ended so. Whether a trap stopped a stream is not said.
fn sentence_of(end: MadeEnd) -> &'static str {
    let kind = match end {
        MadeEnd::NobodyRuns => EndKind::Finished,
        MadeEnd::Standstill => EndKind::Deadlock,
        MadeEnd::OutOfSteps => EndKind::OutOfSteps,
    };
    kind.sentence()
}
