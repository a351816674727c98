//! Programs that are not right, with the run that shows it.

use crate::judging::{THOROUGH, judge_file};
use crate::mistake_runs::{MistakeRun, mistake_run};
use exercise_advice::searches::Console;
use exercise_files::parts::{Inputs, LabFault};
use exercise_files::{Exercise, FailingRun};
use std::alloc::Global;
use std::io::{Read, Write};
use std::rt::Files;
use std::thread::Threads;
use std::time::Clock;
use submission_rows::reports::GradeRow;
use submission_rows::{DecidedByCase, JudgedAlone};

/// The program of a file, judged by the cases of an exercise and every schedule, with the run by which it is not right;
/// None if no run shows that.
pub fn failing_run<X: Threads + Sync + Clock, F: Files, R: Read, E: Write>(
    rt: &X,
    alloc: Global,
    inputs: &mut Inputs<'_, F, R>,
    exercise: &Exercise,
    path: &str,
    console: &mut Console<'_, X, E>,
) -> Result<Option<FailingRun>, LabFault> {
    let judged = judge_file(rt, alloc, inputs, exercise, path, THOROUGH, console)?;
    let JudgedAlone {
        row,
        cases: _cases,
        decided,
    } = judged;
    match decided {
        Some(decided) => run_shown(alloc, decided, &row),
        None => Ok(None),
    }
}

/// The run that a row shows of the case that decides; None if it shows none.
fn run_shown(
    alloc: Global,
    decided: DecidedByCase,
    row: &GradeRow,
) -> Result<Option<FailingRun>, LabFault> {
    let MistakeRun { steps, missed } = mistake_run(alloc, &decided, row)?;
    if steps.is_empty() {
        return Ok(None);
    }
    let DecidedByCase {
        program,
        required,
        judgement: _judgement,
    } = decided;
    Ok(Some(FailingRun {
        program,
        required,
        steps,
        missed,
    }))
}
