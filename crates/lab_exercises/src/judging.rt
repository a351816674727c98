//! What `grade` says of the program of an exercise.

use exercise_advice::judges::VerdictKind;
use exercise_advice::searches::Console;
use exercise_files::Exercise;
use exercise_files::parts::{Inputs, LabFault};
use lab_requests::{Bounds, GradeCases, GradeFormat, GradeRequest, Undecided};
use std::alloc::Global;
use std::io::{Read, Write};
use std::rt::Files;
use std::thread::Threads;
use std::time::Clock;
use submission_rows::reports::GradeRow;
use submission_rows::{JudgedAlone, judged_alone};

/// How far a program is looked at.
#[derive(Clone, Copy)]
pub(crate) struct SearchLimits {
    /// The most worlds of each case.
    pub worlds: usize,
    /// How many seeds are tried where that is not all.
    pub seeds: usize,
    /// The most steps of each.
    pub steps: usize,
}

/// How far the program of one exercise is looked at: in seconds.
pub(crate) const THOROUGH: SearchLimits = SearchLimits {
    worlds: 200_000,
    seeds: 200,
    steps: 10_000,
};

/// The same where all exercises are listed: each in a fraction of a second.
pub(crate) const QUICK: SearchLimits = SearchLimits {
    worlds: 100_000,
    seeds: 20,
    steps: 2_000,
};

/// Whether a row says that the program is right.
pub(crate) fn is_right(row: &GradeRow) -> bool {
    row.kind == VerdictKind::Right
}

/// Whether a row says that it is no program.
pub(crate) fn is_source_fault(row: &GradeRow) -> bool {
    row.kind == VerdictKind::SourceFault
}

/// What is said of the program of an exercise, its `start.asm`, by all of its cases and every schedule.
pub(crate) fn judge<X: Threads + Sync + Clock, F: Files, R: Read, E: Write>(
    rt: &X,
    alloc: Global,
    inputs: &mut Inputs<'_, F, R>,
    exercise: &Exercise,
    reach: SearchLimits,
    console: &mut Console<'_, X, E>,
) -> Result<JudgedAlone, LabFault> {
    let start = exercise.file(alloc, "start.asm")?;
    judge_file(rt, alloc, inputs, exercise, &start, reach, console)
}

/// The same of the program of a file, by the cases of an exercise.
pub(crate) fn judge_file<X: Threads + Sync + Clock, F: Files, R: Read, E: Write>(
    rt: &X,
    alloc: Global,
    inputs: &mut Inputs<'_, F, R>,
    exercise: &Exercise,
    path: &str,
    reach: SearchLimits,
    console: &mut Console<'_, X, E>,
) -> Result<JudgedAlone, LabFault> {
    let cases = exercise.file(alloc, "cases")?;
    let request = request_by(alloc, &cases, reach);
    judged_alone(rt, alloc, inputs, &request, path, console)
}

/// What is asked of a program that is judged by the cases of a folder.
fn request_by(alloc: Global, cases: &str, reach: SearchLimits) -> GradeRequest<'_> {
    GradeRequest {
        cases: GradeCases::Folder(cases),
        seeds: reach.seeds,
        most: reach.steps,
        counts_all: false,
        explored: Some(Bounds {
            worlds: reach.worlds,
            seconds: None,
            megabytes: None,
            megabytes_in_all: None,
        }),
        is_thorough: false,
        needs_names: false,
        megabytes_in_all: None,
        jobs: Some(1),
        refuses_links: false,
        pages: None,
        submissions: Vec::new(alloc),
        part: None,
        results: None,
        version: "",
        feedback: None,
        format: GradeFormat::Text,
        undecided: Undecided::Unscored,
        hexadecimal: false,
    }
}
