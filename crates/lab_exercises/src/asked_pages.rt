//! The page that is asked for of a program that is not right.

use crate::mistake_runs::{MistakeRun, mistake_run};
use crate::reporting::AskedExercise;
use exercise_advice::judges::Witness;
use exercise_advice::searches::Console;
use exercise_files::parts::{Inputs, LabFault};
use exercise_files::{Exercise, ShownFailing};
use lab_requests::ExerciseTask;
use plain_text::TextWriter;
use std::alloc::{AllocError, Global};
use std::io::{Read, Write};
use std::rt::Files;
use std::time::Clock;
use submission_rows::reports::GradeRow;
use submission_rows::{DecidedByCase, JudgedAlone};

/// Makes pages of exercises: this crate says which run a page is of, and knows nothing of pages.
pub trait ExercisePages {
    /// The page of the run by which a program is not right, or of all schedules, opened after this run; or in words why there
    /// is none.
    fn failing_page<C: Clock, E: Write>(
        &self,
        alloc: Global,
        shown: ShownFailing<'_>,
        is_of_all: bool,
        console: &mut Console<'_, C, E>,
    ) -> Result<Result<String, String>, LabFault>;
}

/// Writes the page that is asked for of a program that was judged, and says so; or why it is not written. It has the words of
/// the case that decides.
pub(crate) fn show_page<C: Clock, F: Files, R: Read, E: Write, P: ExercisePages>(
    alloc: Global,
    inputs: &Inputs<'_, F, R>,
    asked: AskedExercise<'_>,
    task: ExerciseTask<'_>,
    judged: &JudgedAlone,
    pages: &P,
    console: &mut Console<'_, C, E>,
    out: &mut TextWriter,
) -> Result<Option<LabFault>, LabFault> {
    let (path, is_of_all) = match task {
        ExerciseTask::Page(path) => (path, false),
        ExerciseTask::Play(path) => (path, true),
        ExerciseTask::Judge | ExerciseTask::Hint(_) | ExerciseTask::Reset | ExerciseTask::Watch => {
            return Ok(None);
        }
    };
    match page_of(alloc, asked.exercise, judged, is_of_all, pages, console)? {
        Ok(page) => Ok(write_page(alloc, inputs, path, &page, asked.names_page, out)),
        Err(why) => unwritten(alloc, path, &why),
    }
}

/// The page, or in words why there is none.
fn page_of<C: Clock, E: Write, P: ExercisePages>(
    alloc: Global,
    exercise: &Exercise,
    judged: &JudgedAlone,
    is_of_all: bool,
    pages: &P,
    console: &mut Console<'_, C, E>,
) -> Result<Result<String, String>, LabFault> {
    let Some(decided) = &judged.decided else {
        return Ok(Err(String::from_str(alloc, "it does not assemble")?));
    };
    let row = &judged.row;
    let called = name_of(alloc, exercise, row)?;
    let run = mistake_run(alloc, decided, row)?;
    let has_run = !matches!(&row.witness, Witness::None);
    let shown = shown_run(&called, decided, &run, has_run);
    pages.failing_page(alloc, shown, is_of_all, console)
}

/// A program that is called so, as a page of this run shows it.
fn shown_run<'s>(
    called: &'s str,
    decided: &'s DecidedByCase,
    run: &'s MistakeRun,
    has_run: bool,
) -> ShownFailing<'s> {
    ShownFailing {
        called,
        program: &decided.program,
        required: &decided.required,
        has_run,
        steps: &run.steps,
        missed: run.missed_line(),
    }
}

/// What a page calls the program: the title of the exercise, and the case that decides.
fn name_of(alloc: Global, exercise: &Exercise, row: &GradeRow) -> Result<String, AllocError> {
    let title = exercise.title.as_str();
    match &row.case {
        Some(case) => format!(in alloc; "{title}, case {case}"),
        None => String::from_str(alloc, title),
    }
}

/// Writes a page, and says so; or why it is not written. Links are followed where the path was typed.
fn write_page<F: Files, R: Read>(
    alloc: Global,
    inputs: &Inputs<'_, F, R>,
    path: &str,
    page: &str,
    is_typed: bool,
    out: &mut TextWriter,
) -> Option<LabFault> {
    let written = if is_typed {
        inputs.write(alloc, path, page.as_bytes())
    } else {
        inputs.write_derived(alloc, path, page.as_bytes())
    };
    match written {
        Ok(()) => {
            out.put_plain(path);
            out.put(": open it in a browser\n");
            None
        }
        Err(fault) => Some(fault),
    }
}

/// Why a page is not written.
fn unwritten(alloc: Global, path: &str, why: &str) -> Result<Option<LabFault>, LabFault> {
    Ok(Some(LabFault::Words(format!(in alloc; "{path}: not written: {why}")?)))
}
