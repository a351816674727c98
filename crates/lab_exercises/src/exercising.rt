//! The command `exercise`.

use crate::asked_pages::ExercisePages;
use crate::hints::show_hint;
use crate::listing::{put_count, put_line, widest};
use crate::originals::reset;
use crate::reporting::{AskedExercise, answer_exercise, answer_of};
use crate::telling::put_next;
use exercise_advice::searches::Console;
use exercise_files::parts::{CommandAnswer, Inputs, LabFault, Status};
use exercise_files::{Exercise, LeftOut, LookedFor, read_exercises};
use lab_requests::{ExerciseRequest, ExerciseTask};
use plain_text::TextWriter;
use std::alloc::{AllocError, Global};
use std::io::{Read, Write};
use std::rt::Files;
use std::thread::Threads;
use std::time::Clock;

/// Lists the exercises of a folder with what is done; or judges the program of one, or shows a hint of it.
pub fn exercise<X: Threads + Sync + Clock, F: Files, R: Read, E: Write, P: ExercisePages>(
    rt: &X,
    alloc: Global,
    inputs: &mut Inputs<'_, F, R>,
    request: &ExerciseRequest,
    pages: &P,
    console: &mut Console<'_, X, E>,
) -> Result<CommandAnswer, LabFault> {
    let exercises = read_exercises(alloc, inputs, request.folder)?;
    if request.which.is_none() {
        return list(rt, alloc, inputs, request, &exercises, console);
    }
    let place = place_of(alloc, &exercises, request)?;
    let Some(found) = exercises.get(place) else {
        return Err(LabFault::Closed);
    };
    let asked = AskedExercise {
        exercise: found,
        next: exercises.get(place.saturating_add(1)),
        all: &exercises,
        names_page: true,
        counts_done: false,
    };
    match request.task {
        ExerciseTask::Hint(hint) => show_hint(alloc, inputs, request, found, hint),
        ExerciseTask::Reset => reset(alloc, inputs, found),
        ExerciseTask::Judge | ExerciseTask::Page(_) | ExerciseTask::Play(_) | ExerciseTask::Watch =>
            answer_exercise(rt, alloc, inputs, request, asked, pages, console),
    }
}

/// The place of the exercise that is asked for; why not, if there is none.
pub(crate) fn place_of(
    alloc: Global,
    exercises: &[Exercise],
    request: &ExerciseRequest,
) -> Result<usize, LabFault> {
    let word = request.which.unwrap_or("");
    for (place, exercise) in exercises.iter().enumerate() {
        if exercise.is_called(word) {
            return Ok(place);
        }
    }
    Err(unknown(alloc, request.folder, word)?)
}

/// What is said where there is no such exercise.
fn unknown(alloc: Global, folder: &str, word: &str) -> Result<LabFault, AllocError> {
    Ok(LabFault::Words(format!(in alloc; "{folder}: there is no exercise {word}")?))
}

/// All exercises, with what is done.
fn list<X: Threads + Sync + Clock, F: Files, R: Read, E: Write>(
    rt: &X,
    alloc: Global,
    inputs: &mut Inputs<'_, F, R>,
    request: &ExerciseRequest,
    exercises: &[Exercise],
    console: &mut Console<'_, X, E>,
) -> Result<CommandAnswer, LabFault> {
    let mut out = TextWriter::new(alloc);
    put_list(rt, alloc, inputs, request, exercises, console, &mut out)?;
    let fault = left_out_of(alloc, inputs.files, request.folder)?;
    answer_of(out, Status::Done, fault)
}

/// Adds a line of each exercise, how many are done, and the first that is not.
fn put_list<X: Threads + Sync + Clock, F: Files, R: Read, E: Write>(
    rt: &X,
    alloc: Global,
    inputs: &mut Inputs<'_, F, R>,
    request: &ExerciseRequest,
    exercises: &[Exercise],
    console: &mut Console<'_, X, E>,
    out: &mut TextWriter,
) -> Result<(), LabFault> {
    let width = widest(exercises);
    let mut done: usize = 0;
    let mut open = None;
    for exercise in exercises {
        if put_line(rt, alloc, inputs, exercise, width, console, out)? {
            done = done.saturating_add(1);
        } else if open.is_none() {
            open = Some(exercise);
        }
    }
    put_count(out, done, exercises.len());
    put_next(out, request, open);
    Ok(())
}

/// What is said of exercises of a folder that are left out, since their names are not UTF-8.
fn left_out_of<F: Files>(
    alloc: Global,
    files: &F,
    folder: &str,
) -> Result<Option<LabFault>, LabFault> {
    let mut left_out = LeftOut::none(alloc);
    left_out.add(alloc, files, folder, LookedFor::Exercises)?;
    Ok(left_out.fault()?)
}
