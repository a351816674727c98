//! What is said of the program of an exercise, and of what else was asked for.

use crate::advice::sentence_on;
use crate::asked_pages::{ExercisePages, show_page};
use crate::judging::{THOROUGH, is_right, judge};
use crate::listing::put_progress;
use crate::telling::{put_hint_command, put_judgement, put_next};
use exercise_advice::searches::Console;
use exercise_files::parts::{CommandAnswer, Inputs, LabFault, Status};
use exercise_files::{Exercise, read_part, read_part_or_why};
use lab_requests::ExerciseRequest;
use plain_text::TextWriter;
use std::alloc::Global;
use std::io::{Read, Write};
use std::rt::Files;
use std::thread::Threads;
use std::time::Clock;
use submission_rows::JudgedAlone;
use submission_rows::asked::{WarningChoice, warnings_of};

/// The most warnings of `check` that are shown of one program.
const MOST_WARNINGS: usize = 3;

/// An exercise that is asked for, the one that comes after it, and all.
#[derive(Clone, Copy)]
pub(crate) struct AskedExercise<'e> {
    pub exercise: &'e Exercise,
    pub next: Option<&'e Exercise>,
    pub all: &'e [Exercise],
    /// Whether the path of a page was typed on the command line.
    pub names_page: bool,
    /// Whether it is said of a right program how many are done, also where another exercise comes after it.
    pub counts_done: bool,
}

/// The answer with this text.
pub(crate) fn answer_of(
    out: TextWriter,
    status: Status,
    fault: Option<LabFault>,
) -> Result<CommandAnswer, LabFault> {
    let mut out = out;
    let alloc = out.alloc();
    let mut answer = CommandAnswer::printed(alloc, out.take_text()?, status);
    answer.fault = fault;
    Ok(answer)
}

/// What is said of the program of an exercise.
pub(crate) fn answer_exercise<
    X: Threads + Sync + Clock,
    F: Files,
    R: Read,
    E: Write,
    P: ExercisePages,
>(
    rt: &X,
    alloc: Global,
    inputs: &mut Inputs<'_, F, R>,
    request: &ExerciseRequest,
    asked: AskedExercise<'_>,
    pages: &P,
    console: &mut Console<'_, X, E>,
) -> Result<CommandAnswer, LabFault> {
    let judged = judge(rt, alloc, inputs, asked.exercise, THOROUGH, console)?;
    answer_on(rt, alloc, inputs, request, asked, &judged, pages, console)
}

/// What is said of a program that was judged, with the page that is asked for.
fn answer_on<X: Threads + Sync + Clock, F: Files, R: Read, E: Write, P: ExercisePages>(
    rt: &X,
    alloc: Global,
    inputs: &mut Inputs<'_, F, R>,
    request: &ExerciseRequest,
    asked: AskedExercise<'_>,
    judged: &JudgedAlone,
    pages: &P,
    console: &mut Console<'_, X, E>,
) -> Result<CommandAnswer, LabFault> {
    let mut out = TextWriter::new(alloc);
    if is_right(&judged.row) {
        put_right(rt, alloc, inputs, request, asked, judged, console, &mut out)?;
    } else {
        put_mistake(
            alloc,
            inputs,
            request,
            asked.exercise,
            judged,
            console,
            &mut out,
        )?;
    }
    let fault = show_page(
        alloc,
        inputs,
        asked,
        request.task,
        judged,
        pages,
        console,
        &mut out,
    )?;
    answer_of(out, judged.row.status, fault)
}

/// Adds what is said of a program that is right: what was looked at, the exercise that comes next, and how many are done.
fn put_right<X: Threads + Sync + Clock, F: Files, R: Read, E: Write>(
    rt: &X,
    alloc: Global,
    inputs: &mut Inputs<'_, F, R>,
    request: &ExerciseRequest,
    asked: AskedExercise<'_>,
    judged: &JudgedAlone,
    console: &mut Console<'_, X, E>,
    out: &mut TextWriter,
) -> Result<(), LabFault> {
    put_judgement(alloc, out, request, asked.exercise, judged, None)?;
    put_next(out, request, asked.next);
    if asked.counts_done || asked.next.is_none() {
        return put_progress(rt, alloc, inputs, asked.all, console, out);
    }
    Ok(())
}

/// Adds what is said of a program that is not right; what `check` warns of in it is shown before.
fn put_mistake<F: Files, R: Read, C: Clock, E: Write>(
    alloc: Global,
    inputs: &mut Inputs<'_, F, R>,
    request: &ExerciseRequest,
    exercise: &Exercise,
    judged: &JudgedAlone,
    console: &mut Console<'_, C, E>,
    out: &mut TextWriter,
) -> Result<(), LabFault> {
    show_warnings(alloc, inputs, exercise, console)?;
    let sentence = sentence_of(alloc, inputs, exercise, judged)?;
    put_judgement(alloc, out, request, exercise, judged, sentence.as_ref())?;
    put_hint_command(out, request, exercise, 1);
    Ok(())
}

/// The sentence of the exercise's advice on a mistake; None if no line speaks of it.
fn sentence_of<F: Files, R: Read>(
    alloc: Global,
    inputs: &mut Inputs<'_, F, R>,
    exercise: &Exercise,
    judged: &JudgedAlone,
) -> Result<Option<String>, LabFault> {
    let path = exercise.file(alloc, "advice")?;
    let advice = read_part(alloc, inputs, &path)?;
    sentence_on(alloc, &path, &advice, judged)
}

/// Shows what `check` warns of in the program of an exercise, before what is said of it.
fn show_warnings<F: Files, R: Read, C: Clock, E: Write>(
    alloc: Global,
    inputs: &mut Inputs<'_, F, R>,
    exercise: &Exercise,
    console: &mut Console<'_, C, E>,
) -> Result<(), LabFault> {
    let path = exercise.file(alloc, "start.asm")?;
    match read_part_or_why(alloc, inputs, &path)? {
        Ok(text) => warn_of(alloc, &path, &text, console),
        // (a program that can't be read is said to be so by its verdict)
        Err(_) => Ok(()),
    }
}

/// The same of the text of a path.
fn warn_of<C: Clock, E: Write>(
    alloc: Global,
    path: &str,
    text: &[u8],
    console: &mut Console<'_, C, E>,
) -> Result<(), LabFault> {
    let warnings = warnings_of(alloc, path, text, WarningChoice::OfProgram, MOST_WARNINGS)?;
    let _ = console.errors.write_all(warnings.as_bytes());
    Ok(())
}
