//! All exercises, and which are done.

use crate::judging::{QUICK, is_right, is_source_fault, judge};
use crate::originals::is_unedited;
use exercise_advice::searches::Console;
use exercise_files::Exercise;
use exercise_files::parts::{Inputs, LabFault};
use plain_text::TextWriter;
use std::alloc::{AllocError, Global};
use std::io::{Read, Write};
use std::rt::Files;
use std::thread::Threads;
use std::time::Clock;
use submission_rows::JudgedAlone;
use submission_rows::reports::reason_of;

/// What is said if all are done.
const ALL_DONE: &str = "\
These are all. What you have learnt is enough for programs of your own: mta_lab new NAME writes one to begin with.
";

/// How many characters the longest title has.
pub(crate) fn widest(exercises: &[Exercise]) -> usize {
    let mut widest: usize = 0;
    for exercise in exercises {
        widest = widest.max(exercise.title.chars().count());
    }
    widest
}

/// Adds the line of an exercise: its number, its title in so many columns, and how far its program is. Whether it is done.
pub(crate) fn put_line<X: Threads + Sync + Clock, F: Files, R: Read, E: Write>(
    rt: &X,
    alloc: Global,
    inputs: &mut Inputs<'_, F, R>,
    exercise: &Exercise,
    width: usize,
    console: &mut Console<'_, X, E>,
    out: &mut TextWriter,
) -> Result<bool, LabFault> {
    put_title(out, exercise, width);
    if is_unedited(alloc, inputs, exercise)? {
        out.put("  not begun\n");
        return Ok(false);
    }
    let judged = judge(rt, alloc, inputs, exercise, QUICK, console)?;
    put_verdict(alloc, out, &judged)
}

/// Adds the number of an exercise, and its title in so many columns.
fn put_title(out: &mut TextWriter, exercise: &Exercise, width: usize) {
    out.put_right(exercise.number as u64, 3);
    out.put("  ");
    out.put(&exercise.title);
    for _ in exercise.title.chars().count()..width {
        out.put(" ");
    }
}

/// Adds how far a program is that was judged. Whether it is right.
fn put_verdict(
    alloc: Global,
    out: &mut TextWriter,
    judged: &JudgedAlone,
) -> Result<bool, LabFault> {
    if is_right(&judged.row) {
        out.put("  done\n");
        return Ok(true);
    }
    if is_source_fault(&judged.row) {
        out.put("  does not assemble: ");
        put_reason(alloc, out, judged)?;
    } else {
        out.put("  not yet: ");
        out.put(judged.row.kind.word());
    }
    out.put("\n");
    Ok(false)
}

/// Adds what was looked at, or what shows that a program is not right, as `grade` says it.
pub(crate) fn put_reason(
    alloc: Global,
    out: &mut TextWriter,
    judged: &JudgedAlone,
) -> Result<(), AllocError> {
    let why = reason_of(alloc, &judged.row, judged.cases)?;
    out.put(&why);
    Ok(())
}

/// Adds how many exercises are done, and a closing word if all are.
pub(crate) fn put_progress<X: Threads + Sync + Clock, F: Files, R: Read, E: Write>(
    rt: &X,
    alloc: Global,
    inputs: &mut Inputs<'_, F, R>,
    exercises: &[Exercise],
    console: &mut Console<'_, X, E>,
    out: &mut TextWriter,
) -> Result<(), LabFault> {
    let mut done: usize = 0;
    for exercise in exercises {
        if is_done(rt, alloc, inputs, exercise, console)? {
            done = done.saturating_add(1);
        }
    }
    put_count(out, done, exercises.len());
    Ok(())
}

/// Whether an exercise is done; nothing is tried of one whose program is as it was at first.
fn is_done<X: Threads + Sync + Clock, F: Files, R: Read, E: Write>(
    rt: &X,
    alloc: Global,
    inputs: &mut Inputs<'_, F, R>,
    exercise: &Exercise,
    console: &mut Console<'_, X, E>,
) -> Result<bool, LabFault> {
    if is_unedited(alloc, inputs, exercise)? {
        return Ok(false);
    }
    match judge(rt, alloc, inputs, exercise, QUICK, console) {
        Ok(judged) => Ok(is_right(&judged.row)),
        Err(fault) => Err(fault),
    }
}

/// Adds how many of all exercises are done, and a closing word if all are.
pub(crate) fn put_count(out: &mut TextWriter, done: usize, all: usize) {
    out.put_number(done as u64);
    out.put(" of ");
    out.put_number(all as u64);
    out.put(if done == 1 {
        " is done.\n"
    } else {
        " are done.\n"
    });
    if done == all {
        out.put(ALL_DONE);
    }
}
