//! Hints.

use crate::reporting::answer_of;
use crate::telling::put_hint_command;
use exercise_files::parts::{CommandAnswer, Inputs, LabFault, Status};
use exercise_files::{Exercise, read_part};
use lab_requests::ExerciseRequest;
use plain_text::{TextWriter, plural};
use std::alloc::{AllocError, Global};
use std::io::Read;
use std::rt::Files;
use std::str;

/// A hint of an exercise, by its number from 1.
pub(crate) fn show_hint<F: Files, R: Read>(
    alloc: Global,
    inputs: &mut Inputs<'_, F, R>,
    request: &ExerciseRequest,
    exercise: &Exercise,
    hint: usize,
) -> Result<CommandAnswer, LabFault> {
    let path = exercise.file(alloc, "hints.md")?;
    let bytes = read_part(alloc, inputs, &path)?;
    let text = str::from_utf8(&bytes).unwrap_or("");
    let count = hints_in(text);
    if hint > count {
        return Err(too_few(alloc, &path, count)?);
    }
    let mut out = TextWriter::new(alloc);
    put_hint(&mut out, text, hint);
    if hint < count {
        put_hint_command(&mut out, request, exercise, hint.saturating_add(1));
    }
    answer_of(out, Status::Done, None)
}

/// What is said of a hint that there is not.
fn too_few(alloc: Global, path: &str, count: usize) -> Result<LabFault, AllocError> {
    let some_hints = plural(count);
    Ok(LabFault::Words(format!(in alloc; "{path}: it has {count} hint{some_hints}")?))
}

/// How many hints a text has: each begins with a line `## TITLE`.
fn hints_in(text: &str) -> usize {
    let mut count: usize = 0;
    for line in text.lines() {
        if line.starts_with("## ") {
            count = count.saturating_add(1);
        }
    }
    count
}

/// Adds a hint of a text, by its number from 1.
fn put_hint(out: &mut TextWriter, text: &str, number: usize) {
    let mut count: usize = 0;
    for line in text.lines() {
        let title = line.strip_prefix("## ");
        if title.is_some() {
            count = count.saturating_add(1);
        }
        if count == number {
            out.put_plain(title.unwrap_or(line));
            out.put("\n");
        }
    }
}
