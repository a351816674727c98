//! The programs of exercises as they were at first.

use crate::reporting::answer_of;
use exercise_files::parts::{CommandAnswer, Inputs, LabFault, Status};
use exercise_files::{Exercise, read_part, read_part_or_why, read_to_replace};
use plain_text::TextWriter;
use std::alloc::{AllocError, Global};
use std::io::Read;
use std::rt::Files;

/// The file with the program of an exercise as it was at first.
const ORIGINAL: &str = "original.asm";

/// The file with its program.
const START: &str = "start.asm";

/// The file in which the program is kept that a reset takes away.
const KEPT: &str = "start.old.asm";

/// Whether the program of an exercise is as it was at first, byte for byte; not if a file says nothing of it.
pub(crate) fn is_unedited<F: Files, R: Read>(
    alloc: Global,
    inputs: &mut Inputs<'_, F, R>,
    exercise: &Exercise,
) -> Result<bool, AllocError> {
    let first = bytes_of(alloc, inputs, exercise, ORIGINAL)?;
    let now = bytes_of(alloc, inputs, exercise, START)?;
    match (first.as_ref(), now.as_ref()) {
        (Some(first), Some(now)) => Ok(first.as_slice() == now.as_slice()),
        _ => Ok(false),
    }
}

/// The bytes of a file of an exercise; None if it can't be read.
fn bytes_of<F: Files, R: Read>(
    alloc: Global,
    inputs: &mut Inputs<'_, F, R>,
    exercise: &Exercise,
    name: &str,
) -> Result<Option<Vec<u8>>, AllocError> {
    let path = exercise.file(alloc, name)?;
    match read_part_or_why(alloc, inputs, &path)? {
        Ok(bytes) => Ok(Some(bytes)),
        Err(_) => Ok(None),
    }
}

/// Makes the program of an exercise what it was at first. What it was before is kept in another file.
pub(crate) fn reset<F: Files, R: Read>(
    alloc: Global,
    inputs: &mut Inputs<'_, F, R>,
    exercise: &Exercise,
) -> Result<CommandAnswer, LabFault> {
    let original = exercise.file(alloc, ORIGINAL)?;
    let first = read_part(alloc, inputs, &original)?;
    let mut out = TextWriter::new(alloc);
    reset_to(alloc, inputs, exercise, &first, &mut out)?;
    answer_of(out, Status::Done, None)
}

/// Makes it these bytes, and says so.
fn reset_to<F: Files, R: Read>(
    alloc: Global,
    inputs: &Inputs<'_, F, R>,
    exercise: &Exercise,
    first: &[u8],
    out: &mut TextWriter,
) -> Result<(), LabFault> {
    let start = exercise.file(alloc, START)?;
    let is_other = keep_other(alloc, inputs, exercise, &start, first, out)?;
    if is_other {
        inputs.write_derived(alloc, &start, first)?;
    }
    out.put_plain(&start);
    out.put(if is_other {
        ": as it was at first\n"
    } else {
        ": it is as it was at first\n"
    });
    Ok(())
}

/// Keeps the program of an exercise in another file, if there is one with other bytes than these, and says so. Whether it is
/// not these bytes.
fn keep_other<F: Files, R: Read>(
    alloc: Global,
    inputs: &Inputs<'_, F, R>,
    exercise: &Exercise,
    start: &str,
    first: &[u8],
    out: &mut TextWriter,
) -> Result<bool, LabFault> {
    if inputs.files.symlink_metadata(start).is_err() {
        return Ok(true);
    }
    let now = read_to_replace(alloc, inputs.files, start)?;
    if now.as_slice() == first {
        return Ok(false);
    }
    let kept = exercise.file(alloc, KEPT)?;
    inputs.write_derived(alloc, &kept, &now)?;
    out.put_plain(&kept);
    out.put(": your program\n");
    Ok(true)
}
