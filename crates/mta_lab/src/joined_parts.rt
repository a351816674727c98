//! What the crates of `exercise` and of `gallery` take from each other: neither stands on the other.

use command_parts::{CommandAnswer, Inputs, LabFault};
use lab_exercises::{ExercisePages, failing_run};
use lab_gallery::files::{FailingRun, ShownFailing};
use lab_gallery::{failing_page, read_gallery, write_gallery};
use lab_requests::GalleryRequest;
use program_searches::Console;
use std::alloc::Global;
use std::io::{Read, Write};
use std::rt::Files;
use std::thread::Threads;
use std::time::Clock;

/// The pages of `exercise`, as `lab_gallery` makes them.
#[derive(Clone, Copy)]
pub(crate) struct JoinedParts;

impl ExercisePages for JoinedParts {
    fn failing_page<C: Clock, E: Write>(
        &self,
        alloc: Global,
        shown: ShownFailing<'_>,
        is_of_all: bool,
        console: &mut Console<'_, C, E>,
    ) -> Result<Result<String, String>, LabFault> {
        failing_page(alloc, shown, is_of_all, console)
    }
}

/// Makes a gallery: which programs it shows, the run by which each is not right, and its pages.
pub(crate) fn make_gallery<X: Threads + Sync + Clock, F: Files, R: Read, E: Write>(
    rt: &X,
    alloc: Global,
    inputs: &mut Inputs<'_, F, R>,
    request: &GalleryRequest,
    console: &mut Console<'_, X, E>,
) -> Result<CommandAnswer, LabFault> {
    let files = read_gallery(alloc, inputs, request)?;
    let mut found: Vec<Option<FailingRun>> = Vec::new(alloc);
    for shown in files.exercises.iter() {
        let exercise = &shown.exercise;
        let failing = match &shown.wrong {
            Some(wrong) => failing_run(rt, alloc, inputs, exercise, &wrong.path, console)?,
            None => None,
        };
        found.push(failing)?;
    }
    write_gallery(alloc, inputs, request, &files, &found, console)
}
