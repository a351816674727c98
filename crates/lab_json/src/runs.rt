//! What is said of a run besides its steps, by a command that reports many.

use crate::ends::put_end;
use crate::fields::Fields;
use crate::findings::put_findings;
use crate::word_changes::put_words;
use image_file::Image;
use image_machines::{by_room, loaded};
use lab_texts::end_of;
use processor::Step;
use std::alloc::{AllocError, Global};
use whole_runs::run_views;

/// Puts what the last object of `view` has of an image's run by these steps, but its kind: of whom the end is, the words
/// that differ from the image, and the findings.
pub fn put_run(
    alloc: Global,
    fields: &mut Fields,
    image: &Image,
    steps: &[Step],
) -> Result<(), AllocError> {
    by_room!(image, put_run_on(alloc, fields, image, steps))
}

/// The same on machines with room for `S` streams a processor.
fn put_run_on<const S: usize>(
    alloc: Global,
    fields: &mut Fields,
    image: &Image,
    steps: &[Step],
) -> Result<(), AllocError> {
    let mut machine = loaded::<S>(alloc, image)?;
    let views = run_views(alloc, &mut machine, steps)?;
    let end = end_of(alloc, &machine, &views)?;
    put_end(alloc, fields, &end)?;
    put_words(alloc, fields, &machine)?;
    put_findings::<S>(alloc, fields, image, steps)
}
