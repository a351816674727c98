//! The command `gallery`.

use crate::cards::{Card, is_named};
use crate::example_cards::add_example;
use crate::exercise_cards::add_exercise;
use crate::galleries::Gallery;
use crate::gallery_files::{GalleryFiles, ShownExercise};
use crate::index::index_page;
use exercise_files::parts::{CommandAnswer, Inputs, LabFault, Status, slash_after};
use exercise_files::{FailingRun, LeftOut, LookedFor};
use lab_requests::GalleryRequest;
use plain_text::TextWriter;
use program_pages::searches::Console;
use std::alloc::Global;
use std::io::{Read, Write};
use std::rt::Files;
use std::time::Clock;

/// Writes pages of all exercises and examples into a folder, and last the page that leads to them: if a write fails, this page
/// is not written. `found` has, for each exercise, the run by which its wrong program is not right.
pub fn write_gallery<C: Clock, F: Files, R: Read, E: Write>(
    alloc: Global,
    inputs: &mut Inputs<'_, F, R>,
    request: &GalleryRequest,
    files: &GalleryFiles,
    found: &[Option<FailingRun>],
    console: &mut Console<'_, C, E>,
) -> Result<CommandAnswer, LabFault> {
    let levels = files.levels.levels(alloc)?;
    let gallery = Gallery {
        folder: request.folder,
        file: &files.levels,
        levels: &levels,
    };
    inputs.make_folder(alloc, request.folder)?;
    let mut cards: Vec<Card<'_>> = Vec::new(alloc);
    for (place, shown) in files.exercises.iter().enumerate() {
        let failing = run_at(found, place);
        add_exercise(alloc, inputs, gallery, shown, failing, console, &mut cards)?;
    }
    add_examples(
        alloc,
        inputs,
        gallery,
        request.examples,
        &files.examples,
        console,
        &mut cards,
    )?;
    let page = index_page(alloc, gallery, cards)?;
    gallery.write(alloc, inputs, "index", ".html", &page)?;
    answer_on(alloc, inputs.files, request, &files.exercises)
}

/// The run at a place.
fn run_at(found: &[Option<FailingRun>], place: usize) -> Option<&FailingRun> {
    found.get(place)?.as_ref()
}

/// Adds the cards of all examples, whose pages are written.
fn add_examples<'e, C: Clock, F: Files, R: Read, E: Write>(
    alloc: Global,
    inputs: &mut Inputs<'_, F, R>,
    gallery: Gallery<'_>,
    folder: &str,
    examples: &'e [String],
    console: &mut Console<'_, C, E>,
    cards: &mut Vec<Card<'e>>,
) -> Result<(), LabFault> {
    for name in examples {
        if is_named(cards.as_slice(), name) {
            return Err(LabFault::Words(format!(in alloc;
                "{name}: an exercise and an example have this name"
            )?));
        }
        add_example(alloc, inputs, gallery, folder, name, console, cards)?;
    }
    Ok(())
}

/// What is said of a gallery that is written.
fn answer_on<F: Files>(
    alloc: Global,
    files: &F,
    request: &GalleryRequest,
    exercises: &[ShownExercise],
) -> Result<CommandAnswer, LabFault> {
    let mut out = TextWriter::new(alloc);
    out.put_plain(request.folder);
    out.put(slash_after(request.folder));
    out.put("index.html: open it in a browser\n");
    let mut answer = CommandAnswer::printed(alloc, out.take_text()?, Status::Done);
    answer.fault = names_left_out(alloc, files, request, exercises)?;
    Ok(answer)
}

/// What is said of exercises, their wrong programs, examples and schedules that have no card, or are not shown on it, since
/// their names are not UTF-8; None where there are none.
fn names_left_out<F: Files>(
    alloc: Global,
    files: &F,
    request: &GalleryRequest,
    exercises: &[ShownExercise],
) -> Result<Option<LabFault>, LabFault> {
    let mut left_out = LeftOut::none(alloc);
    add_left_out(alloc, files, request, exercises, &mut left_out)?;
    Ok(left_out.fault()?)
}

/// Adds these names.
fn add_left_out<F: Files>(
    alloc: Global,
    files: &F,
    request: &GalleryRequest,
    exercises: &[ShownExercise],
    left_out: &mut LeftOut,
) -> Result<(), LabFault> {
    left_out.add(alloc, files, request.exercises, LookedFor::Exercises)?;
    for shown in exercises {
        let wrong = shown.exercise.file(alloc, "wrong")?;
        left_out.add(alloc, files, &wrong, LookedFor::Ending(".asm"))?;
    }
    left_out.add(alloc, files, request.examples, LookedFor::Ending(".asm"))?;
    left_out.add(
        alloc,
        files,
        request.examples,
        LookedFor::Ending(".schedule"),
    )
}
