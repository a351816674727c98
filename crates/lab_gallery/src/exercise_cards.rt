//! The cards of exercises.

use crate::cards::{Card, CardHead, CardKind, add_card};
use crate::galleries::Gallery;
use crate::gallery_files::{ShownExercise, WrongProgram};
use crate::sentences::sentence_of_task;
use crate::shown_programs::ShownProgram;
use exercise_files::parts::{Inputs, LabFault};
use exercise_files::{Exercise, FailingRun, read_part};
use plain_text::{file_name, plain};
use program_pages::searches::Console;
use replay_page::RunVerdict;
use std::alloc::{AllocError, Global};
use std::io::{Read, Write};
use std::rt::Files;
use std::time::Clock;

/// What the page of one run calls its schedule.
const THAT_DECIDES: &str = "the schedule that decides";

/// Adds the card of an exercise, whose pages are written, of its wrong program and the run by which that is not right. No card
/// is added if it has no wrong program.
pub(crate) fn add_exercise<'e, C: Clock, F: Files, R: Read, E: Write>(
    alloc: Global,
    inputs: &mut Inputs<'_, F, R>,
    gallery: Gallery<'_>,
    shown: &'e ShownExercise,
    failing: Option<&FailingRun>,
    console: &mut Console<'_, C, E>,
    cards: &mut Vec<Card<'e>>,
) -> Result<(), LabFault> {
    let ShownExercise { exercise, wrong } = shown;
    let Some(wrong) = wrong else {
        return Ok(());
    };
    let Some(failing) = failing else {
        return Err(not_failing(alloc, &wrong.path)?);
    };
    add_failing(
        alloc, inputs, gallery, exercise, wrong, failing, console, cards,
    )
}

/// Adds the card of a wrong program with the run by which it is not right.
fn add_failing<'e, C: Clock, F: Files, R: Read, E: Write>(
    alloc: Global,
    inputs: &mut Inputs<'_, F, R>,
    gallery: Gallery<'_>,
    exercise: &'e Exercise,
    wrong: &WrongProgram,
    failing: &FailingRun,
    console: &mut Console<'_, C, E>,
    cards: &mut Vec<Card<'e>>,
) -> Result<(), LabFault> {
    let name = wrong.name.as_str();
    let title = exercise.title.as_str();
    let teaches = taught_by(alloc, inputs, exercise)?;
    let called = format!(in alloc; "{title}, {name}")?;
    let head = CardHead {
        kind: CardKind::Exercise,
        name: file_name(&exercise.path),
        title,
        teaches: &teaches,
        program: Some(name),
        fails: true,
    };
    let shown = ShownProgram {
        called: &called,
        program: &failing.program,
        required: &failing.required,
        steps: &failing.steps,
        schedule: THAT_DECIDES,
        verdict: verdict_of(failing),
    };
    add_card(alloc, inputs, gallery, head, shown, console, cards)
}

/// What an exercise teaches, in a sentence of its task.
fn taught_by<F: Files, R: Read>(
    alloc: Global,
    inputs: &mut Inputs<'_, F, R>,
    exercise: &Exercise,
) -> Result<String, LabFault> {
    let path = exercise.file(alloc, "task.md")?;
    let task = read_part(alloc, inputs, &path)?;
    Ok(sentence_of_task(alloc, &task)?)
}

/// How a page says that the run is not right: by the line that it misses, if one says it.
fn verdict_of(failing: &FailingRun) -> RunVerdict<'_> {
    let missed = match &failing.missed {
        Some(line) => Some(line.as_str()),
        None => None,
    };
    RunVerdict::NotExpected { missed }
}

/// What is said of a wrong program of which no run shows that it is wrong: it is right, or no program, or wrong by a line of
/// which no run decides.
fn not_failing(alloc: Global, path: &str) -> Result<LabFault, AllocError> {
    let path = plain(alloc, path)?;
    Ok(LabFault::Words(format!(in alloc;
        "{path}: no run shows that it is wrong, so it has no card"
    )?))
}
