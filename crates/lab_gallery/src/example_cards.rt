//! The cards of examples.

use crate::cards::{Card, CardHead, CardKind, add_card};
use crate::folder_lists::names_ending;
use crate::galleries::Gallery;
use crate::sentences::sentence_of_source;
use crate::shown_programs::ShownProgram;
use exercise_files::expected::Requirements;
use exercise_files::parts::{Inputs, LabFault, Program, read_program, read_steps, slash_after};
use exercise_files::read_part;
use processor::Step;
use program_pages::searches::Console;
use replay_page::RunVerdict;
use std::alloc::Global;
use std::io::{Read, Write};
use std::rt::Files;
use std::time::Clock;

/// What is said besides of a folder that can't be read.
pub(crate) const ADVICE: &str = "; --examples says where the examples are";

/// The schedule by which nothing goes wrong.
const ENDS: &str = "ends";

/// What is said of a level that names a program of an example.
const ONE_PROGRAM: &str = "an example has one program: its name stands alone";

/// Adds the card of an example, whose pages are written.
pub(crate) fn add_example<'e, C: Clock, F: Files, R: Read, E: Write>(
    alloc: Global,
    inputs: &mut Inputs<'_, F, R>,
    gallery: Gallery<'_>,
    folder: &str,
    name: &'e str,
    console: &mut Console<'_, C, E>,
    cards: &mut Vec<Card<'e>>,
) -> Result<(), LabFault> {
    if let Some(level) = gallery.level(name)
        && !level.program.is_empty()
    {
        return Err(gallery.fault(alloc, level, ONE_PROGRAM)?);
    }
    let program = read_example(alloc, inputs, folder, name)?;
    add_program(
        alloc, inputs, gallery, folder, name, &program, console, cards,
    )
}

/// Adds the card of an example with this program.
fn add_program<'e, C: Clock, F: Files, R: Read, E: Write>(
    alloc: Global,
    inputs: &mut Inputs<'_, F, R>,
    gallery: Gallery<'_>,
    folder: &str,
    name: &'e str,
    program: &Program,
    console: &mut Console<'_, C, E>,
    cards: &mut Vec<Card<'e>>,
) -> Result<(), LabFault> {
    let stem = shown_schedule(alloc, inputs.files, folder, name)?;
    let steps = steps_by(alloc, inputs, program, folder, stem.as_ref())?;
    let schedule = match &stem {
        Some(stem) => stem.as_str(),
        None => "none",
    };
    let called = String::from_str(alloc, name)?;
    let teaches = sentence_of_source(alloc, &program.text)?;
    let required = Requirements::none(alloc);
    let run = ExampleRun {
        called: &called,
        teaches: &teaches,
        program,
        required: &required,
        schedule,
        steps: &steps,
    };
    add_run(alloc, inputs, gallery, name, run, console, cards)
}

/// The run of an example that its card shows.
#[derive(Clone, Copy)]
struct ExampleRun<'r> {
    /// What the program is called.
    called: &'r str,
    /// What it teaches, in a sentence.
    teaches: &'r str,
    /// The program.
    program: &'r Program,
    /// What is required of it: nothing.
    required: &'r Requirements,
    /// The name of the schedule's file, without its end.
    schedule: &'r str,
    /// The steps of the run; none where there is no schedule.
    steps: &'r [Step],
}

/// Adds the card of an example with its run.
fn add_run<'e, C: Clock, F: Files, R: Read, E: Write>(
    alloc: Global,
    inputs: &Inputs<'_, F, R>,
    gallery: Gallery<'_>,
    name: &'e str,
    run: ExampleRun<'_>,
    console: &mut Console<'_, C, E>,
    cards: &mut Vec<Card<'e>>,
) -> Result<(), LabFault> {
    let head = CardHead {
        kind: CardKind::Example,
        name,
        title: run.called,
        teaches: run.teaches,
        program: None,
        fails: false,
    };
    let shown = ShownProgram {
        called: run.called,
        program: run.program,
        required: run.required,
        steps: run.steps,
        schedule: run.schedule,
        verdict: RunVerdict::NotJudged,
    };
    add_card(alloc, inputs, gallery, head, shown, console, cards)
}

/// The program of an example.
fn read_example<F: Files, R: Read>(
    alloc: Global,
    inputs: &mut Inputs<'_, F, R>,
    folder: &str,
    name: &str,
) -> Result<Program, LabFault> {
    let slash = slash_after(folder);
    let path = format!(in alloc; "{folder}{slash}{name}.asm")?;
    // (what is no regular file is refused before it is waited for)
    read_part(alloc, inputs, &path)?;
    read_program(alloc, inputs, &path)
}

/// The schedule of an example that is shown, by its file's name without the end: the last one, in the order of names, that is
/// not called `ends`, if there is one.
fn shown_schedule<F: Files>(
    alloc: Global,
    files: &F,
    folder: &str,
    name: &str,
) -> Result<Option<String>, LabFault> {
    let stems = names_ending(alloc, files, folder, ".schedule", ADVICE)?;
    let mut found: Option<&String> = None;
    for stem in &stems {
        let is_better = match found {
            Some(_) => schedule_name(stem, name) != ENDS,
            None => true,
        };
        if is_of(stem, name) && is_better {
            found = Some(stem);
        }
    }
    match found {
        Some(stem) => Ok(Some(String::from_str(alloc, stem)?)),
        None => Ok(None),
    }
}

/// Whether a schedule's file is of a program: `lock.ends` and `lock` are of `lock`.
fn is_of(stem: &str, name: &str) -> bool {
    match stem.split_once(".") {
        Some((program, _)) => program == name,
        None => stem == name,
    }
}

/// The name of a schedule: `ends` of `lock.ends`; empty of `lock`.
fn schedule_name<'s>(stem: &'s str, name: &str) -> &'s str {
    match stem.split_once(".") {
        Some((program, schedule)) if program == name => schedule,
        _ => "",
    }
}

/// The steps of a schedule of the folder; none where there is no schedule.
fn steps_by<F: Files, R: Read>(
    alloc: Global,
    inputs: &mut Inputs<'_, F, R>,
    program: &Program,
    folder: &str,
    schedule: Option<&String>,
) -> Result<Vec<Step>, LabFault> {
    let Some(schedule) = schedule else {
        return Ok(Vec::new(alloc));
    };
    let slash = slash_after(folder);
    let path = format!(in alloc; "{folder}{slash}{schedule}.schedule")?;
    read_part(alloc, inputs, &path)?;
    read_steps(alloc, inputs, program, &path)
}
