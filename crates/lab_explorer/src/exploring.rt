//! The command `explore`.

use crate::asked_waits::{SearchedProgram, waits_asked};
use crate::end_folders::{make_folders, write_folders};
use crate::end_pages::FoundProgram;
use crate::explored_text::answer_of;
use crate::graphs::{GraphedSearch, write_graph};
use crate::written_files::WrittenFiles;
use asked_programs::{WarnedProgram, read_warned_program};
use expectation_files::Requirements;
use expectation_messages::requirements_of;
use lab_requests::ExploreRequest;
use processor::Step;
use search_texts::parts::texts::{Notation, ProgramNames};
use search_texts::parts::{CommandAnswer, Inputs, LabFault, Program, read_steps, style_of};
use search_texts::search_fault;
use search_texts::searches::endless::EndlessWaits;
use search_texts::searches::{Console, Explored, ProgramSearch, explore_program};
use std::alloc::Global;
use std::io::{Read, Write};
use std::rt::Files;
use std::time::Clock;

/// Shows every end that schedules of a program come to.
pub fn show_every_end<C: Clock, F: Files, R: Read, E: Write>(
    alloc: Global,
    inputs: &mut Inputs<'_, F, R>,
    request: &ExploreRequest,
    console: &mut Console<'_, C, E>,
) -> Result<CommandAnswer, LabFault> {
    let WarnedProgram { program, warnings } = read_warned_program(
        alloc,
        inputs,
        request.program,
        request.given,
    )?;
    let _ = console.errors.write_all(warnings.as_bytes());
    let names = ProgramNames::of(alloc, &program.text)?;
    let required = requirements_asked(alloc, inputs, request.expected, &program)?;
    let begin = begin_asked(alloc, inputs, request, &program)?;
    let read = ReadProgram {
        program: &program,
        names: &names,
        required: &required,
        begin: &begin,
    };
    show_ends(alloc, inputs, request, read, console)
}

/// A program that was read, and what its ends are looked for by.
#[derive(Clone, Copy)]
struct ReadProgram<'a, 't> {
    /// The program.
    program: &'a Program,
    /// The names of its places.
    names: &'a ProgramNames<'t>,
    /// What is required of it.
    required: &'a Requirements,
    /// The steps that all schedules begin with.
    begin: &'a [Step],
}

/// Shows every end of a program that was read.
fn show_ends<C: Clock, F: Files, R: Read, E: Write>(
    alloc: Global,
    inputs: &Inputs<'_, F, R>,
    request: &ExploreRequest,
    read: ReadProgram<'_, '_>,
    console: &mut Console<'_, C, E>,
) -> Result<CommandAnswer, LabFault> {
    let made = make_folders(alloc, inputs, request);
    let found = every_end(alloc, request, read, console)?;
    let asked = waits_asked(alloc, request, searched(read), &found, console)?;
    let notation = Notation {
        names: read.names,
        style: style_of(request.shown),
    };
    let shown = FoundProgram {
        path: request.program,
        program: read.program,
        required: read.required,
        found: &found,
        waits: waits_shown(asked.waits.as_ref(), &found),
        is_waiting_asked: request.asks_who_waits || read.required.never_starved().is_some(),
        polling: &asked.polling,
        keep: request.keep,
    };
    let mut answer = answer_of(alloc, request.shown.json, notation, shown)?;
    let mut written = WrittenFiles::new(alloc);
    let kept = write_folders(alloc, inputs, request, made, shown, &mut written);
    let graphed = GraphedSearch {
        found: &found,
        required: read.required,
        notation,
        image: &read.program.image,
    };
    let drawn = write_graph(alloc, inputs, request.dot, graphed);
    let WrittenFiles { notes, fault } = written;
    answer.errors = notes;
    answer.fault = fault.or(kept.and(drawn).err());
    Ok(answer)
}

/// A program that was read, as a search takes it.
fn searched<'a>(read: ReadProgram<'a, '_>) -> SearchedProgram<'a> {
    SearchedProgram {
        image: &read.program.image,
        begin: read.begin,
        rests: read.required.rests(),
    }
}

/// Every end of a program that was read.
fn every_end<'a, C: Clock, E: Write>(
    alloc: Global,
    request: &ExploreRequest,
    read: ReadProgram<'a, '_>,
    console: &mut Console<'_, C, E>,
) -> Result<Explored<'a>, LabFault> {
    let asked = ProgramSearch {
        required: read.required,
        begin: read.begin,
        bounds: request.bounds,
        is_plain: request.is_plain || request.asks_who_waits,
    };
    match explore_program(alloc, &read.program.image, &asked, console) {
        Ok(found) => Ok(found),
        Err(fault) => Err(search_fault(alloc, fault)?),
    }
}

/// Who can wait forever, if it is asked, or if it is required that nobody can and the search has an answer.
fn waits_shown<'a>(
    asked: Option<&'a EndlessWaits>,
    found: &'a Explored<'_>,
) -> Option<&'a EndlessWaits> {
    match (asked, &found.waits) {
        (Some(waits), _) => Some(waits),
        (None, Some(waits)) => match waits {
            EndlessWaits::Answered(_) => Some(waits),
            EndlessWaits::Unanswered(_) => None,
        },
        (None, None) => None,
    }
}

/// The steps that all schedules are to begin with.
fn begin_asked<F: Files, R: Read>(
    alloc: Global,
    inputs: &mut Inputs<'_, F, R>,
    request: &ExploreRequest,
    program: &Program,
) -> Result<Vec<Step>, LabFault> {
    match request.from {
        Some(path) => read_steps(alloc, inputs, program, path),
        None => Ok(Vec::new(alloc)),
    }
}

/// What is required of the program; nothing where no file says it.
fn requirements_asked<F: Files, R: Read>(
    alloc: Global,
    inputs: &mut Inputs<'_, F, R>,
    path: Option<&str>,
    program: &Program,
) -> Result<Requirements, LabFault> {
    let Some(path) = path else {
        return Ok(Requirements::none(alloc));
    };
    let text = inputs.read(alloc, path)?;
    requirements_of(alloc, path, &text, program)
}
