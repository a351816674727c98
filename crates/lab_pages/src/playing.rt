//! The command `play`.

use crate::answers::page_answer;
use asked_programs::read_asked_program;
use expectation_files::Requirements;
use expectation_messages::parts::texts::ProgramNames;
use expectation_messages::parts::{CommandAnswer, Inputs, LabFault, Program, read_steps};
use expectation_messages::requirements_of;
use lab_requests::PlayRequest;
use plain_text::{plain, stem_of};
use processor::Step;
use program_pages::goals::EndGoal;
use program_pages::searches::{Console, SearchBound};
use program_pages::{
    PageChoices, PlayPage, PlayedProgram, page_bounds, page_of_schedules, too_large,
};
use std::alloc::{AllocError, Global};
use std::io::{Read, Write};
use std::rt::Files;
use std::time::Clock;

/// What is said of a word that is no goal.
const GOALS: &str =
    "a goal is right, wrong, finished, stopped, deadlock, waiting, spinning, looping, broken, or the number of an end";

/// What is said of a right or wrong end where nothing is expected.
const NOT_JUDGED: &str = "without --expect no end is right or wrong";

/// What is said of an end to which no schedule leads.
const NONE: &str = "no schedule of the program ends so; explore --plain lists its ends by number";

/// The same of the schedules that begin with the steps that were given.
const NONE_THAT_BEGINS_SO: &str =
    "no schedule of the program that begins so ends so; explore --plain --from lists its ends by number";

/// Writes a page on which the reader is the scheduler.
pub fn write_play_page<C: Clock, F: Files, R: Read, E: Write>(
    alloc: Global,
    inputs: &mut Inputs<'_, F, R>,
    request: &PlayRequest,
    console: &mut Console<'_, C, E>,
) -> Result<CommandAnswer, LabFault> {
    let page = page_asked(alloc, inputs, request, console)?;
    inputs.write(alloc, request.out, page.as_bytes())?;
    page_answer(alloc, request.out)
}

/// The page that is asked for.
fn page_asked<C: Clock, F: Files, R: Read, E: Write>(
    alloc: Global,
    inputs: &mut Inputs<'_, F, R>,
    request: &PlayRequest,
    console: &mut Console<'_, C, E>,
) -> Result<String, LabFault> {
    let program = read_asked_program(alloc, inputs, request.program, request.given)?;
    let required = requirements_asked(alloc, inputs, request, &program)?;
    let begin = begin_asked(alloc, inputs, request, &program)?;
    page_of_program(alloc, request, &program, &required, &begin, console)
}

/// The page of a program, of which this is required, by schedules that begin with these steps.
fn page_of_program<C: Clock, E: Write>(
    alloc: Global,
    request: &PlayRequest,
    program: &Program,
    required: &Requirements,
    begin: &[Step],
    console: &mut Console<'_, C, E>,
) -> Result<String, LabFault> {
    let names = ProgramNames::of(alloc, &program.text)?;
    let played = PlayedProgram {
        called: program_name(request),
        program,
        names: &names,
        required,
        opened: &[],
    };
    let choices = PageChoices {
        begin,
        bounds: page_bounds(request.states),
        goal: request.goal.map(|word| EndGoal::of_word(word)),
    };
    match page_of_schedules(alloc, &played, choices, console)? {
        PlayPage::Written(page) => Ok(page),
        PlayPage::TooLarge(bound) => Err(too_many_states(alloc, request, bound)?),
        PlayPage::NoSuchEnd => Err(no_such_end(alloc, request)?),
    }
}

/// What is said of a program whose search came to this bound.
fn too_many_states(
    alloc: Global,
    request: &PlayRequest,
    bound: SearchBound,
) -> Result<LabFault, AllocError> {
    let why = too_large(alloc, page_bounds(request.states), bound)?;
    unwritten(alloc, request, &why)
}

/// What is required of the program; nothing where no file says it.
fn requirements_asked<F: Files, R: Read>(
    alloc: Global,
    inputs: &mut Inputs<'_, F, R>,
    request: &PlayRequest,
    program: &Program,
) -> Result<Requirements, LabFault> {
    let Some(path) = request.expected else {
        return Ok(Requirements::none(alloc));
    };
    let text = inputs.read(alloc, path)?;
    requirements_of(alloc, path, &text, program)
}

/// The steps that all schedules are to begin with.
fn begin_asked<F: Files, R: Read>(
    alloc: Global,
    inputs: &mut Inputs<'_, F, R>,
    request: &PlayRequest,
    program: &Program,
) -> Result<Vec<Step>, LabFault> {
    match request.from {
        Some(path) => read_steps(alloc, inputs, program, path),
        None => Ok(Vec::new(alloc)),
    }
}

/// What is said of a program that is too large, for a reason.
fn unwritten(alloc: Global, request: &PlayRequest, why: &str) -> Result<LabFault, AllocError> {
    let out = request.out;
    Ok(LabFault::Words(format!(in alloc;
        "{out}: not written: {why}; loops that repeat less often make fewer states, and so does a beginning by --from"
    )?))
}

/// What is said of a goal that is no end of the program: it is no goal at all, nothing says which ends are right, or no
/// schedule leads there of those that were asked for.
fn no_such_end(alloc: Global, request: &PlayRequest) -> Result<LabFault, AllocError> {
    let word = request.goal.unwrap_or("");
    let shown = plain(alloc, word)?;
    let why = match EndGoal::of_word(word) {
        EndGoal::Unknown => GOALS,
        EndGoal::Right | EndGoal::Wrong if request.expected.is_none() => NOT_JUDGED,
        _ if request.from.is_some() => NONE_THAT_BEGINS_SO,
        _ => NONE,
    };
    Ok(LabFault::Words(format!(in alloc; "--goal {shown}: {why}")?))
}

/// What the program is called: as was asked, or by its file's name.
fn program_name<'a>(request: &PlayRequest<'a>) -> &'a str {
    match request.title {
        Some(title) => title,
        None => stem_of(request.program),
    }
}
