//! The command `page`.

use crate::answers::page_answer;
use asked_programs::{read_asked_program, round_asked};
use expectation_messages::parts::texts::{Notation, NumberStyle, ProgramNames};
use expectation_messages::parts::{CommandAnswer, Inputs, LabFault, Program, steps_of};
use lab_requests::{Maker, PageRequest, RunChoice};
use plain_text::{file_name, stem_of};
use processor::Step;
use replay_page::{
    JudgedRun, MOST_STEPS, MOST_STEPS_OF_TWO, MarkedRound, PairNames, RunNames, RunVerdict,
    page_of_pair, page_of_round, page_of_run,
};
use std::alloc::{AllocError, Global};
use std::io::Read;
use std::rt::Files;

/// Writes a page that shows a run, or two of one program.
pub fn write_page<F: Files, R: Read>(
    alloc: Global,
    inputs: &mut Inputs<'_, F, R>,
    request: &PageRequest,
) -> Result<CommandAnswer, LabFault> {
    let page = match request.other {
        Some(other) => pair_text(alloc, inputs, request, other)?,
        None => page_text(alloc, inputs, request)?,
    };
    inputs.write(alloc, request.out, page.as_bytes())?;
    page_answer(alloc, request.out)
}

/// The page of a run.
fn page_text<F: Files, R: Read>(
    alloc: Global,
    inputs: &mut Inputs<'_, F, R>,
    request: &PageRequest,
) -> Result<String, LabFault> {
    let run = run_to_show(alloc, inputs, request, MOST_STEPS)?;
    let schedule = schedule_words(alloc, request.run)?;
    let names = RunNames {
        program: program_name(request),
        schedule: &schedule,
    };
    match request.round {
        Some(size) => round_text(alloc, names, &run, size),
        None => Ok(run_text(alloc, names, &run)?),
    }
}

/// The page of a run that is shown.
fn run_text(alloc: Global, names: RunNames<'_>, run: &RunToShow) -> Result<String, AllocError> {
    let program = &run.program;
    let judged = JudgedRun {
        verdict: RunVerdict::NotJudged,
        may_wait: false,
    };
    page_of_run(
        alloc,
        names,
        judged,
        &program.text,
        &program.image,
        &run.steps,
    )
}

/// The page of a run whose last steps are a round, so many of them.
fn round_text(
    alloc: Global,
    names: RunNames<'_>,
    run: &RunToShow,
    size: usize,
) -> Result<String, LabFault> {
    let program = &run.program;
    let round = marked_round(alloc, program, &run.steps, size)?;
    Ok(page_of_round(
        alloc,
        names,
        round,
        &program.text,
        &program.image,
        &run.steps,
    )?)
}

/// The round that the last steps of a program's run are, so many of them.
fn marked_round(
    alloc: Global,
    program: &Program,
    steps: &[Step],
    size: usize,
) -> Result<MarkedRound, LabFault> {
    let places = ProgramNames::of(alloc, &program.text)?;
    let notation = Notation {
        names: &places,
        style: NumberStyle::Decimal,
    };
    let round = round_asked(alloc, program, notation, steps, size)?;
    Ok(MarkedRound {
        after: round.begin,
        steps: round.steps,
        times: round.times,
    })
}

/// The page of two runs, the second by this schedule.
fn pair_text<F: Files, R: Read>(
    alloc: Global,
    inputs: &mut Inputs<'_, F, R>,
    request: &PageRequest,
    other: RunChoice,
) -> Result<String, LabFault> {
    let first = run_to_show(alloc, inputs, request, MOST_STEPS_OF_TWO)?;
    let second = steps_of(alloc, inputs, &first.program, other)?;
    check_length(alloc, request.out, second.len(), MOST_STEPS_OF_TWO)?;
    Ok(pair_page(alloc, request, &first, other, &second)?)
}

/// The page of a run and a second one of its program, by this schedule, whose steps these are.
fn pair_page(
    alloc: Global,
    request: &PageRequest,
    first: &RunToShow,
    other: RunChoice,
    second: &[Step],
) -> Result<String, AllocError> {
    let one = schedule_words(alloc, request.run)?;
    let other = schedule_words(alloc, other)?;
    let names = PairNames {
        program: program_name(request),
        one: &one,
        other: &other,
    };
    let program = &first.program;
    page_of_pair(
        alloc,
        names,
        &program.text,
        &program.image,
        &first.steps,
        second,
    )
}

/// A program and the steps by which it runs.
#[derive(Drop)]
pub(crate) struct RunToShow {
    pub program: Program,
    pub steps: Vec<Step>,
}

/// The run that is asked for; a fault where it has more than so many steps.
pub(crate) fn run_to_show<F: Files, R: Read>(
    alloc: Global,
    inputs: &mut Inputs<'_, F, R>,
    request: &PageRequest,
    most: usize,
) -> Result<RunToShow, LabFault> {
    let program = read_asked_program(alloc, inputs, request.program, request.given)?;
    let steps = steps_of(alloc, inputs, &program, request.run)?;
    check_length(alloc, request.out, steps.len(), most)?;
    Ok(RunToShow { program, steps })
}

/// Refuses a run of more steps than are shown.
fn check_length(alloc: Global, out: &str, count: usize, most: usize) -> Result<(), LabFault> {
    if count <= most {
        return Ok(());
    }
    Err(LabFault::Words(format!(in alloc;
        "{out}: a run of {count} steps, and no more than {most} are shown; --steps makes fewer"
    )?))
}

/// What the program is called: as was asked, or by its file's name.
pub(crate) fn program_name<'a>(request: &PageRequest<'a>) -> &'a str {
    match request.title {
        Some(title) => title,
        None => stem_of(request.program),
    }
}

/// What the schedule is called.
pub(crate) fn schedule_words(alloc: Global, run: RunChoice) -> Result<String, AllocError> {
    match run {
        RunChoice::File(path) => String::from_str(alloc, file_name(path)),
        RunChoice::Made { maker, .. } => match maker {
            Maker::Rounds => String::from_str(alloc, "rounds"),
            Maker::Fair => String::from_str(alloc, "a fair schedule"),
            Maker::Random { seed } => format!(in alloc; "the random schedule of seed {seed}"),
        },
    }
}
