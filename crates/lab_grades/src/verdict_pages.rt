//! The pages of verdicts: runs that show that submissions are not right.

use crate::option_sums::asked_by;
use lab_requests::{Bounds, MOST_PLAYED, Maker};
use processor::Step;
use program_pages::expected::Requirements;
use program_pages::searches::Console;
use program_pages::{PlayPage, PlayedProgram, page_bounds, play_page, replay_page};
use replay_page::{RunNames, RunVerdict};
use result_lines::judges::{Witness, required_by};
use result_lines::reports::{CaseRow, GradeRow, case_for_student};
use std::alloc::{AllocError, Global};
use std::io::Write;
use std::time::Clock;
use submission_rows::parts::texts::ProgramNames;
use submission_rows::parts::{LabFault, Program, made_by};
use submission_rows::{Grading, given_by};

/// What the page of a run by a schedule of a search calls it.
const THAT_DECIDES: &str = "the schedule that decides";

/// The page of the run that shows a verdict on a program that is called so, by the first of the most severe cases that are not
/// hidden; None if no run does, or if it has more steps than a page. Of a schedule it is the page of all schedules, which opens
/// at its end, if the search for their states comes to no bound.
pub(crate) fn page_of_row<C: Clock, E: Write>(
    alloc: Global,
    grading: &Grading<'_, '_>,
    called: &str,
    program: &Program,
    row: &GradeRow,
    console: &mut Console<'_, C, E>,
) -> Result<Option<String>, LabFault> {
    let Some(place) = case_for_student(&row.cases) else {
        return Ok(None);
    };
    let (Some(row), Some(case)) = (row.cases.get(place), grading.cases.get(place)) else {
        return Ok(None);
    };
    if matches!(&row.witness, Witness::None) {
        return Ok(None);
    }
    let given = given_by(alloc, case, program)?;
    let program = given.as_ref().unwrap_or(program);
    let Ok(required) = required_by(alloc, case, &program.image, &program.text) else {
        return Ok(None);
    };
    let shown = ShownProgram {
        called,
        program,
        required: &required,
    };
    page_by_case(alloc, grading, shown, row, console)
}

/// A program that has a case's cells already.
#[derive(Clone, Copy)]
struct ShownProgram<'a> {
    /// What it is called.
    called: &'a str,
    /// The program.
    program: &'a Program,
    /// What the case requires of it.
    required: &'a Requirements,
}

/// Its page.
fn page_by_case<C: Clock, E: Write>(
    alloc: Global,
    grading: &Grading<'_, '_>,
    shown: ShownProgram<'_>,
    row: &CaseRow,
    console: &mut Console<'_, C, E>,
) -> Result<Option<String>, LabFault> {
    match &row.witness {
        Witness::None => Ok(None),
        Witness::Seed(seed) => { Ok(page_of_seed(alloc, grading.request.most, shown, row, *seed)?) }
        Witness::Schedule(steps) => match page_of_all(alloc, grading, shown, steps, console)? {
            Some(page) => Ok(Some(page)),
            None => Ok(page_of_steps(alloc, shown, row, THAT_DECIDES, steps)?),
        },
    }
}

/// The page of the run of a seed, which has no more steps than these; None if it has more than a page.
fn page_of_seed(
    alloc: Global,
    most: usize,
    shown: ShownProgram<'_>,
    row: &CaseRow,
    seed: u64,
) -> Result<Option<String>, AllocError> {
    let maker = Maker::Random { seed };
    let made = made_by(alloc, &shown.program.image, maker, most)?;
    let schedule = format!(in alloc; "the random schedule of seed {seed}")?;
    page_of_steps(alloc, shown, row, &schedule, &made.steps)
}

/// The page of the run by a schedule that is called so; None if it has more steps than a page.
fn page_of_steps(
    alloc: Global,
    shown: ShownProgram<'_>,
    row: &CaseRow,
    schedule: &str,
    steps: &[Step],
) -> Result<Option<String>, AllocError> {
    let names = RunNames {
        program: shown.called,
        schedule,
    };
    let verdict = page_verdict_of(row);
    replay_page(alloc, names, verdict, shown.program, shown.required, steps)
}

/// How a page says that the run is not right: by the line that it misses, where one says it.
fn page_verdict_of(row: &CaseRow) -> RunVerdict<'_> {
    RunVerdict::NotExpected {
        missed: row.missed.as_ref().map(|line| line.text.as_str()),
    }
}

/// The page of all schedules of a program, which opens after these steps; None if it is too large.
fn page_of_all<C: Clock, E: Write>(
    alloc: Global,
    grading: &Grading<'_, '_>,
    shown: ShownProgram<'_>,
    steps: &[Step],
    console: &mut Console<'_, C, E>,
) -> Result<Option<String>, LabFault> {
    let names = ProgramNames::of(alloc, &shown.program.text)?;
    let played = PlayedProgram {
        called: shown.called,
        program: shown.program,
        names: &names,
        required: shown.required,
        opened: steps,
    };
    match play_page(alloc, &played, bounds_of_page(grading), console)? {
        PlayPage::Written(page) => Ok(Some(page)),
        PlayPage::TooLarge(_) | PlayPage::NoSuchEnd => Ok(None),
    }
}

/// How far the search for the states of a page goes: up to those of a page, by the time and the memory of the search that
/// judges a submission.
fn bounds_of_page(grading: &Grading<'_, '_>) -> Bounds {
    match asked_by(grading).explored {
        Some(bounds) => Bounds {
            worlds: MOST_PLAYED,
            ..bounds
        },
        None => page_bounds(MOST_PLAYED),
    }
}
