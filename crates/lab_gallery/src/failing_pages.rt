//! Pages of an exercise whose program is not right.

use exercise_files::ShownFailing;
use exercise_files::parts::LabFault;
use exercise_files::parts::texts::ProgramNames;
use lab_requests::{Bounds, MOST_PLAYED};
use program_pages::searches::{Console, SearchBound};
use program_pages::{PlayPage, PlayedProgram, page_bounds, play_page, replay_page, too_large};
use replay_page::{RunNames, RunVerdict};
use std::alloc::Global;
use std::io::Write;
use std::time::Clock;

/// What the page of one run calls its schedule.
const THAT_DECIDES: &str = "the schedule that decides";

/// The page of the run by which a program is not right, or of all schedules, opened after this run; or in words why there is
/// none.
pub fn failing_page<C: Clock, E: Write>(
    alloc: Global,
    shown: ShownFailing<'_>,
    is_of_all: bool,
    console: &mut Console<'_, C, E>,
) -> Result<Result<String, String>, LabFault> {
    if is_of_all {
        page_of_all(alloc, shown, console)
    } else {
        page_of_run(alloc, shown)
    }
}

/// The page of all schedules, opened after the steps of the run.
fn page_of_all<C: Clock, E: Write>(
    alloc: Global,
    shown: ShownFailing<'_>,
    console: &mut Console<'_, C, E>,
) -> Result<Result<String, String>, LabFault> {
    let names = ProgramNames::of(alloc, &shown.program.text)?;
    let played = PlayedProgram {
        called: shown.called,
        program: shown.program,
        names: &names,
        required: shown.required,
        opened: shown.steps,
    };
    let bounds = page_bounds(MOST_PLAYED);
    match play_page(alloc, &played, bounds, console) {
        Ok(PlayPage::Written(page)) => Ok(Ok(page)),
        Ok(PlayPage::TooLarge(bound)) => no_page_of_all(alloc, bounds, bound),
        Ok(PlayPage::NoSuchEnd) => no_page(alloc, "no schedule leads to such an end"),
        Err(fault) => Err(fault),
    }
}

/// The page of the run.
fn page_of_run(alloc: Global, shown: ShownFailing<'_>) -> Result<Result<String, String>, LabFault> {
    if !shown.has_run {
        return no_page(alloc, "no run of the program goes wrong");
    }
    let names = RunNames {
        program: shown.called,
        schedule: THAT_DECIDES,
    };
    let verdict = RunVerdict::NotExpected {
        missed: shown.missed,
    };
    match replay_page(
        alloc,
        names,
        verdict,
        shown.program,
        shown.required,
        shown.steps,
    )? {
        Some(page) => Ok(Ok(page)),
        None => no_page(alloc, "the run has more steps than a page shows"),
    }
}

/// That there is no page, for this reason.
fn no_page(alloc: Global, why: &str) -> Result<Result<String, String>, LabFault> {
    Ok(Err(String::from_str(alloc, why)?))
}

/// That there is no page of all schedules, of a program that is too large for it.
fn no_page_of_all(
    alloc: Global,
    bounds: Bounds,
    bound: SearchBound,
) -> Result<Result<String, String>, LabFault> {
    let why = too_large(alloc, bounds, bound)?;
    Ok(Err(format!(in alloc; "{why}; --page shows one run")?))
}
