//! The command `survey`.

use crate::coverage::push_every_schedule;
use crate::missed_work::push_missed_work;
use crate::outcome_words::{OutcomeWords, words_of_outcomes};
use crate::survey_objects::{SurveyInput, broken_words, push_outcome_objects};
use asked_programs::{WarnedProgram, read_warned_program};
use expectation_files::Requirements;
use expectation_messages::parts::texts::{Notation, ProgramNames};
use expectation_messages::requirements_of;
use lab_requests::{Bounds, SurveyRequest};
use plain_text::push_plain;
use program_rules::first_broken;
use search_texts::parts::{CommandAnswer, Inputs, LabFault, style_of};
use search_texts::searches::{
    Console, Explored, ProgramSearch, Unkept, UnkeptConditions, UnkeptWaits, explore_program,
};
use search_texts::{
    EndCells, EndColumns, LookedAt, end_line, push_expected, push_unkept, push_unkept_objects,
    search_fault,
};
use seed_outcomes::seeds::Seeds;
use seed_outcomes::{SeedOutcome, SurveySeeds, outcomes_of, unshown_by_seeds, worst_status};
use std::alloc::{AllocError, Global};
use std::io::{Read, Write};
use std::rt::Files;
use std::thread::Threads;
use std::time::Clock;

/// Runs a program by many random schedules, and counts their ends.
pub fn survey<X: Threads + Sync, C: Clock, F: Files, R: Read, E: Write>(
    rt: &X,
    alloc: Global,
    inputs: &mut Inputs<'_, F, R>,
    request: &SurveyRequest,
    console: &mut Console<'_, C, E>,
) -> Result<CommandAnswer, LabFault> {
    let mut text = Vec::new(alloc);
    if let Some(path) = request.expected {
        text = inputs.read(alloc, path)?;
    }
    let WarnedProgram { program, warnings } = read_warned_program(
        alloc,
        inputs,
        request.program,
        request.given,
    )?;
    let _ = console.errors.write_all(warnings.as_bytes());
    let names = ProgramNames::of(alloc, &program.text)?;
    let required = match request.expected {
        Some(path) => requirements_of(alloc, path, &text, &program)?,
        None => Requirements::none(alloc),
    };
    let surveyed = SurveyInput {
        program: &program,
        required: &required,
        most: request.most,
    };
    survey_of(rt, alloc, request, surveyed, &names, console)
}

/// The survey of a program with these names.
fn survey_of<X: Threads + Sync, C: Clock, E: Write>(
    rt: &X,
    alloc: Global,
    request: &SurveyRequest,
    surveyed: SurveyInput,
    names: &ProgramNames<'_>,
    console: &mut Console<'_, C, E>,
) -> Result<CommandAnswer, LabFault> {
    let seeds = SurveySeeds {
        first: request.first,
        count: request.seeds,
        most: request.most,
    };
    let image = &surveyed.program.image;
    let mut outcomes = outcomes_of(rt, alloc, image, surveyed.required, seeds)?;
    outcomes.sort_by_key(|outcome: &SeedOutcome| usize::MAX - outcome.runs)?;
    let is_json = request.shown.json;
    let mut output = outcomes_text(rt, alloc, request, surveyed, names, &outcomes)?;
    let found = match request.explored {
        Some(bounds) => Some(every_end(alloc, surveyed, bounds, console)?),
        None => None,
    };
    let (unkept, looked_at) = match &found {
        Some(found) => (found.unkept(), LookedAt::EverySchedule),
        None => (unkept_by_seeds(alloc, surveyed, seeds)?, LookedAt::SomeRuns),
    };
    push_whole(alloc, &mut output, is_json, surveyed, unkept, looked_at)?;
    let work = push_missed_work(alloc, &mut output, is_json, surveyed, seeds)?;
    let mut whole = unkept.status(false);
    if let Some(found) = &found {
        push_every_schedule(alloc, &mut output, is_json, surveyed, found, &outcomes)?;
        whole = found.status();
    }
    let status = worst_status(&outcomes).worse(whole).worse(work);
    Ok(CommandAnswer::printed(alloc, output, status))
}

/// What is printed of the outcomes: objects, or lines.
fn outcomes_text<X: Threads + Sync>(
    rt: &X,
    alloc: Global,
    request: &SurveyRequest,
    surveyed: SurveyInput,
    names: &ProgramNames<'_>,
    outcomes: &[SeedOutcome],
) -> Result<String, LabFault> {
    let mut output = String::new(alloc);
    if request.shown.json {
        push_outcome_objects(rt, alloc, &mut output, surveyed, outcomes)?;
    } else {
        let notation = Notation {
            names,
            style: style_of(request.shown),
        };
        let words = words_of_outcomes(rt, alloc, surveyed, notation, outcomes)?;
        push_outcomes(alloc, &mut output, surveyed.required, outcomes, &words)?;
    }
    Ok(output)
}

/// What of the program as a whole is not so, by the runs of seeds.
fn unkept_by_seeds(
    alloc: Global,
    surveyed: SurveyInput,
    seeds: SurveySeeds,
) -> Result<Unkept, AllocError> {
    let SurveyInput {
        program,
        required,
        ..
    } = surveyed;
    let tried = Seeds {
        first: seeds.first,
        count: seeds.count,
        most: seeds.most,
    };
    Ok(Unkept {
        rule: first_broken(&program.image, required.rules()),
        unshown: unshown_by_seeds(alloc, &program.image, required.claims(), tried)?,
        waits: waits_by_runs(required),
        conditions: conditions_by_runs(required),
        undecided: required.never_busy(),
    })
}

/// That runs do not decide who can wait forever, if it is required that nobody can.
fn waits_by_runs(required: &Requirements) -> Option<UnkeptWaits> {
    if required.never_starved().is_some() {
        Some(UnkeptWaits::RunsAlone)
    } else {
        None
    }
}

/// That runs do not decide whether all runs keep conditions, if some are required.
fn conditions_by_runs(required: &Requirements) -> Option<UnkeptConditions> {
    if required.run_conditions().is_empty() {
        None
    } else {
        Some(UnkeptConditions::RunsAlone)
    }
}

/// Adds what of the program as a whole is not so, by the states that were looked at.
fn push_whole(
    alloc: Global,
    out: &mut String,
    is_json: bool,
    surveyed: SurveyInput,
    unkept: Unkept,
    looked_at: LookedAt,
) -> Result<(), AllocError> {
    if is_json {
        push_unkept_objects(alloc, out, surveyed.required, unkept)
    } else {
        push_unkept(out, surveyed.required, unkept, looked_at)
    }
}

/// Adds the lines of the outcomes.
fn push_outcomes(
    alloc: Global,
    out: &mut String,
    required: &Requirements,
    outcomes: &[SeedOutcome],
    words: &[OutcomeWords],
) -> Result<(), AllocError> {
    let mut columns = EndColumns::named("runs", "first by");
    for outcome in outcomes {
        let seed = seed_words(alloc, outcome)?;
        columns.widen(cells_of(outcome, &seed));
    }
    if !outcomes.is_empty() {
        columns.push_names(out)?;
    }
    for (outcome, words) in outcomes.iter().zip(words) {
        let seed = seed_words(alloc, outcome)?;
        columns.push_cells(out, cells_of(outcome, &seed))?;
        push_plain(out, words.text.as_str())?;
        push_judgement(out, required, outcome, &words.text)?;
        end_line(out)?;
        columns.push_note(out, words.finding.as_str())?;
    }
    Ok(())
}

/// The seed that came to an outcome first, in words.
fn seed_words(alloc: Global, outcome: &SeedOutcome) -> Result<String, AllocError> {
    let seed = outcome.seed;
    format!(in alloc; "seed {seed}")
}

/// The cells of an outcome that a seed came to first.
fn cells_of<'a>(outcome: &SeedOutcome, seed: &'a str) -> EndCells<'a> {
    EndCells {
        count: outcome.runs,
        kind: outcome.judgement.kind.name(),
        reached: seed,
    }
}

/// The ends of every schedule of a program.
fn every_end<'s, C: Clock, E: Write>(
    alloc: Global,
    surveyed: SurveyInput<'s>,
    bounds: Bounds,
    console: &mut Console<'_, C, E>,
) -> Result<Explored<'s>, LabFault> {
    let begin = Vec::new(alloc);
    let asked = ProgramSearch {
        required: surveyed.required,
        begin: &begin,
        bounds,
        is_plain: false,
    };
    match explore_program(alloc, &surveyed.program.image, &asked, console) {
        Ok(found) => Ok(found),
        Err(fault) => Err(search_fault(alloc, fault)?),
    }
}

/// Adds that an outcome is not as expected, and the first line that it misses, or that is broken on the way.
fn push_judgement(
    out: &mut String,
    required: &Requirements,
    outcome: &SeedOutcome,
    text: &str,
) -> Result<(), AllocError> {
    let judgement = outcome.judgement;
    let is_flawed = judgement.missed.is_some()
        || judgement.broken.is_some()
        || judgement.is_trapped;
    if required.is_nothing() || !is_flawed {
        return Ok(());
    }
    out.push_str(if text.is_empty() { "" } else { "   " })?;
    out.push_str("NOT as expected")?;
    if let Some(place) = judgement.missed {
        out.push_str(": ")?;
        return push_expected(out, required, place);
    }
    if let Some(claim) = broken_words(required, outcome) {
        out.push_str(": ")?;
        return out.push_str(claim);
    }
    Ok(())
}
