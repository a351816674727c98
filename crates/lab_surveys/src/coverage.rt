//! What the search among every schedule adds to a survey.

use crate::survey_objects::{SurveyInput, push_broken_object, push_coverage};
use plain_text::plural;
use search_texts::ends_in_words::{BrokenLine, broken_line};
use search_texts::searches::Explored;
use seed_outcomes::ends_of_space::SpaceEndKind;
use seed_outcomes::{SeedOutcome, is_met, is_reported};
use std::alloc::{AllocError, Global};

/// Adds the lines that some schedule breaks on its way and that no outcome breaks, and how many of the ends of every
/// schedule were met, of those that a run can show.
pub(crate) fn push_every_schedule(
    alloc: Global,
    out: &mut String,
    is_json: bool,
    surveyed: SurveyInput,
    found: &Explored<'_>,
    outcomes: &[SeedOutcome],
) -> Result<(), AllocError> {
    for end in &found.ends {
        if let Some(line) = broken_line(surveyed.required, end.kind)
            && !is_reported(end, outcomes)
        {
            push_broken(alloc, out, is_json, line)?;
        }
    }
    push_met(alloc, out, is_json, found, outcomes)
}

/// Adds that some schedule breaks a line.
fn push_broken(
    alloc: Global,
    out: &mut String,
    is_json: bool,
    broken: BrokenLine<'_>,
) -> Result<(), AllocError> {
    if is_json {
        return push_broken_object(alloc, out, broken);
    }
    let claim = broken.words;
    write!(
        out,
        "NOT as expected: {claim}: some schedule breaks it, and explore shows which\n"
    )
}

/// Adds how many of the ends of every schedule were met.
fn push_met(
    alloc: Global,
    out: &mut String,
    is_json: bool,
    found: &Explored<'_>,
    outcomes: &[SeedOutcome],
) -> Result<(), AllocError> {
    let ends = found
        .ends
        .iter()
        .filter(|end| is_shown_by_runs(end.kind))
        .count();
    let met = found
        .ends
        .iter()
        .filter(|end| is_met(end, outcomes))
        .count();
    if is_json {
        return push_coverage(alloc, out, found, ends, met);
    }
    let worlds = found.worlds();
    let which = if found.is_complete {
        "every schedule"
    } else {
        "some schedules"
    };
    let (comma, ended) = match found.bound {
        Some(bound) => (", ", bound.words()),
        None => ("", ""),
    };
    let (some_ends, some_worlds) = (plural(ends), plural(worlds));
    write!(
        out,
        "reached {met} of the {ends} end{some_ends} of {which} ({worlds} state{some_worlds}{comma}{ended})\n"
    )?;
    if can_go_on_forever(found) {
        out.push_str("some schedule goes on forever: no run shows that, and explore shows how\n")?;
    }
    Ok(())
}

/// Whether a run can show that it came to an end of this kind: one that goes on forever has no end.
fn is_shown_by_runs(kind: SpaceEndKind) -> bool {
    kind.is_end() && !kind.is_endless()
}

/// Whether a search found an endless loop.
pub(crate) fn can_go_on_forever(found: &Explored<'_>) -> bool {
    found.ends.iter().any(|end| end.kind.is_endless())
}
