//! The ends of a submission, counted, as reports have them.

use crate::case_words::CaseNotation;
use end_kinds::EndKind;
use grade_rows::CountedEnd;
use grade_rows::judges::states::EndJudgement;
use grade_rows::judges::{CaseJudgement, MissedLine, Witness, line_missed_by};
use grade_rows::outcomes::SeedOutcome;
use search_texts::ends_in_words::ends_of_space::{SpaceEnd, SpaceEndKind};
use search_texts::ends_in_words::{state_text, text_of_end};
use std::alloc::{AllocError, Global};

/// Adds the ends of a program by a case: the outcomes of all seeds, where these decide, else the ends of all schedules.
pub(crate) fn add_ends(
    alloc: Global,
    shown: CaseNotation<'_, '_>,
    judgement: &CaseJudgement,
    ends: &mut Vec<CountedEnd>,
) -> Result<(), AllocError> {
    for outcome in judgement.outcomes.iter() {
        ends.push(outcome_end(alloc, shown, outcome)?)?;
    }
    for end in judgement.ends.iter() {
        ends.push(counted_end(alloc, shown, end)?)?;
    }
    Ok(())
}

/// An end, as one that is counted by its worlds.
fn counted_end(
    alloc: Global,
    shown: CaseNotation<'_, '_>,
    end: &SpaceEnd,
) -> Result<CountedEnd, AllocError> {
    let lines = shown.lines;
    let schedule = Vec::from_slice(alloc, &end.schedule)?;
    Ok(CountedEnd {
        kind: kind_of(end.kind),
        count: end.worlds(),
        witness: Witness::Schedule(schedule),
        text: text_of_end(alloc, shown.notation, lines.required, shown.image, end)?,
        missed: lines.line_of(alloc, line_of_end(end))?,
    })
}

/// The line that an end of all schedules misses, as `explore` says it: of an endless loop the first that some of its
/// worlds miss, which decides no verdict.
fn line_of_end(end: &SpaceEnd) -> Option<MissedLine> {
    match end.kind {
        SpaceEndKind::End(EndKind::Spinning | EndKind::Looping) => {
            let place = end.missed?;
            Some(MissedLine::End(place))
        }
        SpaceEndKind::End(
            EndKind::Finished
            | EndKind::Stopped
            | EndKind::Deadlock
            | EndKind::Waiting
            | EndKind::OutOfSteps,
        )
        | SpaceEndKind::Broken { .. }
        | SpaceEndKind::Busy => line_missed_by(end),
    }
}

/// How worlds end; None where they break a claim.
fn kind_of(kind: SpaceEndKind) -> Option<EndKind> {
    match kind {
        SpaceEndKind::End(kind) => Some(kind),
        SpaceEndKind::Broken { .. } | SpaceEndKind::Busy => None,
    }
}

/// The end that an outcome is.
fn outcome_end(
    alloc: Global,
    shown: CaseNotation<'_, '_>,
    outcome: &SeedOutcome,
) -> Result<CountedEnd, AllocError> {
    Ok(CountedEnd {
        kind: Some(outcome.judgement.kind),
        count: outcome.runs,
        witness: Witness::Seed(outcome.seed),
        text: state_text(alloc, shown.notation, shown.image, &outcome.state)?,
        missed: shown.lines.line_of(alloc, missed_by(outcome.judgement))?,
    })
}

/// The line that an outcome misses, or that its runs break.
fn missed_by(judgement: EndJudgement) -> Option<MissedLine> {
    match (judgement.missed, judgement.broken) {
        (Some(place), _) => Some(MissedLine::End(place)),
        (None, Some(claim)) => Some(MissedLine::Claim(claim)),
        (None, None) => None,
    }
}
