//! Which condition a search shows that not all runs keep.

ghost use Rattle.std.specs.Prelude.{◌≡◌, false, IfOk, IfNone, IfSome};
ghost use Rattle.std.specs.List.{list_any};
ghost use Rattle.program_searches.specs.Kept.{is_evaded};
ghost use Rattle.judgements.specs.Evaded.{IsFirstEvasion, IsSameRun, IsSameEnd, answers_in};

use program_searches::Explored;
use program_searches::endless::KeptConditions;
use program_searches::endless::answered::{EvadingRun, RunAnswer, RunEnd};
use std::alloc::{AllocError, Global};

/// A run that evades a condition.
#[derive(Drop)]
pub struct Evasion {
    /// The place of the condition among those that are required.
    pub place: usize,
    /// The run.
    pub run: EvadingRun,
}

/// The first run that a search shows which evades a condition, as a copy; None where it shows none.
pub(crate) fn first_evasion(
    alloc: Global,
    found: &Explored<'_>,
) -> Result<Option<Evasion>, AllocError>
    ensures first { IfOk result (λ shown. IfSome shown (IsFirstEvasion 0 (answers_in found.now.kept))) }
    ensures none { IfOk result (λ shown. IfNone shown (list_any is_evaded (answers_in found.now.kept) ≡ false)) }
{
    match &found.kept {
        Some(KeptConditions::Answered(answers)) => first_of(alloc, answers),
        Some(KeptConditions::Unanswered(_)) | None => Ok(None),
    }
}

/// That of the first answer which shows one, as a copy; None where none does.
fn first_of(alloc: Global, answers: &[RunAnswer]) -> Result<Option<Evasion>, AllocError>
    ensures first { IfOk result (λ shown. IfSome shown (IsFirstEvasion 0 answers.now)) }
    ensures none { IfOk result (λ shown. IfNone shown (list_any is_evaded answers.now ≡ false)) }
{
    for place in 0..answers.len() {
        match &answers[place] {
            RunAnswer::Evaded(run) => {
                let run = copy_of(alloc, run)?;
                return Ok(Some(Evasion { place, run }));
            }
            RunAnswer::Kept | RunAnswer::Undecided => {}
        }
    }
    Ok(None)
}

/// A copy of a run.
fn copy_of(alloc: Global, run: &EvadingRun) -> Result<EvadingRun, AllocError>
    ensures { IfOk result (λ copy. IsSameRun run.now copy) }
{
    Ok(EvadingRun {
        stem: Vec::from_slice(alloc, &run.stem)?,
        way: Vec::from_slice(alloc, &run.way)?,
        end: copy_of_end(alloc, &run.end)?,
    })
}

/// A copy of what follows the last steps of a run.
fn copy_of_end(alloc: Global, end: &RunEnd) -> Result<RunEnd, AllocError>
    ensures { IfOk result (λ copy. IsSameEnd end.now copy) }
{
    match end {
        RunEnd::Stops => Ok(RunEnd::Stops),
        RunEnd::Repeats(round) => Ok(RunEnd::Repeats(Vec::from_slice(alloc, round)?)),
        RunEnd::Anything => Ok(RunEnd::Anything),
    }
}
