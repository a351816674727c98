//! Whether all runs of a program keep conditions, by the states that a search found.

ghost use Rattle.std.specs.Prelude.{◌≡◌, is_some, IfOk, IfSome};
ghost use Rattle.std.specs.List.{position};
ghost use Rattle.space_ends.specs.ScheduleSpace.Spaces.{count};
ghost use Rattle.endless_waits.specs.Waits.{HasExtent, why_not};
ghost use Rattle.endless_waits.specs.Kept.{IsSoOfKept, why_not_kept};
ghost use Rattle.program_searches.specs.Kept.{asks_conditions, are_kept, says_all_kept, is_evaded, is_undecided};
ghost use Rattle.program_searches.specs.Kept.{first_unkept, unkept_conditions};

use crate::unkept::UnkeptConditions;
use endless_waits::answered::RunAnswer;
use endless_waits::{KeptConditions, SearchExtent, kept_conditions};
use expectation_files::Requirements;
use space_ends::space::Space;
use std::alloc::{AllocError, Global};

/// Whether all runs keep the conditions that are required of them, by the states of a space whose search went so far; None
/// where none is required.
pub(crate) fn kept_in(
    alloc: Global,
    required: &Requirements,
    space: &Space<'_>,
    extent: SearchExtent,
) -> Result<Option<KeptConditions>, AllocError>
    ensures asked { IfOk result (λ found. is_some found ≡ asks_conditions required.now) }
    ensures why { IfOk result (λ found. IfSome found (λ l. why_not_kept l ≡ why_not extent (count space.now))) }
    ensures so { IfOk result (λ found. HasExtent extent space.now
        → IfSome found (IsSoOfKept space.now.image space.now.begin required.now.rests.items
        required.now.run_conditions.items)) }
{
    if required.run_conditions().is_empty() {
        return Ok(None);
    }
    Ok(Some(kept_conditions(
        alloc,
        space,
        extent,
        required.rests(),
        required.run_conditions(),
    )?))
}

/// Whether it is said that all runs keep the conditions that are required, where some are.
pub(crate) fn are_kept(required: &Requirements, kept: &Option<KeptConditions>) -> bool
    ensures { result ≡ are_kept required.now kept.now }
{
    required.run_conditions().is_empty() || says_all_kept(kept)
}

/// Whether it was asked, and all are kept.
fn says_all_kept(kept: &Option<KeptConditions>) -> bool
    ensures { result ≡ says_all_kept kept.now }
{
    match kept {
        Some(kept) => kept.are_all_kept(),
        None => false,
    }
}

/// Why it is not known that all conditions are kept, by what was said of it; None if it is known, or was not asked.
pub(crate) fn unkept_conditions(kept: &Option<KeptConditions>) -> Option<UnkeptConditions>
    ensures { result ≡ unkept_conditions kept.now }
{
    match kept {
        Some(KeptConditions::Answered(answers)) => {
            first_unkept(first_evaded(answers), first_undecided(answers))
        }
        Some(KeptConditions::Unanswered(reason)) => Some(UnkeptConditions::Unanswered(*reason)),
        None => None,
    }
}

/// The first that a run evades, or else the first that is not decided.
fn first_unkept(evaded: Option<usize>, undecided: Option<usize>) -> Option<UnkeptConditions>
    ensures { result ≡ first_unkept evaded undecided }
{
    match (evaded, undecided) {
        (Some(place), _) => Some(UnkeptConditions::Evaded(place)),
        (None, Some(place)) => Some(UnkeptConditions::Undecided(place)),
        (None, None) => None,
    }
}

/// The place of the first answer with a run that evades a condition.
fn first_evaded(answers: &[RunAnswer]) -> Option<usize>
    ensures { result ≡ position is_evaded answers.now }
{
    answers.iter().position(
        |answer: &RunAnswer| -> bool
            ensures { result ≡ is_evaded answer.now }
        {
            match answer {
                RunAnswer::Evaded(_) => true,
                RunAnswer::Kept | RunAnswer::Undecided => false,
            }
        },
    )
}

/// The place of the first answer that is not decided.
fn first_undecided(answers: &[RunAnswer]) -> Option<usize>
    ensures { result ≡ position is_undecided answers.now }
{
    answers.iter().position(
        |answer: &RunAnswer| -> bool
            ensures { result ≡ is_undecided answer.now }
        {
            match answer {
                RunAnswer::Undecided => true,
                RunAnswer::Kept | RunAnswer::Evaded(_) => false,
            }
        },
    )
}
