//! Which stream a search shows that can wait forever.

ghost use Rattle.std.specs.Prelude.{◌≡◌, [], IfOk, IfNone, IfSome};
ghost use Rattle.program_searches.specs.Waits.{starving_in};
ghost use Rattle.judgements.specs.Starved.{IsFirstStarving, IsSameStarving};

use program_searches::Explored;
use program_searches::endless::EndlessWaits;
use program_searches::endless::starving::Starving;
use std::alloc::{AllocError, Global};

/// A copy of the first stream that a search shows to wait forever, with its schedule and round; None where it shows none.
pub(crate) fn first_starving(
    alloc: Global,
    found: &Explored<'_>,
) -> Result<Option<Starving>, AllocError>
    ensures first { IfOk result (λ shown. IfSome shown (IsFirstStarving (starving_in found.now.waits))) }
    ensures none { IfOk result (λ shown. IfNone shown (starving_in found.now.waits ≡ [])) }
{
    match &found.waits {
        Some(EndlessWaits::Answered(answer)) => first_of(alloc, &answer.starving),
        Some(EndlessWaits::Unanswered(_)) | None => Ok(None),
    }
}

/// A copy of the first of some; None where there is none.
fn first_of(alloc: Global, starving: &[Starving]) -> Result<Option<Starving>, AllocError>
    ensures first { IfOk result (λ shown. IfSome shown (IsFirstStarving starving.now)) }
    ensures none { IfOk result (λ shown. IfNone shown (starving.now ≡ [])) }
{
    match starving {
        [shown, ..] => Ok(Some(copy_of(alloc, shown)?)),
        [] => Ok(None),
    }
}

/// A copy of one.
fn copy_of(alloc: Global, shown: &Starving) -> Result<Starving, AllocError>
    ensures { IfOk result (λ copy. IsSameStarving shown.now copy) }
{
    Ok(Starving {
        stream: shown.stream,
        stem: Vec::from_slice(alloc, &shown.stem)?,
        round: Vec::from_slice(alloc, &shown.round)?,
    })
}
