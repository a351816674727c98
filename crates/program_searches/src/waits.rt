//! Who can wait forever in a program, by the states that a search found.

ghost use Rattle.std.specs.Prelude.{◌≡◌, is_some, IsTrue, IfOk, IfSome};
ghost use Rattle.image_file.specs.ImageValue.{ImageValue};
ghost use Rattle.space_ends.specs.ScheduleSpace.Spaces.{count};
ghost use Rattle.endless_waits.specs.StarvingStreams.Starving.{NobodyWaits};
ghost use Rattle.endless_waits.specs.Waits.{HasExtent, IsSoOfWaits, is_nobody, why_not, why_not_in, TellsWhoWaits};
ghost use Rattle.program_searches.specs.Searches.{IsExplored};
ghost use Rattle.program_searches.specs.Waits.{extent_by, extent_of, is_unstarved, says_nobody};
ghost use Rattle.program_searches.specs.declared.searches.ProgramSearch.{ProgramSearch};

use crate::explored::Explored;
use endless_waits::answered::Rest;
use endless_waits::{EndlessWaits, SearchExtent, endless_waits};
use expectation_files::Requirements;
use space_ends::space::Space;
use std::alloc::{AllocError, Global};

/// Who can wait forever in a program of which this search was made, where these streams may rest, whatever is required of it.
/// That is asked exactly if the
/// search looked for all states, has all, and they are no more than 100,000.
pub fn endless_waits_of(
    alloc: Global,
    found: &Explored<'_>,
    rests: &[Rest],
) -> Result<EndlessWaits, AllocError>
    ensures asked { IfOk result (λ w. why_not_in w ≡ why_not (extent_of found.now) (count found.now.space)) }
    ensures tells { IfOk result (λ w. (image : ImageValue) (asked : ProgramSearch) → IsExplored image asked found.now
        → TellsWhoWaits image asked.begin.now rests.now w) }
    ensures nobody { IfOk result (λ w. (image : ImageValue) (asked : ProgramSearch) → IsExplored image asked found.now
        → IsTrue (is_nobody w) → NobodyWaits image asked.begin.now rests.now) }
{
    let waits = endless_waits(alloc, &found.space, found.extent(), rests)?;
    Ok(waits)
}

/// Who can wait forever, by the states of a space whose search went so far, where it is required that nobody can.
pub(crate) fn waits_in(
    alloc: Global,
    required: &Requirements,
    space: &Space<'_>,
    extent: SearchExtent,
) -> Result<Option<EndlessWaits>, AllocError>
    ensures asked { IfOk result (λ found. is_some found ≡ is_some required.now.never_starved) }
    ensures why { IfOk result (λ found. IfSome found (λ w. why_not_in w ≡ why_not extent (count space.now))) }
    ensures so { IfOk result (λ found. HasExtent extent space.now
        → IfSome found (IsSoOfWaits space.now.image space.now.begin required.now.rests.items)) }
{
    if required.never_starved().is_none() {
        return Ok(None);
    }
    Ok(Some(endless_waits(alloc, space, extent, required.rests())?))
}

/// How far a search went that looked for all worlds or not, and is complete or not.
pub(crate) fn extent_by(is_of_all_worlds: bool, is_complete: bool) -> SearchExtent
    ensures { result ≡ extent_by is_of_all_worlds is_complete }
{
    match (is_of_all_worlds, is_complete) {
        (true, true) => SearchExtent::AllStates,
        (true, false) => SearchExtent::Bounded,
        (false, _) => SearchExtent::Reduced,
    }
}

/// Whether it is said that nobody can wait forever, where that is required.
pub(crate) fn is_unstarved(required: &Requirements, waits: &Option<EndlessWaits>) -> bool
    ensures { result ≡ is_unstarved required.now waits.now }
{
    required.never_starved().is_none() || says_nobody(waits)
}

/// Whether it was asked who can wait forever, and nobody can.
fn says_nobody(waits: &Option<EndlessWaits>) -> bool
    ensures { result ≡ says_nobody waits.now }
{
    match waits {
        Some(waits) => waits.is_nobody(),
        None => false,
    }
}
