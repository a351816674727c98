//! Who can wait forever, among the states that a search found.

ghost use Rattle.std.specs.Prelude.{◌≡◌, IsTrue, IfOk, []};
ghost use Rattle.run_answers.specs.StarvingStreams.ScheduleSpace.Spaces.{count};
ghost use Rattle.run_answers.specs.StarvingStreams.Starving.{NobodyWaits};
ghost use Rattle.run_answers.specs.StarvingStreams.Reports.{HasAllStates, TellsWhoStarves};
ghost use Rattle.endless_waits.specs.Waits.{HasExtent, why_not, why_not_in, is_nobody, shown_in, status_of_waits, status_if, TellsWhoWaits};

use crate::extents::SearchExtent;
use crate::unanswered::{Unanswered, why_not};
use end_kinds::Status;
use image_machines::by_room;
use machine::LoadFault;
use run_answers::Rest;
use run_answers::starving::space::Space;
use run_answers::starving::{StarvingStreams, starving_streams};
use std::alloc::{AllocError, Global};

/// Who can wait forever.
#[derive(Drop)]
pub enum EndlessWaits {
    /// These can, and of these it was not decided.
    Answered(StarvingStreams),
    /// It was not asked.
    Unanswered(Unanswered),
}

impl EndlessWaits {
    /// Whether nobody can: it was asked, no stream is shown, and none was left undecided.
    pub fn is_nobody(&self) -> bool
        ensures { result ≡ is_nobody self.now }
    {
        match self {
            EndlessWaits::Answered(found) => {
                found.starving.is_empty() && found.undecided.is_empty()
            }
            EndlessWaits::Unanswered(_) => false,
        }
    }

    /// The exit status: done if nobody can, else as of a search that found an endless loop, or that did not come to its end.
    pub fn status(&self) -> Status
        ensures { result ≡ status_of_waits self.now }
    {
        if self.is_nobody() {
            Status::Done
        } else {
            Status::OutOfSteps
        }
    }

    /// What it means for the exit status of a search: nothing, unless it was asked, or is required, that nobody can.
    pub fn status_if(&self, is_asked: bool) -> Status
        ensures { result ≡ status_if is_asked self.now }
    {
        if is_asked {
            self.status()
        } else {
            Status::Done
        }
    }
}

/// Who can wait forever, where these streams may rest, by the states of a space, whose search went so far: it is asked
/// exactly if the search has all states, and they are no more than `MOST_STATES`. Then each stream that can is shown,
/// with a schedule and a round in which it starves, or is named as undecided. So if it says that nobody can, no round
/// that is fair by words leaves a stream waiting; and if nobody can, it shows no stream.
pub fn endless_waits(
    alloc: Global,
    space: &Space<'_>,
    extent: SearchExtent,
    rests: &[Rest],
) -> Result<EndlessWaits, AllocError>
    ensures asked { IfOk result (λ w. why_not_in w ≡ why_not extent (count space.now)) }
    ensures tells { IfOk result (λ w. HasExtent extent space.now
        → TellsWhoWaits space.now.image space.now.begin rests.now w) }
    ensures nobody { IfOk result (λ w. HasExtent extent space.now → IsTrue (is_nobody w)
        → NobodyWaits space.now.image space.now.begin rests.now) }
    ensures only { IfOk result (λ w. HasExtent extent space.now → NobodyWaits space.now.image space.now.begin rests.now
        → shown_in w ≡ []) }
{
    if let Some(reason) = why_not(extent, space.len()) {
        return Ok(EndlessWaits::Unanswered(reason));
    }
    Ok(EndlessWaits::Answered(starving_in(alloc, space, rests)?))
}

/// The streams that can wait forever, by the worlds of a space.
fn starving_in(
    alloc: Global,
    space: &Space<'_>,
    rests: &[Rest],
) -> Result<StarvingStreams, AllocError>
    ensures { IfOk result (λ r. HasAllStates space.now → TellsWhoStarves space.now.image space.now.begin rests.now r) }
{
    by_room!(space.image(), starving_on(alloc, space, rests))
}

/// The same on machines with room for `S` streams a processor.
fn starving_on<const S: usize>(
    alloc: Global,
    space: &Space<'_>,
    rests: &[Rest],
) -> Result<StarvingStreams, AllocError>
    ensures { IfOk result (λ r. HasAllStates space.now → TellsWhoStarves space.now.image space.now.begin rests.now r) }
{
    match starving_streams::<S>(alloc, space, rests) {
        Ok(found) => Ok(found),
        Err(LoadFault::NoMemory | LoadFault::Streams) => Err(AllocError),
    }
}
