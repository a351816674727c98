//! Whether all runs keep conditions, among the states that a search found.

ghost use Rattle.std.specs.Prelude.{◌≡◌, IsTrue, IfOk};
ghost use Rattle.std.specs.List.{list_all};
ghost use Rattle.run_answers.specs.StarvingStreams.ScheduleSpace.Spaces.{count};
ghost use Rattle.run_answers.specs.StarvingStreams.Reports.{HasAllStates};
ghost use Rattle.run_answers.specs.Answers.{AreAnswers};
ghost use Rattle.endless_waits.specs.Waits.{HasExtent, why_not};
ghost use Rattle.endless_waits.specs.Kept.{why_not_kept, is_kept, are_all_kept, TellsWhatIsKept, AllKept};

use crate::extents::SearchExtent;
use crate::unanswered::{Unanswered, why_not};
use image_machines::by_room;
use machine::LoadFault;
use run_answers::starving::space::Space;
use run_answers::{Rest, RunAnswer, RunCondition, answers_of};
use std::alloc::{AllocError, Global};

/// Whether all runs keep conditions.
#[derive(Drop)]
pub enum KeptConditions {
    /// The answers for those that were asked for, in their order.
    Answered(Vec<RunAnswer>),
    /// It was not asked.
    Unanswered(Unanswered),
}

impl KeptConditions {
    /// Whether it was asked, and all runs keep each condition.
    pub fn are_all_kept(&self) -> bool
        ensures { result ≡ are_all_kept self.now }
    {
        match self {
            KeptConditions::Answered(answers) => are_kept(answers),
            KeptConditions::Unanswered(_) => false,
        }
    }
}

/// Whether each answer is that all runs keep a condition.
fn are_kept(answers: &[RunAnswer]) -> bool
    ensures { result ≡ list_all is_kept answers.now }
{
    answers.iter().all(
        |answer: &RunAnswer| -> bool
            ensures { result ≡ is_kept answer.now }
        { is_kept(answer) },
    )
}

/// Whether an answer is that all runs keep a condition.
fn is_kept(answer: &RunAnswer) -> bool
    ensures { result ≡ is_kept answer.now }
{
    match answer {
        RunAnswer::Kept => true,
        RunAnswer::Evaded(_) | RunAnswer::Undecided => false,
    }
}

/// Whether all runs keep these conditions, where these streams may rest, by the states of a space, whose search went so
/// far: it is asked exactly if the search has all states, and they are no more than `MOST_STATES`. Then each has its
/// answer: a run that evades it, with a shortest schedule to a state where the first condition holds, or the stream
/// waits; that there is none; or that it is not known. So if it says that all are kept, no run that is fair as it is
/// asked evades one that leads to another, and none at all one about overtaking.
pub fn kept_conditions(
    alloc: Global,
    space: &Space<'_>,
    extent: SearchExtent,
    rests: &[Rest],
    asked: &[RunCondition],
) -> Result<KeptConditions, AllocError>
    ensures asked { IfOk result (λ l. why_not_kept l ≡ why_not extent (count space.now)) }
    ensures tells { IfOk result (λ l. HasExtent extent space.now
        → TellsWhatIsKept space.now.image space.now.begin rests.now asked.now l) }
    ensures all { IfOk result (λ l. HasExtent extent space.now → IsTrue (are_all_kept l)
        → AllKept space.now.image space.now.begin rests.now asked.now) }
{
    if let Some(reason) = why_not(extent, space.len()) {
        return Ok(KeptConditions::Unanswered(reason));
    }
    Ok(KeptConditions::Answered(answers_in(alloc, space, rests, asked)?))
}

/// The answers by the worlds of a space.
fn answers_in(
    alloc: Global,
    space: &Space<'_>,
    rests: &[Rest],
    asked: &[RunCondition],
) -> Result<Vec<RunAnswer>, AllocError>
    ensures { IfOk result (λ v. HasAllStates space.now
        → AreAnswers space.now.image space.now.begin rests.now asked.now v.items) }
{
    by_room!(space.image(), answers_on(alloc, space, rests, asked))
}

/// The same on machines with room for `S` streams a processor.
fn answers_on<const S: usize>(
    alloc: Global,
    space: &Space<'_>,
    rests: &[Rest],
    asked: &[RunCondition],
) -> Result<Vec<RunAnswer>, AllocError>
    ensures { IfOk result (λ v. HasAllStates space.now
        → AreAnswers space.now.image space.now.begin rests.now asked.now v.items) }
{
    match answers_of::<S>(alloc, space, rests, asked) {
        Ok(answers) => Ok(answers),
        Err(LoadFault::NoMemory | LoadFault::Streams) => Err(AllocError),
    }
}
