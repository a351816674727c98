//! The last steps of a run, of which it is asked whether they are a round.

ghost use Rattle.std.specs.Prelude.{◌≡◌, IfOk, IsTrue, [], length};
ghost use Rattle.processor.specs.World.{run};
ghost use Rattle.step_views.specs.Changes.{AreChanges};
ghost use Rattle.whole_runs.specs.FirstDifferences.{world_at};
ghost use Rattle.run_rounds.specs.Rounds.{ComesBack, IsSaidOfLast};

use crate::states::differences_at;
use image_file::Image;
use machine::LoadFault;
use processor::Step;
use std::alloc::Global;
use step_views::Change;

/// A round at the end of a run: steps that lead from a state back to it, taken once or several times in a row.
#[derive(Clone, Copy, Debug)]
pub struct EndRound {
    /// After how many steps it begins first.
    pub begin: usize,
    /// How many steps it has.
    pub steps: usize,
    /// How often it is taken.
    pub times: usize,
}

/// What the last steps of a run are.
#[derive(Drop)]
pub enum LastSteps {
    /// A round.
    Round(EndRound),
    /// None: in these places the states before and after them differ.
    Differ(Vec<Change>),
}

/// What the last steps of a run are, so many of them; all if it has no more. If it says that they are a round, the state
/// in which that begins first is the state at the end. If it does not, all places are named in which the states before
/// and after these steps differ. Whether each step is of a stream that runs is not looked at.
pub fn last_steps<const S: usize>(
    alloc: Global,
    image: &Image,
    schedule: &[Step],
    size: usize,
) -> Result<LastSteps, LoadFault>
    ensures { IfOk result (λ last. IsSaidOfLast image.now schedule.now size last) }
{
    let begin = schedule.len().saturating_sub(size);
    let found = differences_at::<S>(alloc, image, schedule, begin)?;
    if !found.is_empty() {
        return Ok(LastSteps::Differ(found));
    }
    let round = EndRound {
        begin,
        steps: size,
        times: 1,
    };
    let open = repeated(schedule, size);
    Ok(LastSteps::Round(first_round::<S>(alloc, image, schedule, round, open)?))
}

/// The round that begins first, of those that are taken so often at most in a row up to the end. What begins in the state
/// of the end comes back each time, so the most times are found by halves.
fn first_round<const S: usize>(
    alloc: Global,
    image: &Image,
    schedule: &[Step],
    round: EndRound,
    most: usize,
) -> Result<EndRound, LoadFault>
    requires { ComesBack image.now schedule.now round.begin }
    ensures { IfOk result (λ r. ComesBack image.now schedule.now r.begin) }
{
    let mut found = round;
    let mut most = most;
    let mut tried = most;
    for _ in 0..usize::BITS {
        if found.times >= most {
            break;
        }
        let begin = schedule
            .len()
            .saturating_sub(found.steps.saturating_mul(tried));
        if is_back::<S>(alloc, image, schedule, begin)? {
            found.begin = begin;
            found.times = tried;
        } else {
            most = tried.saturating_sub(1);
        }
        tried = most.saturating_sub(most.saturating_sub(found.times) / 2);
    }
    Ok(found)
}

/// Whether the state after so many steps of a run is that at its end.
fn is_back<const S: usize>(
    alloc: Global,
    image: &Image,
    schedule: &[Step],
    begin: usize,
) -> Result<bool, LoadFault>
    ensures { IfOk result (λ back. IsTrue back → ComesBack image.now schedule.now begin) }
{
    let found = differences_at::<S>(alloc, image, schedule, begin)?;
    Ok(found.is_empty())
}

/// How often the last steps of a schedule, so many of them, stand at its end in a row.
fn repeated(schedule: &[Step], size: usize) -> usize {
    let before = schedule.len().saturating_sub(size);
    let mut same: usize = 0;
    for place in (0..before).rev() {
        if schedule.get(place) != schedule.get(place.saturating_add(size)) {
            break;
        }
        same = same.saturating_add(1);
    }
    match same.checked_div(size) {
        Some(more) => more.saturating_add(1),
        None => 1,
    }
}
