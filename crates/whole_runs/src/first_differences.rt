//! The first position at which two runs differ.

ghost use Rattle.std.specs.Prelude.{◌≡◌, ◌<◌, ◌≤◌, ◌↔◌, length, take, Err, IfOk, MatchOption, IsTrue};
ghost use Rattle.whole_runs.specs.FirstDifferences.{AreAlike, IsFirstDifference};
ghost use Rattle.whole_runs.specs.SameWorlds.{machine_next};

use crate::differences::world_differences;
use crate::same_worlds::is_same_world;
use image_file::Image;
use machine::{LoadFault, Machine};
use processor::Step;
use std::alloc::Global;
use step_views::Change;

/// The first position at which the worlds of two runs of one image differ.
#[derive(Debug, Drop)]
pub struct Difference {
    /// The position: so many steps has each run taken, or all of its steps where it has fewer.
    pub position: usize,
    /// All places in which the worlds differ there, each once, with what stands there in the one and in the other.
    pub places: Vec<Change>,
}

/// The first position at which the worlds of the runs of an image by two schedules differ, and all places in which they
/// do there. None where they differ at no position: a run that has ended stays in its last world while the other goes on.
///
/// `Streams` exactly where the image's slim is above `S`.
pub fn first_difference<const S: usize>(
    alloc: Global,
    image: &Image,
    one: &[Step],
    other: &[Step],
) -> Result<Option<Difference>, LoadFault>
    ensures is { IfOk result (λ d. MatchOption d (AreAlike image.now one.now other.now)
        (IsFirstDifference image.now one.now other.now)) }
    ensures streams { (result ≡ Err LoadFault.Streams) ↔ (S < image.now.slim) }
{
    let mut first: Machine<'_, S> = Machine::load(alloc, image)?;
    let same = shared_steps(one, other);
    for place in 0..same {
        take_step_at(&mut first, one, place);
    }
    let mut second = first.try_clone()?;
    for index in same..one.len().max(other.len()) {
        take_both(&mut first, &mut second, one, other, index);
        if !is_same_world(&first, &second) {
            let places = world_differences(alloc, &first, &second)?;
            return Ok(Some(Difference {
                position: index + 1,
                places,
            }));
        }
    }
    Ok(None)
}

/// How many steps two schedules share from their beginnings on.
fn shared_steps(one: &[Step], other: &[Step]) -> usize
    ensures same { take result one.now ≡ take result other.now }
    ensures within { result ≤ length one.now }
{
    let both = one.len().min(other.len());
    for index in 0..both {
        if !is_same_step(one[index], other[index]) {
            return index;
        }
    }
    both
}

fn is_same_step(a: Step, b: Step) -> bool
    ensures { IsTrue result ↔ (a ≡ b) }
{
    a.p == b.p && a.s == b.s
}

/// Takes the step at a place of a schedule; none where the schedule has ended.
fn take_step_at<const S: usize>(machine: &mut Machine<'_, S>, schedule: &[Step], index: usize)
    ensures { machine.new ≡ machine_next machine.old schedule.now index }
{
    if let Some(step) = schedule.get(index) {
        machine.step(step.p, step.s);
    }
}

/// Takes the steps at a place of two schedules, each on its machine.
fn take_both<const S: usize>(
    first: &mut Machine<'_, S>,
    second: &mut Machine<'_, S>,
    one: &[Step],
    other: &[Step],
    index: usize,
)
    ensures one { first.new ≡ machine_next first.old one.now index }
    ensures other { second.new ≡ machine_next second.old other.now index }
{
    take_step_at(first, one, index);
    take_step_at(second, other, index);
}
