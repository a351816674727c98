//! In what the state at a position of a run differs from that at its end.

ghost use Rattle.std.specs.Prelude.{◌≡◌, IfOk, take};
ghost use Rattle.processor.specs.World.{run};
ghost use Rattle.step_views.specs.Changes.{AreChanges};
ghost use Rattle.whole_runs.specs.FirstDifferences.{world_at};

use image_file::Image;
use machine::{LoadFault, Machine};
use processor::Step;
use std::alloc::Global;
use step_views::Change;
use whole_runs::world_differences;

/// All in which the state after so many steps of a run differs from that at its end, with what stands there in the one
/// and in the other.
pub(crate) fn differences_at<const S: usize>(
    alloc: Global,
    image: &Image,
    schedule: &[Step],
    position: usize,
) -> Result<Vec<Change>, LoadFault>
    ensures { IfOk result (λ v. AreChanges (world_at image.now schedule.now position)
        (run image.now schedule.now) v.items) }
{
    let mut one: Machine<'_, S> = Machine::load(alloc, image)?;
    one.run(first_steps(schedule, position));
    let mut other: Machine<'_, S> = Machine::load(alloc, image)?;
    other.run(schedule);
    Ok(world_differences(alloc, &one, &other)?)
}

/// The first steps of a schedule, so many of them; all if it has no more.
fn first_steps(schedule: &[Step], count: usize) -> &[Step]
    ensures { result.now ≡ take count schedule.now }
{
    schedule.split_at(count.min(schedule.len())).0
}
