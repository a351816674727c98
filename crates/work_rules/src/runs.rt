//! The run of a schedule, and the first line about who does the work that it does not meet.

ghost use Rattle.std.specs.Prelude.{◌≡◌, ◌<◌, IfOk, Err};
ghost use Rattle.work_rules.specs.Runs.{first_missed_by};

use crate::judging::first_missed;
use crate::work_rule::WorkRule;
use image_file::Image;
use machine::{LoadFault, Machine};
use processor::Step;
use std::alloc::Global;
use whole_runs::run_actions;

/// The first of some lines, counted from 0, that the run of an image by a schedule does not meet; None where it meets all.
///
/// `Streams` only where the image's slim is above `S`.
pub fn first_missed_by<const S: usize>(
    alloc: Global,
    image: &Image,
    schedule: &[Step],
    rules: &[WorkRule],
) -> Result<Option<usize>, LoadFault>
    ensures missed { IfOk result (λ missed. missed ≡ first_missed_by image.now schedule.now rules.now) }
    ensures streams { result ≡ Err LoadFault.Streams → S < image.now.slim }
{
    let mut machine = Machine::<S>::load(alloc, image)?;
    let actions = run_actions(alloc, &mut machine, schedule)?;
    Ok(first_missed(&actions, rules))
}
