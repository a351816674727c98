//! Whether a run ends at which all may wait.

ghost use Rattle.std.specs.Prelude.{◌≡◌, ◌↔◌, IsTrue, IfOk};
ghost use Rattle.machine.specs.Processor.World.{run};
ghost use Rattle.waiting.specs.Stuck.{IsStandstill};
ghost use Rattle.space_ends.specs.ScheduleVerdicts.RightEnds.{AreWaitsExpected};

use expectation_files::Requirements;
use image_file::Image;
use image_machines::{by_room, loaded};
use processor::Step;
use space_ends::verdicts::are_waits_expected;
use std::alloc::{AllocError, Global};
use waiting::is_standstill;

/// Whether a run of an image by these steps ends with streams that run and can never go on, each of which may wait where it
/// stands, as is required: so it is no deadlock.
pub fn may_wait_at_end(
    alloc: Global,
    image: &Image,
    required: &Requirements,
    steps: &[Step],
) -> Result<bool, AllocError>
    ensures { IfOk result (λ b. IsTrue b ↔ IsStandstill image.now (run image.now steps.now)
        × AreWaitsExpected required.now.ends.items (run image.now steps.now)) }
{
    by_room!(image, may_wait_on(alloc, image, required, steps))
}

/// The same on a machine with room for `S` streams a processor.
fn may_wait_on<const S: usize>(
    alloc: Global,
    image: &Image,
    required: &Requirements,
    steps: &[Step],
) -> Result<bool, AllocError>
    ensures { IfOk result (λ b. IsTrue b ↔ IsStandstill image.now (run image.now steps.now)
        × AreWaitsExpected required.now.ends.items (run image.now steps.now)) }
{
    let mut machine = loaded::<S>(alloc, image)?;
    machine.run(steps);
    Ok(is_standstill(&machine) && are_waits_expected(&machine, required.ends()))
}
