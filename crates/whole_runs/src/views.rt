//! The views of the steps of a run.

ghost use Rattle.std.specs.Prelude.{◌≡◌, IfOk, OnOk};
ghost use Rattle.processor.specs.World.{steps};
ghost use Rattle.whole_runs.specs.RunViews.{AreViews};

use machine::Machine;
use processor::Step;
use std::alloc::{AllocError, Global};
use step_views::{StepView, take_step};

/// Takes the steps of a schedule from whatever state the machine has reached, and reports what each of them did: the
/// views are those of the steps, one each in their order, and none is left out.
pub fn run_views<const S: usize>(
    alloc: Global,
    machine: &mut Machine<'_, S>,
    schedule: &[Step],
) -> Result<Vec<StepView>, AllocError>
    ensures views { IfOk result (λ views. AreViews machine.old.image machine.old.world schedule.now views.items) }
    ensures world { OnOk result (machine.new
        ≡ record machine.old { world = steps machine.old.image machine.old.world schedule.now }) }
{
    let mut views = Vec::with_capacity(alloc, schedule.len())?;
    for step in schedule {
        let view = take_step(alloc, machine, *step)?;
        views.push(view)?;
    }
    Ok(views)
}
