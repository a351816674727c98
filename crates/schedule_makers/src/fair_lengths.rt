//! How long the fair run of a machine is.

ghost use Rattle.std.specs.Prelude.{IfOk};
ghost use Rattle.schedule_makers.specs.FairLengths.{IsFairLength};

use crate::makers::fair;
use machine::Machine;
use std::alloc::{AllocError, Global};

/// How many steps of a fair run count at most.
const MOST_FAIR_STEPS: usize = 10_000;

/// How many steps the fair run of a machine has, 10,000 at most. The machine stays as it is.
pub fn fair_length<const S: usize>(
    alloc: Global,
    machine: &Machine<'_, S>,
) -> Result<usize, AllocError>
    ensures { IfOk result (λ n. IsFairLength machine.now n) }
{
    let mut other = machine.try_clone()?;
    let made = fair(alloc, &mut other, MOST_FAIR_STEPS)?;
    Ok(made.steps.len())
}
