//! Where a claim is broken on the way through a schedule.

ghost use Rattle.std.specs.Prelude.{◌≡◌, ◌++◌, [], IfOk, OnOk};
ghost use Rattle.claims.specs.Breaks.{breaks_from, unless_so};

use crate::claim::Claim;
use machine::Machine;
use machine::processors::Step;
use std::alloc::{AllocError, Global};

impl Claim {
    /// After how many steps of a schedule it does not hold, from the world of a machine on and in this order. The world
    /// after the last step is not checked; the machine stands there in the end.
    pub fn breaks<const S: usize>(
        &self,
        alloc: Global,
        machine: &mut Machine<'_, S>,
        schedule: &[Step],
    ) -> Result<Vec<usize>, AllocError>
        ensures { IfOk result (λ v. v.items ≡ breaks_from self.now machine.old.image machine.old.world 0 schedule.now) }
    {
        let mut broken = Vec::new(alloc);
        for taken in 0..schedule.len() {
            push_unless(self.holds(machine), taken, &mut broken)?;
            let step = schedule[taken];
            machine.step(step.p, step.s);
        }
        Ok(broken)
    }
}

/// Adds a number, unless something holds.
fn push_unless(so: bool, number: usize, numbers: &mut Vec<usize>) -> Result<(), AllocError>
    ensures { OnOk result (numbers.new.items ≡ numbers.old.items ++ unless_so so number []) }
{
    if !so {
        numbers.push(number)?;
    }
    Ok(())
}
