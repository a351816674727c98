//! Whether nobody can go on, where it is known which streams run.

ghost use Rattle.std.specs.Prelude.{◌≡◌, ◌↔◌, false, IsTrue, All};
ghost use Rattle.waiting.specs.Running.{running_steps};
ghost use Rattle.waiting.specs.Stuck.{IsStuck, SomeRuns, IsStandstill};

use machine::Machine;
use processor::Step;
use waiting::is_stuck;

/// Whether some of the streams that run can go on. `is_able` says that this is known.
pub(crate) fn can_go_on<const S: usize>(
    machine: &Machine<'_, S>,
    running: &[Step],
    is_able: bool,
) -> bool
    requires listed { running.now ≡ running_steps machine.now.world }
    requires some { SomeRuns machine.now.world }
    requires able { IsTrue is_able → ¬ IsStandstill machine.now.image machine.now.world }
    ensures yes { IsTrue result → ¬ IsStandstill machine.now.image machine.now.world }
    ensures otherwise { result ≡ false → IsStandstill machine.now.image machine.now.world }
{
    if is_able {
        return true;
    }
    !are_all_stuck(machine, running)
}

/// Whether each of these streams runs and can't go on while nobody else does.
fn are_all_stuck<const S: usize>(machine: &Machine<'_, S>, steps: &[Step]) -> bool
    ensures { IsTrue result ↔ All (IsStuck machine.now.image machine.now.world) steps.now }
{
    for step in steps {
        if !is_stuck(machine, step.p, step.s) {
            return false;
        }
    }
    true
}
