//! One step of a running stream, unless nobody can go on.

ghost use Rattle.std.specs.Prelude.{◌≡◌, IsTrue, IfSome, IfNone, Contains};
ghost use Rattle.waiting.specs.Running.{running_steps};
ghost use Rattle.waiting.specs.Stuck.{IsStandstill};
ghost use Rattle.schedule_makers.specs.Advancing.{HasGone};

use crate::looking::{is_in_vain, is_same_run, look};
use crate::standstills::can_go_on;
use machine::Machine;
use processor::Step;

/// What a step of a running stream came to.
#[derive(Clone, Copy, Debug)]
pub(crate) struct Went {
    /// Whether it is known that some stream can go on.
    pub(crate) is_able: bool,
    /// Whether it is known that the same streams run as before.
    pub(crate) same_run: bool,
}

/// Takes a step of one of the running streams; None, with nothing changed, where nobody can go on. `is_able` says that
/// it is known that somebody can.
///
/// A standstill is looked for only after a step that left the world as it was: in a standstill each step does.
pub(crate) fn advance<const S: usize>(
    machine: &mut Machine<'_, S>,
    running: &[Step],
    step: Step,
    is_able: bool,
) -> Option<Went>
    requires listed { running.now ≡ running_steps machine.old.world }
    requires one { Contains running.now step }
    requires able { IsTrue is_able → ¬ IsStandstill machine.old.image machine.old.world }
    ensures none { IfNone result (IsStandstill machine.old.image machine.old.world × (machine.new ≡ machine.old)) }
    ensures some { IfSome result (λ went. HasGone machine.old machine.new step went) }
{
    let before = look(machine, step);
    let outcome = machine.step(step.p, step.s);
    let after = look(machine, step);
    if is_in_vain(outcome, before.retries, after.retries) {
        if !can_go_on(machine, running, is_able) {
            return None;
        }
        return Some(Went {
            is_able: true,
            same_run: true,
        });
    }
    Some(Went {
        is_able: false,
        same_run: is_same_run(&before, &after),
    })
}
