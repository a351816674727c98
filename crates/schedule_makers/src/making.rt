//! A schedule made step by step.

ghost use Rattle.std.specs.Prelude.{◌≡◌, [], IsTrue, IfOk, OnErr};
ghost use Rattle.waiting.specs.Running.{running_steps};
ghost use Rattle.waiting.specs.Stuck.{IsStandstill};
ghost use Rattle.schedule_makers.specs.Made.{IsEnd, IsMade, HasStepped};
ghost use Rattle.schedule_makers.specs.Choosers.{rule_of, Follows};

use crate::advancing::advance;
use crate::chooser::Chooser;
use crate::made::{MadeEnd, MadeSchedule};
use crate::standstills::can_go_on;
use machine::Machine;
use processor::Step;
use std::alloc::{AllocError, Global};
use waiting::running_streams;

/// Takes steps of the streams that the chooser takes, until no stream runs, nobody can go on or so many were taken.
pub(crate) fn make<const S: usize>(
    alloc: Global,
    machine: &mut Machine<'_, S>,
    chooser: &mut Chooser,
    most: usize,
) -> Result<MadeSchedule, AllocError>
    requires { Follows chooser.old [] }
    ensures made { IfOk result (λ m. IsMade (rule_of chooser.old) machine.old machine.new most m.steps.items m.end) }
    ensures err { OnErr result (HasStepped machine.old machine.new) }
{
    let mut steps = Vec::new(alloc);
    let mut running = running_streams(alloc, machine)?;
    let mut is_able = false;
    for _ in 0..most {
        let Some(step) = chooser.choose(machine, &steps, &running) else {
            let end = MadeEnd::NobodyRuns;
            return Ok(MadeSchedule { steps, end });
        };
        let Some(went) = advance(machine, &running, step, is_able) else {
            let end = MadeEnd::Standstill;
            return Ok(MadeSchedule { steps, end });
        };
        steps.push(step)?;
        is_able = went.is_able;
        if !went.same_run {
            running = running_streams(alloc, machine)?;
        }
    }
    let end = last_end(machine, &running, is_able);
    Ok(MadeSchedule { steps, end })
}

/// Why a schedule ends that has as many steps as it may have. `is_able` says that it is known that somebody can go on.
fn last_end<const S: usize>(machine: &Machine<'_, S>, running: &[Step], is_able: bool) -> MadeEnd
    requires running { running.now ≡ running_steps machine.now.world }
    requires able { IsTrue is_able → ¬ IsStandstill machine.now.image machine.now.world }
    ensures { IsEnd machine.now.image machine.now.world result }
{
    if running.is_empty() {
        MadeEnd::NobodyRuns
    } else if can_go_on(machine, running, is_able) {
        MadeEnd::OutOfSteps
    } else {
        MadeEnd::Standstill
    }
}
