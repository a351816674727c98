//! What is wrong with the end of a run.

ghost use Rattle.schedule_makers.specs.Made.{IsEnd as IsMadeEnd};
ghost use Rattle.schedule_verdicts.specs.RightEnds.{AreTrapsExpected};
ghost use Rattle.schedule_verdicts.specs.ScheduleSpace.Reaching.{IsEnd};
ghost use Rattle.seed_verdicts.specs.EndFlaws.{EndTold};

use crate::run_flaw::RunFlaw;
use expectations::{Expectation, first_missed};
use machine::Machine;
use schedule_makers::MadeEnd;
use schedule_verdicts::{are_traps_expected, are_waits_expected};

/// What the end of a run shows: a trap that nobody expected, a deadlock, an expectation that it misses. The run ended
/// there for this reason.
pub(crate) fn end_flaw<const S: usize>(
    machine: &Machine<'_, S>,
    end: MadeEnd,
    expected: &[Expectation],
) -> Option<RunFlaw>
    requires { IsMadeEnd machine.now.image machine.now.world end }
    ensures { EndTold machine.now.image machine.now.world expected.now result }
{
    if !are_traps_expected(machine, expected) {
        return Some(RunFlaw::Trap);
    }
    match end {
        MadeEnd::OutOfSteps => None,
        MadeEnd::NobodyRuns | MadeEnd::Standstill => standing_flaw(machine, expected),
    }
}

/// What an end shows from which nothing goes on, and at which each trap is expected: a deadlock, or an expectation that it
/// misses.
fn standing_flaw<const S: usize>(
    machine: &Machine<'_, S>,
    expected: &[Expectation],
) -> Option<RunFlaw>
    ensures { IsEnd machine.now.image machine.now.world → AreTrapsExpected expected.now machine.now.world
        → EndTold machine.now.image machine.now.world expected.now result }
{
    if !are_waits_expected(machine, expected) {
        return Some(RunFlaw::Deadlock);
    }
    match first_missed(machine, expected) {
        Some(expectation) => Some(RunFlaw::Missed { expectation }),
        None => None,
    }
}
