//! How it goes on from a world.

ghost use Rattle.schedule_space.specs.Fates.{IsFate};

use machine::Machine;
use waiting::{is_standstill, some_run};

/// How it goes on from a world.
#[derive(Clone, Copy, Debug, PartialEq, Eq)]
pub enum Fate {
    /// No stream runs, so it does not.
    Finished,
    /// Some stream runs, and the step of each that runs is Blocked and leaves the world as it is: a standstill.
    Deadlock,
    /// Neither: some stream runs that is not stuck.
    GoesOn,
}

/// How it goes on from the world of a machine.
pub(crate) fn fate_of<const S: usize>(machine: &Machine<'_, S>) -> Fate
    ensures { IsFate machine.now.image machine.now.world result }
{
    if !some_run(machine) {
        return Fate::Finished;
    }
    if is_standstill(machine) {
        return Fate::Deadlock;
    }
    Fate::GoesOn
}
