//! At which places of a space a condition is to come.

ghost use Rattle.std.specs.Prelude.{◌≡◌, ◌<◌, ◌&&◌, Err, IfOk};
ghost use Rattle.starving_streams.specs.ScheduleSpace.Spaces.{count};
ghost use Rattle.starving_streams.specs.Claims.Holding.{form_holds};
ghost use Rattle.run_answers.specs.Marks.{AreConditionMarks, lacks};

use machine::{LoadFault, Machine};
use starving_streams::claims::LeadsTo;
use starving_streams::space::Space;
use std::alloc::Global;

/// At which places of a space a condition is to come, in the order of the places.
#[derive(Drop)]
pub(crate) struct ConditionMarks {
    /// Whether the condition that has to come does not hold.
    pub(crate) within: Vec<bool>,
    /// Whether the first condition holds there too.
    pub(crate) begins: Vec<bool>,
}

/// That by the worlds of a space.
pub(crate) fn condition_marks<const S: usize>(
    alloc: Global,
    space: &Space<'_>,
    asked: &LeadsTo,
) -> Result<ConditionMarks, LoadFault>
    ensures is { IfOk result (λ m. AreConditionMarks space.now asked.now (count space.now) m.within.items m.begins.items) }
    ensures streams { result ≡ Err LoadFault.Streams → S < space.now.image.slim }
{
    let mut within = Vec::new(alloc);
    let mut begins = Vec::new(alloc);
    for place in 0..space.len() {
        let machine = space.machine::<S>(alloc, place)?;
        let lacks = lacks(&machine, asked);
        within.push(lacks)?;
        begins.push(is_open(lacks, &machine, asked))?;
    }
    Ok(ConditionMarks { within, begins })
}

/// Whether the condition that has to come does not hold of the world of a machine.
fn lacks<const S: usize>(machine: &Machine<'_, S>, asked: &LeadsTo) -> bool
    ensures { result ≡ lacks asked.now machine.now.world }
{
    !asked.to.holds(machine)
}

/// Whether that is so, and the first condition holds.
fn is_open<const S: usize>(lacks: bool, machine: &Machine<'_, S>, asked: &LeadsTo) -> bool
    ensures { result ≡ (lacks && form_holds machine.now.world asked.now.from) }
{
    lacks && asked.from.holds(machine)
}
