//! At which places of a space a stream waits, and at which it is overtaken.

ghost use Rattle.std.specs.Prelude.{◌≡◌, ◌<◌, Err, IfOk};
ghost use Rattle.starving_streams.specs.ScheduleSpace.Spaces.{count};
ghost use Rattle.run_answers.specs.Waiting.{AreWaitingMarks};

use machine::LoadFault;
use starving_streams::claims::Overtaking;
use starving_streams::space::Space;
use std::alloc::Global;

/// At which places of a space a stream waits, and at which the condition holds that overtakes it, in the order of the places.
#[derive(Drop)]
pub(crate) struct WaitingMarks {
    /// Whether the stream waits.
    pub(crate) waits: Vec<bool>,
    /// Whether the other condition holds.
    pub(crate) inside: Vec<bool>,
}

/// That by the worlds of a space.
pub(crate) fn waiting_marks<const S: usize>(
    alloc: Global,
    space: &Space<'_>,
    asked: &Overtaking,
) -> Result<WaitingMarks, LoadFault>
    ensures is { IfOk result (λ m. AreWaitingMarks space.now asked.now (count space.now) m.waits.items m.inside.items) }
    ensures streams { result ≡ Err LoadFault.Streams → S < space.now.image.slim }
{
    let mut waits = Vec::new(alloc);
    let mut inside = Vec::new(alloc);
    for place in 0..space.len() {
        let machine = space.machine::<S>(alloc, place)?;
        waits.push(asked.waits.holds(&machine))?;
        inside.push(asked.inside.holds(&machine))?;
    }
    Ok(WaitingMarks { waits, inside })
}
