//! Machines at the worlds of a space.

ghost use Rattle.std.specs.Prelude.{◌≡◌, IfOk};
ghost use Rattle.schedule_space.specs.Spaces.{schedule_of, machine_after};

use crate::spaces::Space;
use machine::{LoadFault, Machine};
use std::alloc::{AllocError, Global};

/// A machine with room for the image's streams, at the world at a place of a space; an error if the space has no such
/// place, the machine no such room, or memory is refused.
pub fn machine_at<'i, const S: usize>(
    alloc: Global,
    space: &Space<'i>,
    place: usize,
) -> Result<Machine<'i, S>, AllocError>
    ensures { IfOk result (λ m. m ≡ machine_after space.now.image (schedule_of space.now place)) }
{
    if place >= space.len() {
        return Err(AllocError);
    }
    match space.machine(alloc, place) {
        Ok(machine) => Ok(machine),
        Err(LoadFault::NoMemory | LoadFault::Streams) => Err(AllocError),
    }
}
