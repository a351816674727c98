//! Machines and sessions of images for whose streams there is room: only want of memory refuses them.
ghost use Rattle.std.specs.Prelude.{◌≡◌, ◌≢◌, ◌≤◌, IfOk};
ghost use Rattle.processor.specs.World.{start};
ghost use Rattle.replay_debugger.specs.Sessions.{session_at_start};

use image_file::Image;
use machine::{LoadFault, Machine};
use processor::Step;
use replay_debugger::Session;
use std::alloc::{AllocError, Global};

/// The image's machine, before any step.
pub(crate) fn loaded<'i, const S: usize>(
    alloc: Global,
    image: &'i Image,
) -> Result<Machine<'i, S>, AllocError>
    requires room { image.now.slim ≤ S }
    ensures { IfOk result (λ m. m ≡ record { image = image.entry.now; world = start image.entry.now }) }
{
    match Machine::load(alloc, image) {
        Ok(machine) => Ok(machine),
        Err(fault) => Err(no_memory(fault)),
    }
}

/// A session of the debugger over the image and a schedule, at its start.
pub(crate) fn begun<'i, const S: usize>(
    alloc: Global,
    image: &'i Image,
    schedule: Vec<Step>,
) -> Result<Session<'i, S>, AllocError>
    requires room { image.now.slim ≤ S }
    ensures { IfOk result (λ s. s ≡ session_at_start image.entry.now schedule.items) }
{
    match Session::begin(alloc, image, schedule) {
        Ok(session) => Ok(session),
        Err(fault) => Err(no_memory(fault.kind)),
    }
}

/// A fault of an image for whose streams there is room.
fn no_memory(fault: LoadFault) -> AllocError
    requires room { fault ≢ LoadFault.Streams }
{
    match fault {
        LoadFault::NoMemory => AllocError,
        LoadFault::Streams => unreachable!(),
    }
}
