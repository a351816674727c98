//! The machine of an image before its first step.

ghost use Rattle.std.specs.Prelude.{◌≡◌, IfOk};
ghost use Rattle.machine.specs.Processor.World.{start};

use image_file::Image;
use machine::{LoadFault, Machine};
use std::alloc::{AllocError, Global};

/// The machine of an image that has room for its streams.
pub fn loaded<const S: usize>(alloc: Global, image: &Image) -> Result<Machine<'_, S>, AllocError>
    ensures { IfOk result (λ m. m ≡ record { image = image.entry.now; world = start image.entry.now }) }
{
    match Machine::load(alloc, image) {
        Ok(machine) => Ok(machine),
        Err(LoadFault::NoMemory | LoadFault::Streams) => Err(AllocError),
    }
}
