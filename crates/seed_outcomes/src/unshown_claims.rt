//! Claims that have to hold of one world at least, by the runs of seeds.

ghost use Rattle.std.specs.Prelude.{IfOk};
ghost use Rattle.space_ends.specs.SeedVerdicts.ShownBySeeds.{IsToldOfClaims};

use claims::Claim;
use image_file::Image;
use image_machines::by_room;
use machine::LoadFault;
use space_ends::seeds::{Seeds, first_unshown_by_seeds};
use std::alloc::{AllocError, Global};

/// The place of the first claim that has to hold of one world at least, and that the run of no seed shows.
pub fn unshown_by_seeds(
    alloc: Global,
    image: &Image,
    claims: &[Claim],
    seeds: Seeds,
) -> Result<Option<usize>, AllocError>
    ensures { IfOk result (λ told. IsToldOfClaims image.now claims.now seeds told) }
{
    let told = by_room!(image, first_unshown_by_seeds(alloc, image, claims, seeds));
    match told {
        Ok(told) => Ok(told),
        Err(LoadFault::NoMemory | LoadFault::Streams) => Err(AllocError),
    }
}
