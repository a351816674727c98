//! Whether runs of seeds show claims that have to hold of one world at least.

ghost use Rattle.std.specs.Prelude.{◌≡◌, ◌<◌, ◌+◌, ◌%◌, ◌^◌, ◌↔◌, ℕ, IsTrue, IsFalse, IfOk, Err};
ghost use Rattle.seed_verdicts.specs.ShownBySeeds.{IsShownBySeed, IsUnshownBySeed, IsShownBySeeds, IsUnshownBefore};
ghost use Rattle.seed_verdicts.specs.ShownBySeeds.{IsToldOfClaims};

use crate::judging::fair_length_of;
use crate::run_flaw::Seeds;
use claims::Claim;
use image_file::Image;
use machine::{LoadFault, Machine};
use schedule_makers::seeded;
use schedule_verdicts::is_shown_on_the_way;
use std::alloc::Global;

/// The first of some claims, counted from 0, that the run of no seed shows in any world on its way, the start and the end
/// too; None where each is shown by the run of some seed. That none shows it says nothing of other schedules.
///
/// `Streams` exactly where the image's slim is above `S`.
pub fn first_unshown_by_seeds<const S: usize>(
    alloc: Global,
    image: &Image,
    claims: &[Claim],
    seeds: Seeds,
) -> Result<Option<usize>, LoadFault>
    ensures told { IfOk result (λ told. IsToldOfClaims image.now claims.now seeds told) }
    ensures streams { (result ≡ Err LoadFault.Streams) ↔ (S < image.now.slim) }
{
    let fair = fair_length_of::<S>(alloc, image)?;
    for place in 0..claims.len() {
        if !is_shown_by_seeds::<S>(alloc, image, fair, seeds, &claims[place])? {
            return Ok(Some(place));
        }
    }
    Ok(None)
}

/// Whether the run of some seed shows a claim.
fn is_shown_by_seeds<const S: usize>(
    alloc: Global,
    image: &Image,
    fair: usize,
    seeds: Seeds,
    claim: &Claim,
) -> Result<bool, LoadFault>
    ensures shown { IfOk result (λ b. IsTrue b → IsShownBySeeds image.now fair seeds claim.now) }
    ensures unshown { IfOk result (λ b. IsFalse b → IsUnshownBefore image.now fair seeds claim.now seeds.count) }
    ensures streams { result ≡ Err LoadFault.Streams → S < image.now.slim }
{
    for place in 0..seeds.count {
        let seed = seeds.first.wrapping_add(place as u64);
        if is_shown_by_seed::<S>(alloc, image, fair, seeds.most, seed, claim)? {
            return Ok(true);
        }
    }
    Ok(false)
}

/// Whether the run of a seed shows a claim.
fn is_shown_by_seed<const S: usize>(
    alloc: Global,
    image: &Image,
    fair: usize,
    most: usize,
    seed: u64,
    claim: &Claim,
) -> Result<bool, LoadFault>
    ensures shown { IfOk result (λ b. IsTrue b → IsShownBySeed image.now fair most seed claim.now) }
    ensures unshown { IfOk result (λ b. IsFalse b → IsUnshownBySeed image.now fair most seed claim.now) }
    ensures streams { result ≡ Err LoadFault.Streams → S < image.now.slim }
{
    let mut machine: Machine<'_, S> = Machine::load(alloc, image)?;
    let made = seeded(alloc, &mut machine, seed, fair, most)?;
    let is_shown = is_shown_on_the_way::<S>(alloc, image, &made.steps, claim)?;
    Ok(is_shown)
}
