//! Where a claim is broken first on the way through a schedule.

ghost use Rattle.std.specs.Prelude.{◌≡◌, ◌<◌, not, MatchOption, IfOk, Err};
ghost use Rattle.claims.specs.Holding.{holds};
ghost use Rattle.schedule_verdicts.specs.KeptClaims.{AreKeptOnTheWay};
ghost use Rattle.seed_verdicts.specs.RunFlaws.{first_unkept, IsFirstBroken};

use claims::Claim;
use image_file::Image;
use machine::{LoadFault, Machine};
use processor::Step;
use std::alloc::Global;

/// Where a claim is broken first.
#[derive(Clone, Copy, Debug)]
pub struct Broken {
    /// After how many steps.
    pub taken: usize,
    /// The place of the first claim that does not hold then.
    pub claim: usize,
}

/// The first claim that is broken on the way through a schedule of an image: the first one that does not hold of the
/// first world of which some claim does not. The start and the end are on the way. Nothing after that world is checked.
///
/// `Streams` only where the image's slim is above `S`.
pub fn first_broken<const S: usize>(
    alloc: Global,
    image: &Image,
    schedule: &[Step],
    claims: &[Claim],
) -> Result<Option<Broken>, LoadFault>
    ensures told { IfOk result (λ told. MatchOption told (AreKeptOnTheWay image.now schedule.now claims.now)
        (λ b. IsFirstBroken image.now schedule.now claims.now b.taken b.claim)) }
    ensures streams { result ≡ Err LoadFault.Streams → S < image.now.slim }
{
    let mut machine = Machine::<S>::load(alloc, image)?;
    for taken in 0..schedule.len() {
        if let Some(claim) = first_unkept(&machine, claims) {
            return Ok(Some(Broken { taken, claim }));
        }
        let step = schedule[taken];
        machine.step(step.p, step.s);
    }
    match first_unkept(&machine, claims) {
        Some(claim) => Ok(Some(Broken {
            taken: schedule.len(),
            claim,
        })),
        None => Ok(None),
    }
}

/// The first of some claims that does not hold of the world of a machine, counted from 0.
fn first_unkept<const S: usize>(machine: &Machine<'_, S>, claims: &[Claim]) -> Option<usize>
    ensures { result ≡ first_unkept claims.now machine.now.world }
{
    claims.iter().position(
        |claim: &Claim| -> bool
            ensures { result ≡ not (holds machine.entry.now.world claim.now) }
        { !claim.holds(machine) },
    )
}
