//! Whether claims hold of all worlds of a space, or on the way through a schedule.

ghost use Rattle.std.specs.Prelude.{◌≡◌, ◌↔◌, ◌<◌, IsTrue, IfOk, Err};
ghost use Rattle.claims.specs.Holding.{holds};
ghost use Rattle.schedule_verdicts.specs.KeptClaims.{all_hold, IsKept, AreKept, AreKeptOnTheWay};

use crate::claim_marks::ClaimMarks;
use crate::marking::marks_of_kept;
use busy_streams::space::Space;
use claims::Claim;
use image_file::Image;
use machine::{LoadFault, Machine};
use processor::Step;
use std::alloc::Global;

/// Whether claims hold of each world of a space.
pub(crate) fn are_kept<const S: usize>(
    alloc: Global,
    space: &Space<'_>,
    claims: &[Claim],
) -> Result<bool, LoadFault>
    ensures kept { IfOk result (λ b. IsTrue b ↔ AreKept space.now claims.now) }
    ensures streams { result ≡ Err LoadFault.Streams → S < space.now.image.slim }
{
    let marks = marks_of_kept::<S>(alloc, space, claims)?;
    for number in 0..marks.len() {
        if !is_kept::<S>(alloc, space, &marks[number])? {
            return Ok(false);
        }
    }
    Ok(true)
}

/// Whether a claim holds of each world of a space.
fn is_kept<const S: usize>(
    alloc: Global,
    space: &Space<'_>,
    marks: &ClaimMarks<'_, '_>,
) -> Result<bool, LoadFault>
    requires { marks.now.space ≡ space.now }
    ensures kept { IfOk result (λ b. IsTrue b ↔ IsKept space.now marks.now.claim) }
    ensures streams { result ≡ Err LoadFault.Streams → S < space.now.image.slim }
{
    for place in 0..space.len() {
        if !marks.holds::<S>(alloc, place)? {
            return Ok(false);
        }
    }
    Ok(true)
}

/// Whether claims hold of each world on the way through a schedule of an image: of the first one, and of that after
/// each step.
///
/// `Streams` exactly where the image's slim is above `S`.
pub fn are_kept_on_the_way<const S: usize>(
    alloc: Global,
    image: &Image,
    schedule: &[Step],
    claims: &[Claim],
) -> Result<bool, LoadFault>
    ensures kept { IfOk result (λ b. IsTrue b ↔ AreKeptOnTheWay image.now schedule.now claims.now) }
    ensures streams { (result ≡ Err LoadFault.Streams) ↔ (S < image.now.slim) }
{
    let mut machine = Machine::<S>::load(alloc, image)?;
    for taken in 0..schedule.len() {
        if !all_hold(&machine, claims) {
            return Ok(false);
        }
        let step = schedule[taken];
        machine.step(step.p, step.s);
    }
    Ok(all_hold(&machine, claims))
}

/// Whether claims hold of the world of a machine.
fn all_hold<const S: usize>(machine: &Machine<'_, S>, claims: &[Claim]) -> bool
    ensures { result ≡ all_hold claims.now machine.now.world }
{
    claims.iter().all(
        |claim: &Claim| -> bool
            ensures { result ≡ holds machine.entry.now.world claim.now }
        { claim.holds(machine) },
    )
}
