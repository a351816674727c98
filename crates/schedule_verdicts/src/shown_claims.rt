//! Whether some world shows a claim that has to hold of one at least.

ghost use Rattle.std.specs.Prelude.{◌≡◌, ◌<◌, ◌↔◌, IsTrue, IsFalse, IfSome, IfOk, None, Err};
ghost use Rattle.schedule_verdicts.specs.ShownClaims.{IsShownOnTheWay, IsUnshownOnTheWay, IsShown, AreShown};
ghost use Rattle.schedule_verdicts.specs.ShownClaims.{IsUnshownIn, IsUnshownAt, TellsOfClaims};

use crate::claim_marks::ClaimMarks;
use crate::marking::marks_of_shown;
use busy_streams::space::Space;
use claims::Claim;
use image_file::Image;
use machine::{LoadFault, Machine};
use processor::Step;
use std::alloc::Global;

/// The first of some claims, counted from 0, that no world of a space shows and none on the way through its beginning; None
/// where each is shown. Then each is shown by a schedule. Of a space that has all worlds, or that leaves out just steps at
/// which the claims do not look, this is so where each is.
///
/// `Streams` exactly where the image's slim is above `S`.
pub fn first_unshown<const S: usize>(
    alloc: Global,
    space: &Space<'_>,
    claims: &[Claim],
) -> Result<Option<usize>, LoadFault>
    ensures shown { IfOk result (λ told. told ≡ None → AreShown space.now.image space.now.begin claims.now) }
    ensures only { IfOk result (λ told. TellsOfClaims space.now claims.now
        → AreShown space.now.image space.now.begin claims.now → told ≡ None) }
    ensures unshown { IfOk result (λ told. IfSome told (λ k. IsUnshownAt space.now claims.now k)) }
    ensures streams { (result ≡ Err LoadFault.Streams) ↔ (S < space.now.image.slim) }
{
    // They say that it has a first world, and that what is live is all that may be read.
    let (_worlds, _live) = (space.len(), space.live());
    if usize::from(space.image().slim()) > S {
        return Err(LoadFault::Streams);
    }
    let marks = marks_of_shown::<S>(alloc, space, claims)?;
    for place in 0..marks.len() {
        if !is_shown::<S>(alloc, space, &marks[place])? {
            return Ok(Some(place));
        }
    }
    Ok(None)
}

/// Whether a world of a space shows a claim, or one on the way through its beginning.
fn is_shown<const S: usize>(
    alloc: Global,
    space: &Space<'_>,
    marks: &ClaimMarks<'_, '_>,
) -> Result<bool, LoadFault>
    requires { marks.now.space ≡ space.now }
    ensures shown { IfOk result (λ b. IsTrue b → IsShown space.now.image space.now.begin marks.now.claim) }
    ensures unshown { IfOk result (λ b. IsFalse b → IsUnshownIn space.now marks.now.claim) }
    ensures streams { (result ≡ Err LoadFault.Streams) ↔ (S < space.now.image.slim) }
{
    if is_shown_on_the_way::<S>(alloc, space.image(), space.begin(), marks.claim())? {
        return Ok(true);
    }
    for place in 0..space.len() {
        if marks.is_shown::<S>(alloc, place)? {
            return Ok(true);
        }
    }
    Ok(false)
}

/// Whether some world on the way through a schedule of an image shows a claim: the first one, or that after some step.
///
/// `Streams` exactly where the image's slim is above `S`.
pub fn is_shown_on_the_way<const S: usize>(
    alloc: Global,
    image: &Image,
    schedule: &[Step],
    claim: &Claim,
) -> Result<bool, LoadFault>
    ensures shown { IfOk result (λ b. IsTrue b → IsShownOnTheWay image.now schedule.now claim.now) }
    ensures unshown { IfOk result (λ b. IsFalse b → IsUnshownOnTheWay image.now schedule.now claim.now) }
    ensures streams { (result ≡ Err LoadFault.Streams) ↔ (S < image.now.slim) }
{
    let mut machine = Machine::<S>::load(alloc, image)?;
    for taken in 0..schedule.len() {
        if claim.is_shown(&machine) {
            return Ok(true);
        }
        let step = schedule[taken];
        machine.step(step.p, step.s);
    }
    Ok(claim.is_shown(&machine))
}
