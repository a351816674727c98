//! Whether every schedule of an image comes to a right end.

ghost use Rattle.std.specs.Prelude.{◌≡◌, ◌↔◌, ◌<◌, ◌⊎◌, IsTrue, IsFalse, IfOk, Err, ℕ};
ghost use Rattle.busy_streams.specs.ScheduleSpace.Spaces.{count, world_of, IsComplete, HasAllEdges};
ghost use Rattle.busy_streams.specs.ScheduleSpace.Reaching.{CanEnd};
ghost use Rattle.busy_streams.specs.ScheduleSpace.Followed.{AllFollowed, HasAllEnds, TellsWhetherAllEnd};
ghost use Rattle.schedule_verdicts.specs.NamedRegisters.{AreNamed, IsOfRegistersAt, EndOfRegisters};
ghost use Rattle.schedule_verdicts.specs.RightEnds.{may_loop};
ghost use Rattle.schedule_verdicts.specs.RightSpaces.{IsRight, IsRightAt, EndRight, AllCanEnd, EndsRight, IsRightOnEachWay};
ghost use Rattle.schedule_verdicts.specs.RightSpaces.{IsFollowedForClaims};

use crate::expected_waits::may_loop;
use crate::kept_claims::are_kept;
use crate::right_ends::is_right_end;
use busy_streams::space::{Fate, Space};
use claims::Claim;
use expectations::Expectation;
use machine::LoadFault;
use std::alloc::{AllocError, Global};

/// Whether each end in a space is right, an end can be reached from each of its worlds unless the program may go on forever,
/// and the claims hold of each. Of a space that has all ends, and whose names are those of the registers that are expected
/// to hold something, this is so only where every schedule that ends ends right, and each can still come to an end wherever
/// it is, unless the program may go on forever; of one that has all worlds,
/// or that leaves out just steps at which the claims do not look, only where beside that the claims hold wherever a schedule
/// leads. Where all that is so it is true, of a space of either kind.
///
/// `Streams` exactly where the image's slim is above `S`.
pub fn is_right<const S: usize>(
    alloc: Global,
    space: &Space<'_>,
    expected: &[Expectation],
    claims: &[Claim],
) -> Result<bool, LoadFault>
    ensures sound { IfOk result (λ b. IsTrue b → IsRight space.now expected.now claims.now) }
    ensures plain { IfOk result (λ b. IsComplete space.now → HasAllEdges space.now
        → IsRight space.now expected.now claims.now → IsTrue b) }
    ensures followed { IfOk result (λ b. AllFollowed space.now → IsRight space.now expected.now claims.now → IsTrue b) }
    ensures ends { IfOk result (λ b. IsTrue b → AreNamed expected.now space.now.live.names → HasAllEnds space.now
        → TellsWhetherAllEnd space.now → EndsRight space.now.image space.now.begin expected.now) }
    ensures each_way { IfOk result (λ b. IsTrue b → IsComplete space.now
        → IsRightOnEachWay space.now.image space.now.begin expected.now claims.now) }
    ensures shown { IfOk result (λ b. IsTrue b → AreNamed expected.now space.now.live.names
        → IsFollowedForClaims space.now claims.now
        → IsRightOnEachWay space.now.image space.now.begin expected.now claims.now) }
    ensures only { IfOk result (λ b. (IsComplete space.now × HasAllEdges space.now) ⊎ AllFollowed space.now
        → IsRightOnEachWay space.now.image space.now.begin expected.now claims.now → IsTrue b) }
    ensures streams { (result ≡ Err LoadFault.Streams) ↔ (S < space.now.image.slim) }
{
    // They say that each place but the first was found from an earlier one, and that what is live is all that may be read.
    let (_worlds, _live) = (space.len(), space.live());
    if usize::from(space.image().slim()) > S {
        return Err(LoadFault::Streams);
    }
    if !ends_are_right::<S>(alloc, space, expected)? {
        return Ok(false);
    }
    if !comes_to_ends(alloc, space, expected)? {
        return Ok(false);
    }
    are_kept::<S>(alloc, space, claims)
}

/// Whether each end in a space is right.
fn ends_are_right<const S: usize>(
    alloc: Global,
    space: &Space<'_>,
    expected: &[Expectation],
) -> Result<bool, LoadFault>
    ensures are { IfOk result (λ b. IsTrue b ↔ EndRight space.now expected.now) }
    ensures registers { IfOk result (λ b. IsTrue b → EndOfRegisters space.now expected.now) }
    ensures streams { result ≡ Err LoadFault.Streams → S < space.now.image.slim }
{
    for place in 0..space.len() {
        if !is_right_at::<S>(alloc, space, place, expected)? {
            return Ok(false);
        }
    }
    Ok(true)
}

/// Whether the world at a place of a space is a right end, if it is an end.
fn is_right_at<const S: usize>(
    alloc: Global,
    space: &Space<'_>,
    place: usize,
    expected: &[Expectation],
) -> Result<bool, LoadFault>
    requires { place < count space.now }
    ensures is { IfOk result (λ b. IsTrue b ↔ IsRightAt space.now expected.now place) }
    ensures registers { IfOk result (λ b. IsTrue b → IsOfRegistersAt space.now expected.now place) }
    ensures streams { result ≡ Err LoadFault.Streams → S < space.now.image.slim }
{
    match space.fate(place) {
        Fate::GoesOn => Ok(true),
        Fate::Deadlock | Fate::Finished => {
            let machine = space.machine::<S>(alloc, place)?;
            Ok(is_right_end(&machine, expected))
        }
    }
}

/// Whether an end can be reached from each world of a space, or the program may go on forever.
fn comes_to_ends(
    alloc: Global,
    space: &Space<'_>,
    expected: &[Expectation],
) -> Result<bool, AllocError>
    ensures sound { IfOk result (λ b. IsTrue b → IsFalse (may_loop expected.now) → AllCanEnd space.now) }
    ensures plain { IfOk result (λ b. IsComplete space.now → HasAllEdges space.now
        → (IsFalse (may_loop expected.now) → AllCanEnd space.now) → IsTrue b) }
    ensures followed { IfOk result (λ b. AllFollowed space.now
        → (IsFalse (may_loop expected.now) → AllCanEnd space.now) → IsTrue b) }
{
    if may_loop(expected) {
        return Ok(true);
    }
    all_can_end(alloc, space)
}

/// Whether an end can be reached from each world of a space.
fn all_can_end(alloc: Global, space: &Space<'_>) -> Result<bool, AllocError>
    ensures sound { IfOk result (λ b. IsTrue b → AllCanEnd space.now) }
    ensures plain { IfOk result (λ b. IsComplete space.now → HasAllEdges space.now → AllCanEnd space.now → IsTrue b) }
    ensures followed { IfOk result (λ b. AllFollowed space.now → AllCanEnd space.now → IsTrue b) }
{
    let marks = space.can_end(alloc)?;
    for place in 0..marks.len() {
        if !marks[place] {
            return Ok(false);
        }
    }
    Ok(true)
}
