//! Worlds that break claims, those of each claim as one end.

ghost use Rattle.std.specs.Prelude.{◌≡◌, ◌<◌, ◌++◌, List, IfOk, OnOk, length, map};
ghost use Rattle.expectations.specs.declared.expectation.Expectation.{Expectation};
ghost use Rattle.claims.specs.Holding.{holds};
ghost use Rattle.seed_verdicts.specs.ScheduleVerdicts.ClaimMarks.{marks_for};
ghost use Rattle.seed_verdicts.specs.ScheduleSpace.Spaces.{SpaceValue, count, world_of};
ghost use Rattle.space_ends.specs.BrokenClaims.{broken_places, broken_before, broken_end, broken_end_of, broken_ends, value_of};
ghost use Rattle.space_ends.specs.EndsOfSpace.{ends_in};
ghost use Rattle.space_ends.specs.Loops.{busy_in};
ghost use Rattle.space_ends.specs.Spinning.{spinning_in};
ghost use Rattle.space_ends.specs.Shown.{AreShownSo};

use crate::end_values::{SpaceEnd, SpaceEndKind};
use crate::every_end::new_end;
use claims::Claim;
use end_states::EndState;
use image_machines::loaded;
use machine::LoadFault;
use seed_verdicts::space::Space;
use seed_verdicts::verdicts::{ClaimMarks, marks_of_kept};
use std::alloc::{AllocError, Global};

/// Adds the worlds that break claims, those of each claim as one.
pub(crate) fn add_broken<const S: usize>(
    alloc: Global,
    ends: &mut Vec<SpaceEnd>,
    claims: &[Claim],
    space: &Space<'_>,
) -> Result<(), AllocError>
    ensures broken { OnOk result (map value_of ends.new.items ≡ map value_of ends.old.items
        ++ broken_ends space.now 0 claims.now) }
    ensures ends { OnOk result (ends_in ends.new.items ≡ ends_in ends.old.items) }
    ensures spinning { OnOk result (spinning_in ends.new.items ≡ spinning_in ends.old.items) }
    ensures busy { OnOk result (busy_in ends.new.items ≡ busy_in ends.old.items) }
    ensures shown { OnOk result ((v : SpaceValue) (expected : List Expectation)
        → AreShownSo v expected ends.old.items → AreShownSo v expected ends.new.items) }
{
    let marks = marks_in::<S>(alloc, space, claims)?;
    for index in 0..marks.len() {
        add_if_broken::<S>(alloc, ends, index, &marks[index])?;
    }
    Ok(())
}

/// Adds the worlds that break a claim, which stands at this place among all, as one end, if there are any.
fn add_if_broken<const S: usize>(
    alloc: Global,
    ends: &mut Vec<SpaceEnd>,
    index: usize,
    marks: &ClaimMarks<'_, '_>,
) -> Result<(), AllocError>
    ensures broken { OnOk result (map value_of ends.new.items ≡ map value_of ends.old.items
        ++ broken_end_of marks.now.space index marks.now.claim) }
    ensures ends { OnOk result (ends_in ends.new.items ≡ ends_in ends.old.items) }
    ensures spinning { OnOk result (spinning_in ends.new.items ≡ spinning_in ends.old.items) }
    ensures busy { OnOk result (busy_in ends.new.items ≡ busy_in ends.old.items) }
    ensures shown { OnOk result ((v : SpaceValue) (expected : List Expectation)
        → AreShownSo v expected ends.old.items → AreShownSo v expected ends.new.items) }
{
    let places = places_that_break::<S>(alloc, marks)?;
    let space = marks.space();
    let before = breaks_before::<S>(alloc, marks.claim(), space)?;
    if places.is_empty() && before.is_empty() {
        return Ok(());
    }
    ends.push(end_that_is_broken(alloc, space, index, places, &before)?)?;
    Ok(())
}

/// The end that these worlds of a space are, which break the claim at this place, and those after so many steps of the ones
/// that all its schedules begin with.
fn end_that_is_broken(
    alloc: Global,
    space: &Space<'_>,
    claim: usize,
    places: Vec<usize>,
    before: &[usize],
) -> Result<SpaceEnd, AllocError>
    ensures { IfOk result (λ e. value_of e ≡ broken_end claim places.items (length before.now)) }
{
    let first = places.first().copied().unwrap_or(0);
    let kind = SpaceEndKind::Broken { claim };
    let mut end = new_end(alloc, space, first, kind, EndState::empty(alloc))?;
    end.sets = places.len();
    end.places = places;
    end.before = before.len();
    if let Some(taken) = before.first() {
        end.schedule.truncate(*taken);
    }
    Ok(end)
}

/// After how many of the steps that all schedules of a space begin with a claim does not hold, and some are left.
fn breaks_before<const S: usize>(
    alloc: Global,
    claim: &Claim,
    space: &Space<'_>,
) -> Result<Vec<usize>, AllocError>
    ensures { IfOk result (λ v. v.items ≡ broken_before space.now claim.now) }
{
    let mut machine = loaded::<S>(alloc, space.image())?;
    claim.breaks(alloc, &mut machine, space.begin())
}

/// The places of the worlds of which a claim does not hold.
fn places_that_break<const S: usize>(
    alloc: Global,
    marks: &ClaimMarks<'_, '_>,
) -> Result<Vec<usize>, AllocError>
    ensures { IfOk result (λ v. v.items ≡ broken_places marks.now.space marks.now.claim) }
{
    let mut places = Vec::new(alloc);
    for place in 0..marks.space().len() {
        let holds = holds_at::<S>(alloc, marks, place)?;
        if !holds {
            places.push(place)?;
        }
    }
    Ok(places)
}

/// What is known of claims and the worlds of a space.
fn marks_in<'s, 'i, const S: usize>(
    alloc: Global,
    space: &'s Space<'i>,
    claims: &'s [Claim],
) -> Result<Vec<ClaimMarks<'s, 'i>>, AllocError>
    ensures { IfOk result (λ v. v.items ≡ map (marks_for space.entry.now) claims.entry.now) }
{
    match marks_of_kept::<S>(alloc, space, claims) {
        Ok(marks) => Ok(marks),
        Err(LoadFault::NoMemory | LoadFault::Streams) => Err(AllocError),
    }
}

/// Whether a claim holds of the world at a place.
fn holds_at<const S: usize>(
    alloc: Global,
    marks: &ClaimMarks<'_, '_>,
    place: usize,
) -> Result<bool, AllocError>
    requires { place < count marks.now.space }
    ensures { IfOk result (λ b. b ≡ holds (world_of marks.now.space place) marks.now.claim) }
{
    match marks.holds::<S>(alloc, place) {
        Ok(holds) => Ok(holds),
        Err(LoadFault::NoMemory | LoadFault::Streams) => Err(AllocError),
    }
}
