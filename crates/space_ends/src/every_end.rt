//! The ends of a space.

ghost use Rattle.std.specs.Prelude.{◌≡◌, ◌<◌, [], ◌∷◌, List, IfOk, OnOk, IsTrue, IsFalse, MatchOption, map};
ghost use Rattle.expectations.specs.declared.expectation.Expectation.{Expectation};
ghost use Rattle.seed_verdicts.specs.ScheduleSpace.Spaces.{SpaceValue, count, schedule_of};
ghost use Rattle.space_ends.specs.BrokenClaims.{value_of, HasBrokenEnds};
ghost use Rattle.space_ends.specs.FirstBroken.{IsBrokenClaim, IsBrokenAs, AreBrokenSo};
ghost use Rattle.space_ends.specs.Loops.{looping_of, busy_in, loop_of, AreAllEnds};
ghost use Rattle.space_ends.specs.EndsOfSpace.{listed_of, listed_at, ends_in, AreEndsOf};
ghost use Rattle.space_ends.specs.Spinning.{spinning_in, AreSpinning};
ghost use Rattle.space_ends.specs.Shown.{shown_of, AreShownSo};

use crate::broken_claims::add_broken;
use crate::busy_ends::busy_end;
use crate::end_values::{SpaceEnd, SpaceEndKind};
use crate::place_ends::place_ends;
use crate::sources::sources_of;
use crate::spinning::add_spinning;
use claims::Claim;
use end_states::EndState;
use expectations::Expectation;
use image_file::Image;
use machine::LoadFault;
use processor::Step;
use seed_verdicts::busy::Busy;
use seed_verdicts::first_broken;
use seed_verdicts::space::Space;
use std::alloc::{AllocError, Global};

/// What the ends of a space are judged by.
#[derive(Clone, Copy)]
pub struct JudgedBy<'a> {
    /// What is expected of an end.
    pub expected: &'a [Expectation],
    /// What is claimed of all worlds, or of one at least.
    pub claims: &'a [Claim],
}

/// The ends of a space in the order of their shortest schedules; then, where the space is complete, the sets of worlds that
/// spin; then the first world from which a stream loops alone, where one is given; then the worlds that break claims, those
/// of each claim as one, also those on the way through the steps that all its schedules begin with.
pub fn space_ends<const S: usize>(
    alloc: Global,
    judged_by: JudgedBy<'_>,
    space: &Space<'_>,
    is_complete: bool,
    busy: Option<Busy>,
) -> Result<Vec<SpaceEnd>, AllocError>
    ensures ends { IfOk result (λ ends. AreEndsOf space.now judged_by.entry.expected.now (ends_in ends.items)) }
    ensures spinning { IfOk result (λ ends. IsTrue is_complete → AreSpinning space.now (spinning_in ends.items)) }
    ensures unknown { IfOk result (λ ends. IsFalse is_complete → spinning_in ends.items ≡ []) }
    ensures shown { IfOk result (λ ends. AreShownSo space.now judged_by.entry.expected.now ends.items) }
    ensures broken { IfOk result (λ ends. HasBrokenEnds space.now judged_by.entry.claims.now (map value_of ends.items)) }
    ensures first_broken { IfOk result (λ ends. AreBrokenSo space.now judged_by.entry.claims.now ends.items) }
    ensures busy { IfOk result (λ ends. MatchOption busy (busy_in ends.items ≡ []) (λ b. b.place < count space.now
        → busy_in ends.items ≡ loop_of space.now b.place b.stream b.steps ∷ [])) }
{
    let mut ends = unbroken_ends::<S>(alloc, judged_by.expected, space, is_complete)?;
    add_busy(alloc, &mut ends, space, busy)?;
    add_broken::<S>(alloc, &mut ends, judged_by.claims, space)?;
    add_more::<S>(alloc, &mut ends, judged_by.claims, space)?;
    Ok(ends)
}

/// The ends that are places of a space, and where the space is complete, the sets of worlds that spin.
fn unbroken_ends<const S: usize>(
    alloc: Global,
    expected: &[Expectation],
    space: &Space<'_>,
    is_complete: bool,
) -> Result<Vec<SpaceEnd>, AllocError>
    ensures ends { IfOk result (λ ends. AreEndsOf space.now expected.now (ends_in ends.items)) }
    ensures spinning { IfOk result (λ ends. IsTrue is_complete → AreSpinning space.now (spinning_in ends.items)) }
    ensures unknown { IfOk result (λ ends. IsFalse is_complete → spinning_in ends.items ≡ []) }
    ensures shown { IfOk result (λ ends. AreShownSo space.now expected.now ends.items) }
    ensures kinds { IfOk result (λ ends. AreAllEnds ends.items) }
{
    let mut ends = place_ends::<S>(alloc, expected, space)?;
    if !is_complete {
        return Ok(ends);
    }
    add_spinning::<S>(alloc, &mut ends, expected, space)?;
    Ok(ends)
}

/// Adds the world from which a stream loops alone, if one is given.
fn add_busy(
    alloc: Global,
    ends: &mut Vec<SpaceEnd>,
    space: &Space<'_>,
    busy: Option<Busy>,
) -> Result<(), AllocError>
    ensures ends { OnOk result (ends_in ends.new.items ≡ ends_in ends.old.items) }
    ensures spinning { OnOk result (spinning_in ends.new.items ≡ spinning_in ends.old.items) }
    ensures shown { OnOk result ((v : SpaceValue) (expected : List Expectation)
        → AreShownSo v expected ends.old.items → AreShownSo v expected ends.new.items) }
    ensures busy { OnOk result (AreAllEnds ends.old.items → MatchOption busy (busy_in ends.new.items ≡ [])
        (λ b. b.place < count space.now
        → busy_in ends.new.items ≡ loop_of space.now b.place b.stream b.steps ∷ [])) }
{
    match busy {
        Some(busy) => {
            ends.push(busy_end(alloc, space, busy)?)?;
            Ok(())
        }
        None => Ok(()),
    }
}

/// Writes to each end from how many worlds some schedule leads there, and the claim that it names as broken.
fn add_more<const S: usize>(
    alloc: Global,
    ends: &mut [SpaceEnd],
    claims: &[Claim],
    space: &Space<'_>,
) -> Result<(), AllocError>
    ensures values { OnOk result (map value_of ends.new ≡ map value_of ends.old) }
    ensures listed { OnOk result (map listed_of ends.new ≡ map listed_of ends.old) }
    ensures shown { OnOk result (map shown_of ends.new ≡ map shown_of ends.old) }
    ensures looping { OnOk result (map looping_of ends.new ≡ map looping_of ends.old) }
    ensures first_broken { OnOk result (AreBrokenSo space.now claims.now ends.new) }
{
    let sources = sources_of(alloc, space, ends)?;
    for (index, end) in ends.iter_mut().enumerate() {
        end.sources = sources.get(index).copied().unwrap_or(0);
        end.broken = broken_on_way::<S>(alloc, space, end, claims)?;
    }
    Ok(())
}

/// The place of the claim that an end names as broken: the first one that is on the way through its schedule; of worlds that
/// break one, that one; None where a stream loops alone.
fn broken_on_way<const S: usize>(
    alloc: Global,
    space: &Space<'_>,
    end: &SpaceEnd,
    claims: &[Claim],
) -> Result<Option<usize>, AllocError>
    ensures { IfOk result (λ broken. IsBrokenAs space.now.image claims.now end.now.kind end.now.schedule.items broken) }
{
    match end.kind {
        SpaceEndKind::End(_) => broken_by::<S>(alloc, space.image(), &end.schedule, claims),
        SpaceEndKind::Broken { claim } => Ok(Some(claim)),
        SpaceEndKind::Busy => Ok(None),
    }
}

/// The place of the first claim that is broken on the way through a schedule.
fn broken_by<const S: usize>(
    alloc: Global,
    image: &Image,
    schedule: &[Step],
    claims: &[Claim],
) -> Result<Option<usize>, AllocError>
    ensures { IfOk result (λ broken. IsBrokenClaim image.now schedule.now claims.now broken) }
{
    if claims.is_empty() {
        return Ok(None);
    }
    match first_broken::<S>(alloc, image, schedule, claims) {
        Ok(Some(broken)) => Ok(Some(broken.claim)),
        Ok(None) => Ok(None),
        Err(LoadFault::NoMemory | LoadFault::Streams) => Err(AllocError),
    }
}

/// An end of this kind, of which this is the first world, and which shows this.
pub(crate) fn new_end(
    alloc: Global,
    space: &Space<'_>,
    place: usize,
    kind: SpaceEndKind,
    state: EndState,
) -> Result<SpaceEnd, AllocError>
    ensures kind { IfOk result (λ e. e.kind ≡ kind) }
    ensures state { IfOk result (λ e. e.state ≡ state) }
    ensures places { IfOk result (λ e. e.places.items ≡ place ∷ []) }
    ensures listed { IfOk result (λ e. place < count space.now
        → listed_of e ≡ listed_at kind place (schedule_of space.now place)) }
{
    let mut places = Vec::new(alloc);
    places.push(place)?;
    let schedule = schedule_to(alloc, space, place)?;
    Ok(SpaceEnd {
        kind,
        missed: None,
        broken: None,
        is_trapped: false,
        state,
        places,
        before: 0,
        sets: 1,
        sources: 0,
        schedule,
        cycle: Vec::new(alloc),
        going: Vec::new(alloc),
        changing: Vec::new(alloc),
    })
}

/// The schedule that leads to the world at a place, empty if there is none.
fn schedule_to(alloc: Global, space: &Space<'_>, place: usize) -> Result<Vec<Step>, AllocError>
    ensures { IfOk result (λ v. place < count space.now → v.items ≡ schedule_of space.now place) }
{
    if place < space.len() {
        space.schedule(alloc, place)
    } else {
        Ok(Vec::new(alloc))
    }
}
