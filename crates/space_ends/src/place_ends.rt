//! The ends that are places of a space, those of one line together.

ghost use Rattle.std.specs.Prelude.{◌≡◌, ℕ, ◌+◌, ◌<◌, [], ◌∷◌, length, map, slice_index_or, IfOk, IfSome, OnOk, IsTrue};
ghost use Rattle.seed_verdicts.specs.ScheduleSpace.Fates.{is_end};
ghost use Rattle.seed_verdicts.specs.ScheduleSpace.Spaces.{count, world_of, schedule_of};
ghost use Rattle.seed_verdicts.specs.ScheduleSpace.Reaching.{IsEnd};
ghost use Rattle.space_ends.specs.EndsOfSpace.{listed_of, ends_in, with_place, first_listed, AreEndsBefore, AreEndsOf, IsJudgedSo, IsOfEndLine};
ghost use Rattle.space_ends.specs.Spinning.{spinning_in};
ghost use Rattle.space_ends.specs.Loops.{AreAllEnds};
ghost use Rattle.space_ends.specs.Shown.{shown_of, shown_with, AreShownSo};

use crate::end_values::{SpaceEnd, SpaceEndKind};
use crate::every_end::new_end;
use end_states::{EndJudgement, JudgedEnd, are_same_states, judged_end};
use expectations::Expectation;
use seed_verdicts::space::{Fate, Space, machine_at};
use std::alloc::{AllocError, Global};

/// The ends that are places of a space, in the order of their first places: those that agree in kind, in what they show, and
/// in the first expectation that they miss, as one.
pub(crate) fn place_ends<const S: usize>(
    alloc: Global,
    expected: &[Expectation],
    space: &Space<'_>,
) -> Result<Vec<SpaceEnd>, AllocError>
    ensures ends { IfOk result (λ v. AreEndsOf space.now expected.now (ends_in v.items)) }
    ensures spinning { IfOk result (λ v. spinning_in v.items ≡ []) }
    ensures shown { IfOk result (λ v. AreShownSo space.now expected.now v.items) }
    ensures kinds { IfOk result (λ v. AreAllEnds v.items) }
{
    let mut ends = Vec::new(alloc);
    for place in 0..space.len() {
        if is_end(space.fate(place)) {
            add_place::<S>(alloc, &mut ends, expected, space, place)?;
        }
    }
    Ok(ends)
}

/// Whether nothing goes on from a world of this fate.
fn is_end(fate: Fate) -> bool
    ensures { result ≡ is_end fate }
{
    match fate {
        Fate::Finished | Fate::Deadlock => true,
        Fate::GoesOn => false,
    }
}

/// Adds the end at a place.
fn add_place<const S: usize>(
    alloc: Global,
    ends: &mut Vec<SpaceEnd>,
    expected: &[Expectation],
    space: &Space<'_>,
    place: usize,
) -> Result<(), AllocError>
    ensures ends { OnOk result (place < count space.now → IsEnd space.now.image (world_of space.now place)
        → AreEndsBefore space.now expected.now place (map listed_of ends.old.items)
        → AreEndsBefore space.now expected.now (place + 1) (map listed_of ends.new.items)) }
    ensures shown { OnOk result (place < count space.now → AreShownSo space.now expected.now ends.old.items
        → AreShownSo space.now expected.now ends.new.items) }
    ensures kinds { OnOk result (AreAllEnds ends.old.items → AreAllEnds ends.new.items) }
{
    let machine = machine_at::<S>(alloc, space, place)?;
    let judged = judged_end(alloc, &machine, expected)?;
    match index_of(ends, &judged) {
        Some(index) => {
            push_place(&mut ends[index], place)?;
            Ok(())
        }
        None => {
            ends.push(first_of_line(alloc, space, place, judged)?)?;
            Ok(())
        }
    }
}

/// Adds a place to an end of its line.
fn push_place(end: &mut SpaceEnd, place: usize) -> Result<(), AllocError>
    ensures listed { OnOk result (listed_of end.new ≡ with_place (listed_of end.old) place) }
    ensures shown { OnOk result (shown_of end.new ≡ shown_with (shown_of end.old) place) }
{
    end.sets = end.sets.saturating_add(1);
    end.places.push(place)?;
    Ok(())
}

/// The index of the end of whose line another one is.
fn index_of(ends: &[SpaceEnd], judged: &JudgedEnd) -> Option<usize>
    ensures { IfSome result (λ i. (i < length ends.now)
        × ((d : SpaceEnd) → IsOfEndLine (slice_index_or ends.now i d) judged.now.judgement judged.now.state)) }
{
    for (index, end) in ends.iter().enumerate() {
        if is_of_line(end, judged) {
            return Some(index);
        }
    }
    None
}

/// Whether an end that was judged is of the same line as a listed one.
fn is_of_line(end: &SpaceEnd, judged: &JudgedEnd) -> bool
    ensures { IsTrue result → IsOfEndLine end.now judged.now.judgement judged.now.state }
{
    is_judged_so(end, judged.judgement) && are_same_states(&end.state, &judged.state)
}

/// Whether a listed end is judged so.
fn is_judged_so(end: &SpaceEnd, judgement: EndJudgement) -> bool
    ensures { IsTrue result → IsJudgedSo (listed_of end.now) judgement }
{
    end.kind.is_end_of(judgement.kind)
        && end.missed == judgement.missed
        && end.is_trapped == judgement.is_trapped
}

/// The end at a place, the first of its line.
fn first_of_line(
    alloc: Global,
    space: &Space<'_>,
    place: usize,
    judged: JudgedEnd,
) -> Result<SpaceEnd, AllocError>
    ensures listed { IfOk result (λ e. place < count space.now
        → listed_of e ≡ first_listed judged.judgement place (schedule_of space.now place)) }
    ensures kind { IfOk result (λ e. e.kind ≡ SpaceEndKind.End judged.judgement.kind) }
    ensures state { IfOk result (λ e. e.state ≡ judged.state) }
    ensures places { IfOk result (λ e. e.places.items ≡ place ∷ []) }
{
    let JudgedEnd { judgement, state } = judged;
    let kind = SpaceEndKind::End(judgement.kind);
    let mut end = new_end(alloc, space, place, kind, state)?;
    end.missed = judgement.missed;
    end.is_trapped = judgement.is_trapped;
    Ok(end)
}
