//! Sets of worlds that spin, those of one line together.

ghost use Rattle.std.specs.Prelude.{◌≡◌, ◌<◌, ◌++◌, List, Bool, true, length, slice_index_or, IfSome, IsTrue, OnOk};
ghost use Rattle.std.specs.List.{All};
ghost use Rattle.expectations.specs.declared.expectation.Expectation.{Expectation};
ghost use Rattle.seed_verdicts.specs.ScheduleSpace.Spaces.{SpaceValue};
ghost use Rattle.space_ends.specs.EndsOfSpace.{ends_in};
ghost use Rattle.space_ends.specs.Spinning.{are_spinning, spinning_in, IsUnmarked, AreUnmarked};
ghost use Rattle.space_ends.specs.Shown.{shown_of, IsSpinningSet, AreShownSo, IsOfLine};
ghost use Rattle.space_ends.specs.Loops.{AreAllEnds};

use crate::end_values::SpaceEnd;
use end_states::are_same_states;
use std::alloc::AllocError;

/// Adds a set of worlds, to the end of whose line it is.
pub(crate) fn add_set(ends: &mut Vec<SpaceEnd>, set: SpaceEnd) -> Result<(), AllocError>
    ensures ends { OnOk result (are_spinning set.kind ≡ true → ends_in ends.new.items ≡ ends_in ends.old.items) }
    ensures some { OnOk result (are_spinning set.kind ≡ true → 0 < length (spinning_in ends.new.items)) }
    ensures each { OnOk result (are_spinning set.kind ≡ true → (marks : List Bool) → All (IsUnmarked marks) set.places.items
        → AreUnmarked marks (spinning_in ends.old.items) → AreUnmarked marks (spinning_in ends.new.items)) }
    ensures shown { OnOk result (are_spinning set.kind ≡ true → (v : SpaceValue) (expected : List Expectation)
        → IsSpinningSet v expected (shown_of set) → AreShownSo v expected ends.old.items → AreShownSo v expected ends.new.items) }
    ensures kinds { OnOk result (are_spinning set.kind ≡ true → AreAllEnds ends.old.items → AreAllEnds ends.new.items) }
{
    match line_of(ends, &set) {
        Some(index) => {
            extend_by(&mut ends[index], &set)?;
            Ok(())
        }
        None => {
            ends.push(set)?;
            Ok(())
        }
    }
}

/// Adds the worlds of a set to an end of its line.
fn extend_by(end: &mut SpaceEnd, set: &SpaceEnd) -> Result<(), AllocError>
    ensures kind { OnOk result (end.new.kind ≡ end.old.kind) }
    ensures places { OnOk result (end.new.places.items ≡ end.old.places.items ++ set.now.places.items) }
    ensures set { OnOk result (shown_of end.new
        ≡ record (shown_of end.old) { places = end.old.places.items ++ set.now.places.items }) }
{
    end.sets = end.sets.saturating_add(1);
    end.places.extend_from_slice(&set.places)?;
    Ok(())
}

/// The index of the end of whose line a set is.
fn line_of(ends: &[SpaceEnd], set: &SpaceEnd) -> Option<usize>
    ensures { IfSome result (λ i. (i < length ends.now)
        × ((d : SpaceEnd) → IsOfLine (slice_index_or ends.now i d) set.now.kind set.now.missed)) }
{
    for (index, end) in ends.iter().enumerate() {
        if is_of_line(end, set) {
            return Some(index);
        }
    }
    None
}

/// Whether a set that spins is of the same line as a listed end.
fn is_of_line(end: &SpaceEnd, set: &SpaceEnd) -> bool
    ensures { IsTrue result → IsOfLine end.now set.now.kind set.now.missed }
{
    end.kind == set.kind
        && end.missed == set.missed
        && end.is_trapped == set.is_trapped
        && are_same_states(&end.state, &set.state)
        && end.going == set.going
        && end.changing == set.changing
}
