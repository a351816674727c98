//! Endless loops: terminal components of worlds, which no step leads out of, and in which it goes on forever.

ghost use Rattle.std.specs.Prelude.{◌≡◌, ◌<◌, [], length, slice_index, IfOk, OnOk, IsTrue, IsFalse, None, true};
ghost use Rattle.seed_verdicts.specs.ScheduleVerdicts.RightEnds.{may_loop};
ghost use Rattle.space_ends.specs.EndsOfSpace.{ends_in};
ghost use Rattle.space_ends.specs.Spinning.{are_spinning, spinning_in, AreSpinning};
ghost use Rattle.space_ends.specs.Shown.{shown_of, spinning_kind, IsSpinningSet, AreShownSo};
ghost use Rattle.space_ends.specs.Loops.{AreAllEnds};

use crate::cycles::cycle_of;
use crate::end_values::{SpaceEnd, SpaceEndKind};
use crate::every_end::new_end;
use crate::going::WorldSet;
use crate::spinning_lines::add_set;
use crate::spinning_sets::spinning_sets;
use changed_words::changed_words;
use end_kinds::EndKind;
use end_states::{EndState, trap_stops};
use expectations::Expectation;
use seed_verdicts::space::{Space, machine_at};
use seed_verdicts::verdicts::{are_traps_expected, may_loop};
use std::alloc::{AllocError, Global};

/// Adds the sets of worlds that no step leads out of, and in which each world leads to each other one, where no schedule
/// comes to an end from there; those of one line as one. Whether there is one to add, `can_end` of the space says
/// alone.
pub(crate) fn add_spinning<const S: usize>(
    alloc: Global,
    ends: &mut Vec<SpaceEnd>,
    expected: &[Expectation],
    space: &Space<'_>,
) -> Result<(), AllocError>
    ensures ends { OnOk result (ends_in ends.new.items ≡ ends_in ends.old.items) }
    ensures spinning { OnOk result (spinning_in ends.old.items ≡ []
        → AreSpinning space.now (spinning_in ends.new.items)) }
    ensures shown { OnOk result (AreShownSo space.now expected.now ends.old.items
        → AreShownSo space.now expected.now ends.new.items) }
    ensures kinds { OnOk result (AreAllEnds ends.old.items → AreAllEnds ends.new.items) }
{
    let can_end = space.can_end(alloc)?;
    let sets = spinning_sets(alloc, space, &can_end)?;
    for places in &sets {
        let set = spinning_set::<S>(alloc, expected, space, places)?;
        add_set(ends, set)?;
    }
    Ok(())
}

/// The worlds at these places as a set that spins, with a cycle from the first.
fn spinning_set<const S: usize>(
    alloc: Global,
    expected: &[Expectation],
    space: &Space<'_>,
    places: &[usize],
) -> Result<SpaceEnd, AllocError>
    ensures kind { IfOk result (λ e. are_spinning e.kind ≡ true) }
    ensures places { IfOk result (λ e. e.places.items ≡ places.now) }
    ensures set { IfOk result (λ e. 0 < length places.now → IsSpinningSet space.now expected.now (shown_of e)) }
{
    let first = first_of(places);
    let machine = machine_at::<S>(alloc, space, first)?;
    let state = EndState {
        stopped: trap_stops(alloc, &machine)?,
        waiting: Vec::new(alloc),
        changed: changed_words(alloc, &machine)?,
    };
    let known = WorldSet::over(alloc, space, &machine, places, expected)?;
    let mut end = new_end(alloc, space, first, spinning_kind(expected), state)?;
    end.missed = missed_by(known.missed, expected);
    end.is_trapped = !are_traps_expected(&machine, expected);
    end.cycle = cycle_of(alloc, space, &machine, first)?;
    end.changing = known.changing_words(alloc)?;
    end.going = known.going;
    end.places = places.to_vec(alloc)?;
    Ok(end)
}

/// The kind of such sets: the program may go on so, or not.
fn spinning_kind(expected: &[Expectation]) -> SpaceEndKind
    ensures is { result ≡ SpaceEndKind.End (spinning_kind expected.now) }
    ensures spins { are_spinning result ≡ true }
{
    if may_loop(expected) {
        SpaceEndKind::End(EndKind::Looping)
    } else {
        SpaceEndKind::End(EndKind::Spinning)
    }
}

/// The first expectation that such a set misses, where this one is missed by some of its worlds; None where the program may
/// go on so.
fn missed_by(known: Option<usize>, expected: &[Expectation]) -> Option<usize>
    ensures must_end { IsFalse (may_loop expected.now) → result ≡ known }
    ensures allowed { IsTrue (may_loop expected.now) → result ≡ None }
{
    if may_loop(expected) { None } else { known }
}

/// The first of some places; 0 if there is none.
fn first_of(places: &[usize]) -> usize
    ensures { 0 < length places.now → result ≡ slice_index places.now 0 }
{
    if places.is_empty() {
        return 0;
    }
    places[0]
}
