//! The sets of places of a space from which no end can be reached.

ghost use Rattle.std.specs.Prelude.{◌≡◌, ◌↔◌, ◌<◌, List, Bool, length, IfOk, OnOk};
ghost use Rattle.std.specs.List.{All, list_all};
ghost use Rattle.space_ends.specs.Spinning.{IsUnmarked, SomeUnmarked};

use crate::links::links_of;
use seed_verdicts::space::Space;
use std::alloc::{AllocError, Global};
use terminal_components::terminal_roots;

/// The places of the worlds of each set that no step leads out of and from which no end can be reached, the sets in the
/// order of their first worlds. `can_end` says of the world at each place whether some schedule leads to an end.
pub(crate) fn spinning_sets(
    alloc: Global,
    space: &Space<'_>,
    can_end: &[bool],
) -> Result<Vec<Vec<usize>>, AllocError>
    ensures some { IfOk result (λ v. SomeUnmarked can_end.now → 0 < length v.items) }
    ensures only { IfOk result (λ v. 0 < length v.items → SomeUnmarked can_end.now) }
    ensures each { IfOk result (λ v. All (λ set. All (IsUnmarked can_end.now) set.items) v.items) }
    ensures filled { IfOk result (λ v. All (λ set. 0 < length set.items) v.items) }
{
    if can_all_end(can_end) {
        return Ok(Vec::new(alloc));
    }
    let links = links_of(alloc, space.edges())?;
    let roots = terminal_roots(alloc, space.len(), &links)?;
    let mut sets = places_of_sets(alloc, &roots, can_end)?;
    if !sets.is_empty() {
        return Ok(sets);
    }
    sets.push(places_without_end(alloc, can_end)?)?;
    Ok(sets)
}

/// Whether all of these say that an end can be reached.
fn can_all_end(can_end: &[bool]) -> bool
    ensures { result ≡ list_all (λ b. b) can_end.now }
{
    can_end.iter().all(|can| *can)
}

/// The places of each set from which no end can be reached, where the first place of each one's set is known.
fn places_of_sets(
    alloc: Global,
    roots: &[Option<usize>],
    can_end: &[bool],
) -> Result<Vec<Vec<usize>>, AllocError>
    ensures each { IfOk result (λ v. All (λ set. All (IsUnmarked can_end.now) set.items) v.items) }
    ensures filled { IfOk result (λ v. All (λ set. 0 < length set.items) v.items) }
{
    let mut rank_of = vec![in alloc; None; roots.len()]?;
    let mut sets = Vec::new(alloc);
    for place in 0..can_end.len() {
        let root = root_at(roots, place);
        add_if_unmarked(alloc, can_end, &mut rank_of, &mut sets, root, place)?;
    }
    Ok(sets)
}

/// Adds a place to the set with this first place, if no end can be reached from it.
fn add_if_unmarked(
    alloc: Global,
    can_end: &[bool],
    rank_of: &mut [Option<usize>],
    sets: &mut Vec<Vec<usize>>,
    root: Option<usize>,
    place: usize,
) -> Result<(), AllocError>
    requires { place < length can_end.now }
    ensures each { OnOk result (All (λ set. All (IsUnmarked can_end.now) set.items) sets.old.items
        → All (λ set. All (IsUnmarked can_end.now) set.items) sets.new.items) }
    ensures filled { OnOk result (All (λ set. 0 < length set.items) sets.old.items
        → All (λ set. 0 < length set.items) sets.new.items) }
{
    if can_end[place] {
        return Ok(());
    }
    add_rooted(alloc, rank_of, sets, root, place)?;
    Ok(())
}

/// The first place of the set in which a place is, if it is in one.
fn root_at(roots: &[Option<usize>], place: usize) -> Option<usize> {
    match roots.get(place) {
        Some(root) => *root,
        None => None,
    }
}

/// Adds a place to the set with this first place, if there is one; `rank_of` says which set that is.
fn add_rooted(
    alloc: Global,
    rank_of: &mut [Option<usize>],
    sets: &mut Vec<Vec<usize>>,
    root: Option<usize>,
    place: usize,
) -> Result<(), AllocError>
    ensures each { OnOk result ((marks : List Bool) → IsUnmarked marks place
        → All (λ set. All (IsUnmarked marks) set.items) sets.old.items
        → All (λ set. All (IsUnmarked marks) set.items) sets.new.items) }
    ensures filled { OnOk result (All (λ set. 0 < length set.items) sets.old.items
        → All (λ set. 0 < length set.items) sets.new.items) }
{
    let Some(root) = root else {
        return Ok(());
    };
    let Some(rank) = rank_of.get_mut(root) else {
        return Ok(());
    };
    let rank = *rank.get_or_insert(sets.len());
    add_to_set(alloc, sets, rank, place)
}

/// Adds a place to a set, the next one where there is none of that rank.
fn add_to_set(
    alloc: Global,
    sets: &mut Vec<Vec<usize>>,
    rank: usize,
    place: usize,
) -> Result<(), AllocError>
    ensures each { OnOk result ((marks : List Bool) → IsUnmarked marks place
        → All (λ set. All (IsUnmarked marks) set.items) sets.old.items
        → All (λ set. All (IsUnmarked marks) set.items) sets.new.items) }
    ensures filled { OnOk result (All (λ set. 0 < length set.items) sets.old.items
        → All (λ set. 0 < length set.items) sets.new.items) }
{
    if rank >= sets.len() {
        let mut places = Vec::new(alloc);
        places.push(place)?;
        sets.push(places)?;
        return Ok(());
    }
    let places = &mut sets[rank];
    places.push(place)?;
    Ok(())
}

/// The places from which no end can be reached.
fn places_without_end(alloc: Global, can_end: &[bool]) -> Result<Vec<usize>, AllocError>
    ensures each { IfOk result (λ v. All (IsUnmarked can_end.now) v.items) }
    ensures some { IfOk result (λ v. SomeUnmarked can_end.now → 0 < length v.items) }
{
    let mut places = Vec::new(alloc);
    for place in 0..can_end.len() {
        if !can_end[place] {
            places.push(place)?;
        }
    }
    Ok(places)
}
