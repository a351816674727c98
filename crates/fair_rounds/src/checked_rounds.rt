//! Whether some edges are a fair round.

ghost use Rattle.std.specs.Prelude.{◌≡◌, ◌==◌, ◌&&◌, ◌||◌, not, map, false, slice_index_or, Contains, IfOk, IsTrue, MatchOption};
ghost use Rattle.std.specs.List.{list_any, All};
ghost use Rattle.fair_rounds.specs.Rounds.{IsRound, IsFairByWords};
ghost use Rattle.fair_rounds.specs.Checks.{walks, runs_here, is_gap, is_met, from_of, IsShownRound, MeetsAll};
ghost use Rattle.fair_rounds.specs.Classes.{is_of, is_done_of};

use crate::classes::{is_inside, is_step};
use crate::graphs::{Edge, Round, Standing};
use crate::marks::{is_in, marks_at};
use processor::Step;
use std::alloc::{AllocError, Global};

/// The edges with these numbers, if they are a fair round from the place within the set.
pub(crate) fn checked_round(
    alloc: Global,
    edges: &[Edge],
    standings: &[Standing],
    set: &[bool],
    place: usize,
    numbers: &[usize],
) -> Result<Option<Round>, AllocError>
    ensures { IfOk result (λ o. MatchOption o (Unit {0}) (IsShownRound edges.now standings.now set.now)) }
{
    let round = edges_at(alloc, edges, numbers)?;
    if round.len() == 0 || !is_walk(&round, set, place, place) {
        return Ok(None);
    }
    let passed = marks_at(alloc, set.len(), &places_from(alloc, &round)?)?;
    if !meets_all(&round, standings, &passed) {
        return Ok(None);
    }
    Ok(Some(Round {
        place,
        edges: round,
    }))
}

/// The edges with these numbers, up to the first of which there is none.
pub(crate) fn edges_at(
    alloc: Global,
    edges: &[Edge],
    numbers: &[usize],
) -> Result<Vec<Edge>, AllocError>
    ensures { IfOk result (λ v. All (Contains edges.now) v.items) }
{
    let mut found = Vec::new(alloc);
    for index in 0..numbers.len() {
        let number = numbers[index];
        if number >= edges.len() {
            return Ok(found);
        }
        found.push(edges[number])?;
    }
    Ok(found)
}

/// Whether edges lead one after the other from a place to another one, within a set.
pub(crate) fn is_walk(round: &[Edge], set: &[bool], from: usize, to: usize) -> bool
    ensures { result ≡ walks set.now from round.now to }
{
    let mut here = from;
    for number in 0..round.len() {
        let edge = round[number];
        if edge.from as usize != here || !is_inside(edge, set) {
            return false;
        }
        here = edge.to as usize;
    }
    here == to
}

/// The places that edges lead from.
fn places_from(alloc: Global, edges: &[Edge]) -> Result<Vec<usize>, AllocError>
    ensures { IfOk result (λ v. v.items ≡ map from_of edges.now) }
{
    edges.iter().map(|edge| from_of(*edge)).collect(alloc)
}

/// The place that an edge leads from.
fn from_of(edge: Edge) -> usize
    ensures { result ≡ from_of edge }
{
    edge.from as usize
}

/// Whether each stream that stands at a marked place gets what it is due in a round.
fn meets_all(round: &[Edge], standings: &[Standing], marks: &[bool]) -> bool
    ensures { IsTrue result → MeetsAll round.now standings.now marks.now }
{
    for number in 0..standings.len() {
        let standing = standings[number];
        if is_in(standing.place as usize, marks) && !is_met(round, standings, standing) {
            return false;
        }
    }
    true
}

/// Whether the stream gets it: it completes if it could, and it has an edge, or does not run throughout.
fn is_met(round: &[Edge], standings: &[Standing], standing: Standing) -> bool
    ensures { result ≡ is_met round.now standings.now standing }
{
    let who = standing.step;
    (!standing.can_complete || completes(round, who))
        && (steps(round, who) || has_gap(round, standings, who))
}

/// Whether the stream has an edge in a round.
pub(crate) fn steps(round: &[Edge], who: Step) -> bool
    ensures { result ≡ list_any (is_of who) round.now }
{
    round.iter().any(
        |edge: &Edge| -> bool
            ensures { result ≡ is_of who edge.now }
        { is_step(who, edge.step) },
    )
}

/// Whether it has one that completes.
pub(crate) fn completes(round: &[Edge], who: Step) -> bool
    ensures { result ≡ list_any (is_done_of who) round.now }
{
    round.iter().any(
        |edge: &Edge| -> bool
            ensures { result ≡ is_done_of who edge.now }
        { is_step(who, edge.step) && edge.completes },
    )
}

/// Whether the stream does not run at some place of a round.
pub(crate) fn has_gap(round: &[Edge], standings: &[Standing], who: Step) -> bool
    ensures { result ≡ list_any (is_gap standings.now who) round.now }
{
    round.iter().any(
        |edge: &Edge| -> bool
            ensures { result ≡ is_gap standings.entry.now who edge.now }
        { !runs_at(standings, edge.from, who) },
    )
}

/// Whether the stream runs at a place.
fn runs_at(standings: &[Standing], place: u32, who: Step) -> bool
    ensures { result ≡ list_any (runs_here place who) standings.now }
{
    standings.iter().any(
        |standing: &Standing| -> bool
            ensures { result ≡ runs_here place who standing.now }
        { standing.place == place && is_step(who, standing.step) },
    )
}
