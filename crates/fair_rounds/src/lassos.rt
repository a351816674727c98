//! Ways within a set of places that end where no stream runs, or in a fair round.

ghost use Rattle.std.specs.Prelude.{◌≡◌, map, IfOk};
ghost use Rattle.fair_rounds.specs.Classes.{place_of};
ghost use Rattle.fair_rounds.specs.Lassos.{IsLassoAnswer, IsShownWay};

use crate::checked_rounds::{edges_at, is_walk};
use crate::graphs::{Answer, Edge, Standing};
use crate::marks::{is_in, marks_at};
use crate::reached::{Reached, first_apart, is_closed};
use crate::rounds::fair_round;
use crate::trims::place_of;
use std::alloc::{AllocError, Global};

/// What follows a way.
#[derive(Drop)]
pub enum Tail {
    /// Nothing: no stream runs at its last place.
    Stop,
    /// A round at its last place that is fair by words.
    Round(Vec<Edge>),
}

/// A way within a set of places, and what follows it.
#[derive(Drop)]
pub struct Lasso {
    /// The place that it leads from.
    pub begin: usize,
    /// Its edges.
    pub way: Vec<Edge>,
    /// The place that it leads to.
    pub place: usize,
    /// What follows there.
    pub tail: Tail,
}

/// What is found of the ways that are sought.
#[derive(Drop)]
pub enum LassoAnswer {
    /// This is one.
    Found(Lasso),
    /// There is none.
    Absent,
    /// It is not known whether there is one.
    Undecided,
}

/// The edges of a graph, the places within which ways are sought, and those from which they lead.
#[derive(Clone, Copy)]
pub struct SoughtWays<'a> {
    /// The edges.
    pub edges: &'a [Edge],
    /// For each place whether ways may go through it.
    pub within: &'a [bool],
    /// For each place whether a way may begin there.
    pub begins: &'a [bool],
}

/// A way that ends where no stream runs, or in a round that is fair by words, if there is one.
pub fn find_lasso(
    alloc: Global,
    ways: SoughtWays<'_>,
    standings: &[Standing],
) -> Result<LassoAnswer, AllocError>
    ensures { IfOk result (λ a. IsLassoAnswer ways.entry.edges.now standings.now ways.entry.within.now ways.entry.begins.now a) }
{
    let reached = Reached::of(alloc, ways)?;
    if !is_closed(ways, &reached.marks) {
        return Ok(LassoAnswer::Undecided);
    }
    let stands = marks_at(alloc, ways.within.len(), &all_places_of(alloc, standings)?)?;
    if let Some(stop) = first_apart(&reached.marks, &stands) {
        return lasso_to(alloc, ways, &reached, stop, Tail::Stop);
    }
    match fair_round(alloc, ways.edges, standings, &reached.marks)? {
        Answer::Found(round) => {
            lasso_to(alloc, ways, &reached, round.place, Tail::Round(round.edges))
        }
        Answer::Absent => Ok(LassoAnswer::Absent),
        Answer::Undecided => Ok(LassoAnswer::Undecided),
    }
}

/// The way to a place that was reached, with what follows there.
fn lasso_to(
    alloc: Global,
    ways: SoughtWays<'_>,
    reached: &Reached,
    place: usize,
    tail: Tail,
) -> Result<LassoAnswer, AllocError>
    ensures { IfOk result (λ a. IsShownWay ways.entry.edges.now ways.entry.within.now ways.entry.begins.now place tail a) }
{
    let numbers = reached.way_to(alloc, ways.edges, place)?;
    let way = edges_at(alloc, ways.edges, &numbers)?;
    let begin = begin_of(&way, place);
    if !is_in(begin, ways.begins) || !is_walk(&way, ways.within, begin, place) {
        return Ok(LassoAnswer::Undecided);
    }
    Ok(LassoAnswer::Found(Lasso {
        begin,
        way,
        place,
        tail,
    }))
}

/// The place that a way leads from; where it has no edge, the place that it leads to.
pub(crate) fn begin_of(way: &[Edge], place: usize) -> usize {
    match way {
        [edge, ..] => edge.from as usize,
        [] => place,
    }
}

/// The places at which streams stand.
fn all_places_of(alloc: Global, standings: &[Standing]) -> Result<Vec<usize>, AllocError>
    ensures { IfOk result (λ v. v.items ≡ map place_of standings.now) }
{
    standings
        .iter()
        .map(|standing| place_of(*standing))
        .collect(alloc)
}
