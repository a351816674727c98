//! The places that ways within a set come to. `is_closed` asks whether they are all; what is proved needs no more.

ghost use Rattle.std.specs.Prelude.{◌≡◌, IsTrue, MatchOption};
ghost use Rattle.std.specs.List.{list_any};
ghost use Rattle.fair_rounds.specs.Rounds.{IsIn};
ghost use Rattle.fair_rounds.specs.Lassos.{AreAmong, IsClosed, leads_out};

use crate::adjacent::{Adjacent, End, at, put};
use crate::classes::is_inside;
use crate::graphs::Edge;
use crate::lassos::SoughtWays;
use crate::marks::is_in;
use std::alloc::{AllocError, Global};

/// The number of no edge.
const NONE: usize = usize::MAX;

/// The places that ways come to.
#[derive(Drop)]
pub(crate) struct Reached {
    /// For each place whether a way comes to it.
    pub(crate) marks: Vec<bool>,
    /// For each the number of the last edge of a way to it; `NONE` where a way may begin.
    lasts: Vec<usize>,
    /// The places in the order in which they were found.
    order: Vec<usize>,
}

impl Reached {
    /// Those within a set, from the places where ways may begin.
    pub(crate) fn of(alloc: Global, ways: SoughtWays<'_>) -> Result<Reached, AllocError> {
        let count = ways.within.len();
        let out = Adjacent::of(alloc, ways.edges, ways.within, End::From)?;
        let mut reached = Reached {
            marks: vec![in alloc; false; count]?,
            lasts: vec![in alloc; NONE; count]?,
            order: Vec::new(alloc),
        };
        for place in 0..count {
            if is_in(place, ways.begins) {
                reached.find(place, NONE)?;
            }
        }
        for turn in 0..count {
            if turn >= reached.order.len() {
                break;
            }
            let here = reached.order[turn];
            for index in out.begin(here)..out.end(here) {
                reached.follow(ways.edges, out.number(index))?;
            }
        }
        Ok(reached)
    }

    /// Finds the place that an edge leads to.
    fn follow(&mut self, edges: &[Edge], number: usize) -> Result<(), AllocError> {
        if number >= edges.len() {
            return Ok(());
        }
        self.find(edges[number].to as usize, number)
    }

    /// Finds a place by an edge, unless it was found before.
    fn find(&mut self, place: usize, last: usize) -> Result<(), AllocError> {
        if place >= self.marks.len() || self.marks[place] {
            return Ok(());
        }
        self.marks[place] = true;
        put(&mut self.lasts, place, last);
        Ok(self.order.push(place)?)
    }

    /// The numbers of the edges of the way by which a place was found.
    pub(crate) fn way_to(
        &self,
        alloc: Global,
        edges: &[Edge],
        place: usize,
    ) -> Result<Vec<usize>, AllocError> {
        let mut numbers = Vec::new(alloc);
        let mut here = place;
        for _turn in 0..self.lasts.len() {
            let number = at(&self.lasts, here);
            if number >= edges.len() {
                break;
            }
            numbers.push(number)?;
            here = edges[number].from as usize;
        }
        numbers.reverse();
        Ok(numbers)
    }
}

/// Whether marks are of places of the set alone, of all where ways may begin, and no edge within the set leads out of them.
pub(crate) fn is_closed(ways: SoughtWays<'_>, marks: &[bool]) -> bool
    ensures { IsTrue result → IsClosed ways.entry.edges.now ways.entry.within.now ways.entry.begins.now marks.now }
{
    are_among(marks, ways.within)
        && are_among(ways.begins, marks)
        && !leads_out_of(ways.edges, ways.within, marks)
}

/// Whether an edge within a set leads out of the marks.
fn leads_out_of(edges: &[Edge], set: &[bool], marks: &[bool]) -> bool
    ensures { result ≡ list_any (leads_out set.now marks.now) edges.now }
{
    edges.iter().any(
        |edge: &Edge| -> bool
            ensures { result ≡ leads_out set.entry.now marks.entry.now edge.now }
        {
            is_inside(*edge, set)
                && is_in(edge.from as usize, marks)
                && !is_in(edge.to as usize, marks)
        },
    )
}

/// Whether each number that is marked in one list is marked in the other.
fn are_among(marks: &[bool], others: &[bool]) -> bool
    ensures { IsTrue result → AreAmong marks.now others.now }
{
    first_apart(marks, others).is_none()
}

/// The first number that is marked in one list, and not in the other.
pub(crate) fn first_apart(marks: &[bool], others: &[bool]) -> Option<usize>
    ensures { MatchOption result (AreAmong marks.now others.now)
        (λ k. IsIn marks.now k × ¬ (IsIn others.now k)) }
{
    for number in 0..marks.len() {
        if marks[number] && !is_in(number, others) {
            return Some(number);
        }
    }
    None
}
