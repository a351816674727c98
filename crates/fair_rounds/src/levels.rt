//! The places that ways come to after so many entries, and ways to them. What is proved needs none of it to be right.

use crate::adjacent::{at, put};
use crate::classes::is_inside;
use crate::entries::is_entry;
use crate::graphs::Edge;
use crate::lassos::SoughtWays;
use crate::marks::is_in;
use crate::reached::Reached;
use std::alloc::{AllocError, Global};

/// The number of no edge.
const NONE: usize = usize::MAX;

/// The places that ways come to after no entry, after one, and so on. Where a level repeats the one before it, so do all
/// after it, and it is there once.
#[derive(Drop)]
pub(crate) struct Levels {
    /// What is reached.
    reached: Vec<Reached>,
    /// For each level and place the number of an edge by which ways come in there; `NONE` if there is none.
    entering: Vec<Vec<usize>>,
}

impl Levels {
    /// No level.
    pub(crate) fn new(alloc: Global) -> Levels {
        Levels {
            reached: Vec::new(alloc),
            entering: Vec::new(alloc),
        }
    }

    /// Adds a level.
    pub(crate) fn push(
        &mut self,
        reached: Reached,
        entering: Vec<usize>,
    ) -> Result<(), AllocError> {
        self.reached.push(reached)?;
        Ok(self.entering.push(entering)?)
    }

    /// The numbers of the edges of a way with one entry more than `most`.
    pub(crate) fn way(
        &self,
        alloc: Global,
        edges: &[Edge],
        most: usize,
    ) -> Result<Vec<usize>, AllocError> {
        let mut numbers = Vec::new(alloc);
        let mut place = self.entered_last(most);
        for turn in 0..most.saturating_add(1) {
            let level = self.level(most.saturating_sub(turn));
            if level >= self.reached.len() || level >= self.entering.len() {
                break;
            }
            let entry = at(&self.entering[level], place);
            if entry >= edges.len() {
                break;
            }
            numbers.push(entry)?;
            let from = edges[entry].from as usize;
            place = push_way(alloc, &mut numbers, edges, &self.reached[level], from)?;
        }
        numbers.reverse();
        Ok(numbers)
    }

    /// A place where ways come in for the last time.
    fn entered_last(&self, most: usize) -> usize {
        let level = self.level(most);
        if level >= self.entering.len() {
            return 0;
        }
        first_entered(&self.entering[level])
    }

    /// Which level stands for one.
    fn level(&self, level: usize) -> usize {
        level.min(self.reached.len().saturating_sub(1))
    }
}

/// The first place with an edge.
fn first_entered(entering: &[usize]) -> usize {
    for place in 0..entering.len() {
        if entering[place] != NONE {
            return place;
        }
    }
    0
}

/// Adds the edges of the way to a place, the last one first. Gives the place that it leads from.
fn push_way(
    alloc: Global,
    numbers: &mut Vec<usize>,
    edges: &[Edge],
    reached: &Reached,
    place: usize,
) -> Result<usize, AllocError> {
    let way = reached.way_to(alloc, edges, place)?;
    let mut begin = place;
    for turn in 0..way.len() {
        let number = way[way.len() - 1 - turn];
        if number < edges.len() {
            begin = edges[number].from as usize;
        }
        numbers.push(number)?;
    }
    Ok(begin)
}

/// For each place the number of an edge within the set by which ways come in there from marked places; `NONE` if there is
/// none.
pub(crate) fn entering_edges(
    alloc: Global,
    ways: SoughtWays<'_>,
    inside: &[bool],
    marks: &[bool],
) -> Result<Vec<usize>, AllocError> {
    let mut entering = vec![in alloc; NONE; ways.within.len()]?;
    for number in 0..ways.edges.len() {
        let edge = ways.edges[number];
        if is_inside(edge, ways.within)
            && is_in(edge.from as usize, marks)
            && is_entry(edge, inside)
        {
            put(&mut entering, edge.to as usize, number);
        }
    }
    Ok(entering)
}

/// For each place whether ways come in there.
pub(crate) fn marks_of(alloc: Global, entering: &[usize]) -> Result<Vec<bool>, AllocError> {
    let mut marks = Vec::new(alloc);
    for place in 0..entering.len() {
        marks.push(entering[place] != NONE)?;
    }
    Ok(marks)
}
