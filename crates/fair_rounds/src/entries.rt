//! Ways within a set of places that come into other places again and again.

ghost use Rattle.std.specs.Prelude.{◌≡◌, IfOk};
ghost use Rattle.std.specs.List.{list_any};
ghost use Rattle.fair_rounds.specs.Entries.{is_entry, entries, enters_out, IsEntriesAnswer};

use crate::checked_rounds::{edges_at, is_walk};
use crate::classes::is_inside;
use crate::graphs::Edge;
use crate::lassos::{SoughtWays, begin_of};
use crate::levels::{Levels, entering_edges, marks_of};
use crate::marks::{first_in, is_in};
use crate::reached::{Reached, is_closed};
use std::alloc::{AllocError, Global};

/// A way within a set of places.
#[derive(Drop)]
pub struct EnteringWay {
    /// The place that it leads from.
    pub begin: usize,
    /// Its edges.
    pub edges: Vec<Edge>,
    /// The place that it leads to.
    pub place: usize,
}

/// What is found of the ways that are sought.
#[derive(Drop)]
pub enum EntriesAnswer {
    /// This is one.
    Found(EnteringWay),
    /// There is none.
    Absent,
    /// It is not known whether there is one.
    Undecided,
}

/// A way that comes into the places `inside` more than `most` times, if there is one.
pub fn find_entries(
    alloc: Global,
    ways: SoughtWays<'_>,
    inside: &[bool],
    most: usize,
) -> Result<EntriesAnswer, AllocError>
    ensures { IfOk result (λ a. IsEntriesAnswer ways.entry.edges.now ways.entry.within.now ways.entry.begins.now inside.now most a) }
{
    let mut levels = Levels::new(alloc);
    let mut begins = ways.begins.to_vec(alloc)?;
    for level in 0..most.saturating_add(1) {
        let here = SoughtWays {
            edges: ways.edges,
            within: ways.within,
            begins: &begins,
        };
        let reached = Reached::of(alloc, here)?;
        let entering = entering_edges(alloc, ways, inside, &reached.marks)?;
        let next = marks_of(alloc, &entering)?;
        if !is_closed(here, &reached.marks)
            || enters_out(ways.edges, ways.within, inside, &reached.marks, &next)
        {
            return Ok(EntriesAnswer::Undecided);
        }
        if first_in(&next).is_none() {
            return Ok(EntriesAnswer::Absent);
        }
        levels.push(reached, entering)?;
        if next.as_slice() == begins.as_slice() {
            break;
        }
        begins = next;
    }
    let numbers = levels.way(alloc, ways.edges, most)?;
    way_by(alloc, ways, inside, most, &numbers)
}

/// The way that has the edges with these numbers, if it comes into places more than so many times.
fn way_by(
    alloc: Global,
    ways: SoughtWays<'_>,
    inside: &[bool],
    most: usize,
    numbers: &[usize],
) -> Result<EntriesAnswer, AllocError>
    ensures { IfOk result (λ a. IsEntriesAnswer ways.entry.edges.now ways.entry.within.now ways.entry.begins.now inside.now most a) }
{
    let edges = edges_at(alloc, ways.edges, numbers)?;
    let begin = begin_of(&edges, 0);
    let place = end_of(&edges);
    if !is_in(begin, ways.begins) || !is_walk(&edges, ways.within, begin, place) {
        return Ok(EntriesAnswer::Undecided);
    }
    if entries(&edges, inside) <= most {
        return Ok(EntriesAnswer::Undecided);
    }
    Ok(EntriesAnswer::Found(EnteringWay {
        begin,
        edges,
        place,
    }))
}

/// The place that a way leads to; 0 where it has no edge.
fn end_of(way: &[Edge]) -> usize {
    match way {
        [.., edge] => edge.to as usize,
        [] => 0,
    }
}

/// How many edges of a way come into places.
fn entries(way: &[Edge], inside: &[bool]) -> usize
    ensures { result ≡ entries inside.now way.now }
{
    way.iter()
        .copied()
        .filter(
            |edge: &Edge| -> bool
                ensures { result ≡ is_entry inside.entry.now edge.now }
            { is_entry(*edge, inside) },
        )
        .count()
}

/// Whether an edge comes into places: it leads from none of them to one of them.
pub(crate) fn is_entry(edge: Edge, inside: &[bool]) -> bool
    ensures { result ≡ is_entry inside.now edge }
{
    !is_in(edge.from as usize, inside) && is_in(edge.to as usize, inside)
}

/// Whether an edge within a set leads from a marked place, comes into others, and leads to none of the next places.
fn enters_out(edges: &[Edge], set: &[bool], inside: &[bool], marks: &[bool], next: &[bool]) -> bool
    ensures { result ≡ list_any (enters_out set.now inside.now marks.now next.now) edges.now }
{
    edges.iter().any(
        |edge: &Edge| -> bool
            ensures { result ≡ enters_out set.entry.now inside.entry.now marks.entry.now next.entry.now edge.now }
        {
            is_inside(*edge, set)
                && (is_in(edge.from as usize, marks) && is_entry(*edge, inside))
                && !is_in(edge.to as usize, next)
        },
    )
}
