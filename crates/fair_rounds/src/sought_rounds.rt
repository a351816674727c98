//! A closed walk from a place with an edge of each stream that is due one. `checked_rounds` asks whether it is fair, and
//! what is proved needs no more.

use crate::adjacent::{Adjacent, End, at, place_at, put};
use crate::checked_rounds::{completes, has_gap, steps};
use crate::graphs::{Edge, Standing};
use crate::marks::is_in;
use crate::trims::streams_of;
use processor::Step;
use std::alloc::{AllocError, Global};

/// The numbers of the edges of such a walk within a set, if one is found.
pub(crate) fn sought_round(
    alloc: Global,
    edges: &[Edge],
    standings: &[Standing],
    set: &[bool],
    place: usize,
) -> Result<Vec<usize>, AllocError> {
    let forth = Reach::of(alloc, edges, set, place, End::To)?;
    let back = Reach::of(alloc, edges, set, place, End::From)?;
    let out = Adjacent::of(alloc, edges, set, End::From)?;
    let inside = edges_inside(alloc, edges, &out, &forth, &back)?;
    let mut round: Vec<usize> = Vec::new(alloc);
    let mut walked: Vec<Edge> = Vec::new(alloc);
    let streams = streams_of(alloc, standings)?;
    for who in &streams {
        if let Some(stop) = stop_of(edges, standings, &inside, &walked, *who) {
            add_lap(edges, &forth, &back, stop, &mut round)?;
            walked = edges_at(alloc, edges, &round)?;
        }
    }
    if round.is_empty() && !inside.is_empty() {
        add_lap(edges, &forth, &back, inside[0], &mut round)?;
    }
    Ok(round)
}

/// The places that are reached from one, and by which edges.
#[derive(Drop)]
struct Reach {
    place: usize,
    marks: Vec<bool>,
    edges: Vec<usize>,
    order: Vec<usize>,
}

impl Reach {
    /// Those that can be reached from a place, or from which it can be: `end` is the end of an edge that is found.
    fn of(
        alloc: Global,
        edges: &[Edge],
        set: &[bool],
        place: usize,
        end: End,
    ) -> Result<Reach, AllocError> {
        let count = set.len();
        let adjacent = Adjacent::of(alloc, edges, set, other_end(end))?;
        let mut reach = Reach {
            place,
            marks: vec![in alloc; false; count]?,
            edges: vec![in alloc; 0; count]?,
            order: Vec::new(alloc),
        };
        if place < reach.marks.len() {
            reach.marks[place] = true;
            reach.order.push(place)?;
        }
        for turn in 0..count {
            if turn >= reach.order.len() {
                break;
            }
            let here = reach.order[turn];
            for index in adjacent.begin(here)..adjacent.end(here) {
                reach.find(edges, adjacent.number(index), end)?;
            }
        }
        Ok(reach)
    }

    /// Finds the place at the end of an edge.
    fn find(&mut self, edges: &[Edge], number: usize, end: End) -> Result<(), AllocError> {
        if number < edges.len() {
            let found = place_at(edges[number], end);
            if found < self.marks.len() && !self.marks[found] {
                self.marks[found] = true;
                put(&mut self.edges, found, number);
                self.order.push(found)?;
            }
        }
        Ok(())
    }

    /// Adds the edges from a place that is reached, one after the other, to where the search began.
    fn add_way(
        &self,
        edges: &[Edge],
        from: usize,
        end: End,
        numbers: &mut Vec<usize>,
    ) -> Result<(), AllocError> {
        let mut here = from;
        for _turn in 0..self.order.len() {
            if here == self.place {
                break;
            }
            let number = at(&self.edges, here);
            if number < edges.len() {
                numbers.push(number)?;
                here = place_at(edges[number], other_end(end));
            }
        }
        Ok(())
    }
}

/// The other end.
fn other_end(end: End) -> End {
    match end {
        End::From => End::To,
        End::To => End::From,
    }
}

/// The numbers of the edges between places that are reached both ways, those of the nearest first.
fn edges_inside(
    alloc: Global,
    edges: &[Edge],
    out: &Adjacent,
    forth: &Reach,
    back: &Reach,
) -> Result<Vec<usize>, AllocError> {
    let mut inside = Vec::new(alloc);
    for place in &forth.order {
        if is_in(*place, &back.marks) {
            for index in out.begin(*place)..out.end(*place) {
                let number = out.number(index);
                if number < edges.len() && is_in(edges[number].to as usize, &back.marks) {
                    inside.push(number)?;
                }
            }
        }
    }
    Ok(inside)
}

/// The number of an edge that a round still lacks for a stream: a step of it that completes, else one of its steps, else
/// a step from where it does not run.
fn stop_of(
    edges: &[Edge],
    standings: &[Standing],
    inside: &[usize],
    walked: &[Edge],
    who: Step,
) -> Option<usize> {
    if completes(walked, who) {
        return None;
    }
    let mut own = None;
    for number in inside {
        if *number < edges.len() {
            let edge = [edges[*number]];
            if completes(&edge, who) {
                return Some(*number);
            }
            if own.is_none() && steps(&edge, who) {
                own = Some(*number);
            }
        }
    }
    if steps(walked, who) || has_gap(walked, standings, who) {
        return None;
    }
    match own {
        Some(number) => Some(number),
        None => gap_of(edges, standings, inside, who),
    }
}

/// The first from where the stream does not run.
fn gap_of(edges: &[Edge], standings: &[Standing], inside: &[usize], who: Step) -> Option<usize> {
    for number in inside {
        if *number < edges.len() && has_gap(&[edges[*number]], standings, who) {
            return Some(*number);
        }
    }
    None
}

/// Adds a way to an edge, the edge, and a way back.
fn add_lap(
    edges: &[Edge],
    forth: &Reach,
    back: &Reach,
    stop: usize,
    round: &mut Vec<usize>,
) -> Result<(), AllocError> {
    if stop >= edges.len() {
        return Ok(());
    }
    let begin = round.len();
    forth.add_way(edges, edges[stop].from as usize, End::To, round)?;
    if begin <= round.len() {
        round[begin..].reverse();
    }
    round.push(stop)?;
    back.add_way(edges, edges[stop].to as usize, End::From, round)
}

/// The edges with these numbers.
fn edges_at(alloc: Global, edges: &[Edge], numbers: &[usize]) -> Result<Vec<Edge>, AllocError> {
    let mut found = Vec::new(alloc);
    for number in numbers {
        if *number < edges.len() {
            found.push(edges[*number])?;
        }
    }
    Ok(found)
}
