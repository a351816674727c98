//! Which ends can still be reached from the worlds of a space.

ghost use Rattle.std.specs.Prelude.{◌↔◌, IfOk, IsTrue, length};
ghost use Rattle.terminal_components.specs.Reachability.{IsMarked};
ghost use Rattle.space_graphs.specs.Ahead.{AreEndsAhead, AreMarks, AreMarkNumbers};

use lab_ends::ends_of_space::{SpaceEnd, links_of};
use lab_ends::space::Space;
use std::alloc::{AllocError, Global};
use terminal_components::{Link, places_that_reach};

/// For the world at each place of a space, the numbers of the ends, which count from 1, that can still be reached: to one
/// of whose worlds some steps between worlds of the space lead from there, or none. They ascend.
pub fn ends_ahead(
    alloc: Global,
    space: &Space<'_>,
    ends: &[SpaceEnd],
) -> Result<Vec<Vec<usize>>, AllocError>
    ensures { IfOk result (λ v. AreEndsAhead space.now ends.now v.items) }
{
    let links = links_of(alloc, space.edges())?;
    let marks = marks_of(alloc, space.len(), &links, ends)?;
    let mut ahead = Vec::new(alloc);
    for place in 0..space.len() {
        ahead.push(numbers_at(alloc, &marks, place)?)?;
    }
    Ok(ahead)
}

/// For each end, the places from which a way leads to one of its own.
fn marks_of(
    alloc: Global,
    count: usize,
    links: &[Link],
    ends: &[SpaceEnd],
) -> Result<Vec<Vec<bool>>, AllocError>
    ensures { IfOk result (λ v. AreMarks count links.now ends.now v.items) }
{
    let mut marks = Vec::new(alloc);
    for end in ends {
        marks.push(places_that_reach(alloc, count, links, &end.places)?)?;
    }
    Ok(marks)
}

/// The numbers of the ends at whose marks a place is marked.
fn numbers_at(alloc: Global, marks: &[Vec<bool>], place: usize) -> Result<Vec<usize>, AllocError>
    ensures { IfOk result (λ v. AreMarkNumbers marks.now place (length marks.now) v.items) }
{
    let mut numbers = Vec::new(alloc);
    for (index, of_end) in marks.iter().enumerate() {
        if is_marked(of_end, place) {
            numbers.push(index + 1)?;
        }
    }
    Ok(numbers)
}

/// Whether a place is marked.
fn is_marked(marks: &[bool], place: usize) -> bool
    ensures { IsTrue result ↔ IsMarked marks.now place }
{
    place < marks.len() && marks[place]
}
