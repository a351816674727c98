//! From how many worlds some schedule leads to ends.

use crate::end_values::SpaceEnd;
use seed_verdicts::space::{Edge, Space};
use std::alloc::{AllocError, Global};

/// How many ends are looked at together: each has a bit of the marks.
const ENDS_TOGETHER: usize = 64;

/// For each end, from how many worlds of a space some schedule leads to one of its places.
pub(crate) fn sources_of(
    alloc: Global,
    space: &Space<'_>,
    ends: &[SpaceEnd],
) -> Result<Vec<usize>, AllocError> {
    let mut sources = Vec::new(alloc);
    for some_ends in ends.chunks(ENDS_TOGETHER) {
        let marks = marks_of(alloc, space, some_ends)?;
        let mut bit = 1u64;
        for _ in some_ends {
            let count = marks.iter().filter(|mark| **mark & bit != 0).count();
            sources.push(count)?;
            bit = bit.rotate_left(1);
        }
    }
    Ok(sources)
}

/// For each world of a space the bits of those of some ends that a schedule leads to from there, the first end's the
/// lowest.
fn marks_of(alloc: Global, space: &Space<'_>, ends: &[SpaceEnd]) -> Result<Vec<u64>, AllocError> {
    let mut marks = vec![in alloc; 0u64; space.len()]?;
    let mut bit = 1u64;
    for end in ends {
        for place in &end.places {
            if let Some(mark) = marks.get_mut(*place) {
                *mark |= bit;
            }
        }
        bit = bit.rotate_left(1);
    }
    for _ in 0..space.len() {
        if !spread_once(space.edges(), &mut marks) {
            break;
        }
    }
    Ok(marks)
}

/// Adds to the bits of the world that each edge leads from those of the world to which it leads, and says whether there was
/// one to add.
fn spread_once(edges: &[Edge], marks: &mut [u64]) -> bool {
    let mut is_more = false;
    for edge in edges.iter().rev() {
        let to = marks.get(edge.to as usize).copied().unwrap_or(0);
        if let Some(from) = marks.get_mut(edge.from as usize) {
            let both = *from | to;
            is_more = is_more || both != *from;
            *from = both;
        }
    }
    is_more
}
