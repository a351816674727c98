//! Worlds grouped by the ends that can still be reached from them, and a colour for each group.

use std::alloc::{AllocError, Global};

/// The colours of groups, light ones on which black is read; the next groups have them again.
const COLOURS: [&str; 12] = [
    "#eeeeee", "#8dd3c7", "#ffffb3", "#bebada", "#fb8072", "#80b1d3", "#fdb462", "#b3de69",
    "#fccde5", "#c8c8c8", "#ccebc5", "#ffed6f",
];

/// Groups of worlds, by the numbers of the ends that can still be reached from them.
#[derive(Drop)]
pub(crate) struct Groups {
    /// The places of the first worlds of the groups, in order.
    pub firsts: Vec<usize>,
    /// For the world at each place the number of its group, from 0.
    pub group_of: Vec<usize>,
}

/// The groups of worlds from which the same ends can still be reached.
pub(crate) fn groups_of(alloc: Global, ahead: &[Vec<usize>]) -> Result<Groups, AllocError> {
    let mut firsts: Vec<usize> = Vec::new(alloc);
    let mut group_of = Vec::with_capacity(alloc, ahead.len())?;
    for (place, numbers) in ahead.iter().enumerate() {
        match group_with(ahead, &firsts, numbers) {
            Some(group) => group_of.push(group)?,
            None => {
                group_of.push(firsts.len())?;
                firsts.push(place)?;
            }
        }
    }
    Ok(Groups { firsts, group_of })
}

/// The first group whose worlds have these numbers.
fn group_with(ahead: &[Vec<usize>], firsts: &[usize], numbers: &[usize]) -> Option<usize> {
    firsts
        .iter()
        .position(|first| numbers_of(ahead, *first) == numbers)
}

/// The numbers of the world at a place.
pub(crate) fn numbers_of(ahead: &[Vec<usize>], place: usize) -> &[usize] {
    match ahead.get(place) {
        Some(numbers) => numbers,
        None => &[],
    }
}

/// The colour of a group.
pub(crate) fn colour(group: usize) -> &'static str {
    COLOURS[group % COLOURS.len()]
}
