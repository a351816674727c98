//! Small graphs: terminal components, ways and cycles that are worked out by hand.

use std::alloc::Global;
use terminal_components::{Link, places_that_reach, shortest_cycle, terminal_roots};

/// The terminal components of seven places: 1 and 2 lead to each other, 3 to itself, and no link leaves 5; 0 and 4 only lead to them, and
/// so do 6 and 0 to each other.
const OF_SEVEN: [Link; 8] = [
    Link { from: 0, to: 1 },
    Link { from: 1, to: 2 },
    Link { from: 2, to: 1 },
    Link { from: 0, to: 3 },
    Link { from: 3, to: 3 },
    Link { from: 4, to: 5 },
    Link { from: 0, to: 6 },
    Link { from: 6, to: 0 },
];

const ROOTS_OF_SEVEN: [Option<usize>; 7] = [None, Some(1), Some(1), Some(3), None, Some(5), None];

fn are_roots_right(alloc: Global) -> Option<bool> {
    let roots = terminal_roots(alloc, 7, &OF_SEVEN).ok()?;
    Some(roots.as_slice() == ROOTS_OF_SEVEN.as_slice())
}

#[test]
fn terminal_components_of_seven_places(rt: HostRuntime) {
    assert!(rt; are_roots_right(rt.alloc()) == Some(true));
}

/// Which of six places can reach some: 0 leads to 1 and 2, 1 to 3, and 2 to 4 and back; no link leaves 3, 4 leads to 2, and 5
/// to 0.
const OF_SIX: [Link; 7] = [
    Link { from: 0, to: 1 },
    Link { from: 0, to: 2 },
    Link { from: 1, to: 3 },
    Link { from: 2, to: 4 },
    Link { from: 4, to: 2 },
    Link { from: 5, to: 0 },
    Link { from: 3, to: 9 },
];

/// The places to reach, and which of the six can reach one of them.
const REACHING: [(&[usize], [bool; 6]); 3] = [
    (&[3], [true, true, false, true, false, true]),
    (&[4, 1, 9], [true, true, true, false, true, true]),
    (&[], [false, false, false, false, false, false]),
];

fn can_reach(alloc: Global, goals: &[usize], expected: &[bool]) -> Option<bool> {
    let marks = places_that_reach(alloc, 6, &OF_SIX, goals).ok()?;
    Some(marks.as_slice() == expected)
}

#[test]
fn places_that_reach_one_or_some(rt: HostRuntime) {
    for (goals, expected) in REACHING {
        assert!(rt; can_reach(rt.alloc(), goals, &expected) == Some(true));
    }
}

/// A ring of four places with a link from 2 back to 0, and one from 3 to itself.
const OF_FOUR: [Link; 6] = [
    Link { from: 0, to: 1 },
    Link { from: 1, to: 2 },
    Link { from: 2, to: 3 },
    Link { from: 3, to: 0 },
    Link { from: 2, to: 0 },
    Link { from: 3, to: 3 },
];

/// Whether the shortest cycle through a place of four is of the links with these numbers; none if there is no cycle.
fn is_cycle(alloc: Global, place: usize, numbers: &[usize]) -> Option<bool> {
    let cycle = shortest_cycle(alloc, 4, &OF_FOUR, place).ok()??;
    Some(cycle.as_slice() == numbers)
}

#[test]
fn cycles_of_four_places(rt: HostRuntime) {
    assert!(rt; is_cycle(rt.alloc(), 1, &[1, 4, 0]) == Some(true));
    assert!(rt; is_cycle(rt.alloc(), 3, &[5]) == Some(true));
    assert!(rt; is_cycle(rt.alloc(), 4, &[]).is_none());
}
