//! How many worlds of a space there is time to look at, as claims ask for it: walks through the space come to each.

use space_ends::space::Space;
use std::time::Duration;

/// How many steps a machine takes in a millisecond, about.
const STEPS_PER_MILLISECOND: u64 = 10_000;

/// In the time of how many steps a world is looked at, about: by three walks, each with a step, with part of a copy of the
/// machine, and with the claims.
const STEPS_PER_WORLD: u64 = 60;

/// How much time has passed in a search, and how much is left.
#[derive(Clone, Copy, Debug)]
pub(crate) struct TimeLeft {
    /// That has passed.
    pub passed: Duration,
    /// That is left.
    pub left: Duration,
}

/// How many of the worlds of a space, the first ones, there is time to look at, and to find again before that; None where
/// there is time for all as they are.
pub(crate) fn worlds_in_time(space: &Space<'_>, time: TimeLeft) -> Option<usize> {
    let worlds = space.len() as u64;
    let left = steps_in(time.left);
    if worlds.saturating_mul(STEPS_PER_WORLD) <= left {
        return None;
    }
    let found_in = steps_in(time.passed) / worlds.max(1);
    let most = left / found_in.saturating_add(STEPS_PER_WORLD);
    Some(usize::try_from(most).unwrap_or(usize::MAX).max(1))
}

/// How many steps a machine takes in a time, about.
fn steps_in(time: Duration) -> u64 {
    u64::try_from(time.as_millis())
        .unwrap_or(u64::MAX)
        .saturating_mul(STEPS_PER_MILLISECOND)
}
