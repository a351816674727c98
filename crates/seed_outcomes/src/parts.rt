//! How work on many seeds is shared out among threads.

ghost use Rattle.std.specs.Prelude.{◌≡◌, ◌≤◌, ◌<◌, ◌+◌, ◌*◌, min};
ghost use Rattle.seed_outcomes.specs.Parts.{part_begin};

use rayon::current_num_threads;
use std::thread::Threads;

/// How many seeds a thread takes at most before it counts what they come to: so the memory of a survey is bounded.
const MOST_IN_PART: usize = 256;

/// How many of so many are in a part: each thread gets two parts, or more where these would be too large.
pub(crate) fn part_size<X: Threads>(rt: &X, count: usize) -> usize
    ensures { 0 < result }
{
    let pieces = current_num_threads(rt).saturating_mul(2);
    parts_of(count, pieces).min(MOST_IN_PART)
}

/// In how many parts of this size so many are; 1 where there are none.
pub(crate) fn parts_of(count: usize, size: usize) -> usize
    ensures some { 0 < result }
    ensures all { 0 < size → count ≤ result * size }
{
    let after_the_first = count.saturating_sub(1).checked_div(size).unwrap_or(0);
    after_the_first.saturating_add(1)
}

/// Where a part of this size begins, of what begins and ends at these places.
pub(crate) fn begin_of_part(begin: usize, end: usize, size: usize, part: usize) -> usize
    ensures { result ≡ part_begin begin end size part }
{
    begin.saturating_add(part.saturating_mul(size)).min(end)
}

/// Where a part of this size ends that begins at this place, of what ends there.
pub(crate) fn end_of_part(begin: usize, end: usize, size: usize) -> usize
    ensures { result ≡ min (begin + size) end }
{
    begin.saturating_add(size).min(end)
}
