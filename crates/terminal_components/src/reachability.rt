//! The places that can reach given ones.

ghost use Rattle.std.specs.Prelude.{IfOk};
ghost use Rattle.terminal_components.specs.Reachability.{AreBackwardReachable};
ghost use Rattle.terminal_components.specs.ReachMarks.{AreGoalMarks, AreMarkBits};

use crate::links::Link;
use crate::reach_marks::spread_marks;
use std::alloc::{AllocError, Global};

/// For each place whether it can reach one of the goals; a goal can reach itself. The places are the first `count`; a link
/// that names another one is none, nor is such a goal.
pub fn places_that_reach(
    alloc: Global,
    count: usize,
    links: &[Link],
    goals: &[usize],
) -> Result<Vec<bool>, AllocError>
    ensures { IfOk result (λ v. AreBackwardReachable count links.now goals.now v.items) }
{
    let marks = goal_marks(alloc, count, goals)?;
    mark_bits(alloc, &spread_marks(links, marks))
}

/// Marks the goals.
fn goal_marks(alloc: Global, count: usize, goals: &[usize]) -> Result<Vec<usize>, AllocError>
    ensures { IfOk result (λ v. AreGoalMarks count goals.now v.items) }
{
    let mut marks = vec![in alloc; 1; count]?;
    for goal in goals {
        if *goal < count {
            marks[*goal] = 0;
        }
    }
    Ok(marks)
}

/// For each place whether it is marked.
fn mark_bits(alloc: Global, marks: &[usize]) -> Result<Vec<bool>, AllocError>
    ensures { IfOk result (λ v. AreMarkBits marks.now v.items) }
{
    let mut are = Vec::with_capacity(alloc, marks.len())?;
    for mark in marks {
        are.push(*mark == 0)?;
    }
    Ok(are)
}
