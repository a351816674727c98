//! Terminal components: the strongly connected components that no link leaves.

ghost use Rattle.std.specs.Prelude.{◌≡◌, length, IfOk};
ghost use Rattle.terminal_components.specs.Components.{AreRoots, AreTerminalComponents};
ghost use Rattle.terminal_components.specs.ReachMarks.{AreNumbers, AreLeast, AreMemberRoots};

use crate::links::Link;
use crate::reach_marks::{member_marks, stray_marks};
use crate::relaxation::lowest_of;
use std::alloc::{AllocError, Global};

/// For each place the root of the terminal component that it belongs to, which is its least place; None if it belongs to
/// none. A terminal component is a set of places that no link leaves and in which each place can reach each other one: all
/// that one place can reach, if each of them can reach it. A place that no link leads from is one by itself.
///
/// The places are the first `count`; a link that names another one is none.
pub fn terminal_roots(
    alloc: Global,
    count: usize,
    links: &[Link],
) -> Result<Vec<Option<usize>>, AllocError>
    ensures roots { IfOk result (λ v. AreRoots count links.now v.items) }
    ensures components { IfOk result (λ v. AreTerminalComponents count links.now v.items) }
{
    let least = least_reachable(alloc, count, links)?;
    let strays = stray_marks(alloc, links, &least)?;
    let members = member_marks(alloc, links, &least, &strays)?;
    member_roots(alloc, &least, &members)
}

/// For each place the least one that it can reach.
fn least_reachable(alloc: Global, count: usize, links: &[Link]) -> Result<Vec<usize>, AllocError>
    ensures { IfOk result (λ v. AreLeast count links.now v.items) }
{
    let places = numbers(alloc, count)?;
    Ok(lowest_of(links, 0, places))
}

/// The numbers below a count.
fn numbers(alloc: Global, count: usize) -> Result<Vec<usize>, AllocError>
    ensures { IfOk result (λ v. AreNumbers count v.items) }
{
    let mut numbers = Vec::with_capacity(alloc, count)?;
    for number in 0..count {
        numbers.push(number)?;
    }
    Ok(numbers)
}

/// The least place, which is the root, of each that is marked, and None of the others.
fn member_roots(
    alloc: Global,
    least: &[usize],
    marks: &[usize],
) -> Result<Vec<Option<usize>>, AllocError>
    requires { length marks.now ≡ length least.now }
    ensures { IfOk result (λ v. AreMemberRoots least.now marks.now v.items) }
{
    let mut roots = Vec::with_capacity(alloc, least.len())?;
    for place in 0..least.len() {
        roots.push(if marks[place] == 0 {
            Some(least[place])
        } else {
            None
        })?;
    }
    Ok(roots)
}
