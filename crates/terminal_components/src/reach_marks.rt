//! Marks of places: 0 where a place is marked, else 1. How they spread to the places that can reach a marked one, and those
//! by which the terminal components are found.

ghost use Rattle.std.specs.Prelude.{◌≡◌, ◌<◌, ◌↔◌, length, map, reverse, IfOk, IsTrue};
ghost use Rattle.terminal_components.specs.ReachMarks.{AreSpreadMarks, AreExitMarks, IsExit, AreStrayMarks, AreRootMarks, AreMemberMarks, flip};

use crate::links::Link;
use crate::relaxation::lowest_of;
use std::alloc::{AllocError, Global};

/// Marks the places that can reach a marked place.
pub(crate) fn spread_marks(links: &[Link], marks: Vec<usize>) -> Vec<usize>
    ensures { AreSpreadMarks links.now marks.items result.items }
{
    lowest_of(links, 0, marks)
}

/// Marks the places that can reach an exit: a place from which a link leads to one with another least place.
pub(crate) fn stray_marks(
    alloc: Global,
    links: &[Link],
    least: &[usize],
) -> Result<Vec<usize>, AllocError>
    ensures { IfOk result (λ v. AreStrayMarks links.now least.now v.items) }
{
    let exits = exit_marks(alloc, links, least)?;
    Ok(spread_marks(links, exits))
}

/// Marks the exits.
fn exit_marks(alloc: Global, links: &[Link], least: &[usize]) -> Result<Vec<usize>, AllocError>
    ensures { IfOk result (λ v. AreExitMarks links.now least.now v.items) }
{
    let mut marks = vec![in alloc; 1; least.len()]?;
    for link in links {
        if is_exit(*link, least) {
            marks[link.from as usize] = 0;
        }
    }
    Ok(marks)
}

/// Whether a link leads from a place to one with another least place.
fn is_exit(link: Link, least: &[usize]) -> bool
    ensures { IsTrue result ↔ IsExit least.now link }
{
    let from = link.from as usize;
    let to = link.to as usize;
    from < least.len() && to < least.len() && least[from] != least[to]
}

/// Marks the members of the terminal components: the places that a root can reach.
pub(crate) fn member_marks(
    alloc: Global,
    links: &[Link],
    least: &[usize],
    strays: &[usize],
) -> Result<Vec<usize>, AllocError>
    requires { length strays.now ≡ length least.now }
    ensures { IfOk result (λ v. AreMemberMarks links.now least.now strays.now v.items) }
{
    let roots = root_marks(alloc, least, strays)?;
    let back = reversed_links(alloc, links)?;
    Ok(spread_marks(&back, roots))
}

/// Marks the roots: the places that are the least which they can reach, and can reach no exit.
fn root_marks(alloc: Global, least: &[usize], strays: &[usize]) -> Result<Vec<usize>, AllocError>
    requires { length strays.now ≡ length least.now }
    ensures { IfOk result (λ v. AreRootMarks least.now strays.now v.items) }
{
    let mut marks = Vec::new(alloc);
    for place in 0..least.len() {
        let is_root = least[place] == place && strays[place] != 0;
        marks.push(if is_root { 0 } else { 1 })?;
    }
    Ok(marks)
}

/// The reversed links, the last first.
fn reversed_links(alloc: Global, links: &[Link]) -> Result<Vec<Link>, AllocError>
    ensures { IfOk result (λ v. v.items ≡ map flip (reverse links.now)) }
{
    links.iter().rev().map(|link| flip(*link)).collect(alloc)
}

/// The reversed link.
fn flip(link: Link) -> Link
    ensures { result ≡ flip link }
{
    Link {
        from: link.to,
        to: link.from,
    }
}
