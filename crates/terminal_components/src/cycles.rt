//! Shortest cycles through a place, and distances to it.

ghost use Rattle.std.specs.Prelude.{◌≡◌, ◌<◌, length, slice_index, IfOk, OnOk, MatchOption, slice_set, replicate};
ghost use Rattle.terminal_components.specs.Values.{far};
ghost use Rattle.terminal_components.specs.Cycles.{IsShortestCycle, HasNoCycle, AreDistances, LinksFrom, HasNoNearLink, IsNearestLink};

use crate::links::Link;
use crate::relaxation::lowest_of;
use std::alloc::{AllocError, Global};

/// The numbers of the links of a shortest cycle through a place, from there on: one link at least; None if no cycle goes
/// through it. The places are the first `count`; a link that names another one is none.
pub fn shortest_cycle(
    alloc: Global,
    count: usize,
    links: &[Link],
    place: usize,
) -> Result<Option<Vec<usize>>, AllocError>
    ensures { IfOk result (λ o. MatchOption o (HasNoCycle count links.now place)
        (λ v. IsShortestCycle count links.now place v.items)) }
{
    let distances = distances_to(alloc, count, links, place)?;
    let Some(first) = nearest_link(links, &distances, place) else {
        return Ok(None);
    };
    let mut numbers = Vec::new(alloc);
    numbers.push(first)?;
    let mut here = links[first].to as usize;
    while here != place {
        let Some(number) = nearest_link(links, &distances, here) else {
            return Ok(None);
        };
        numbers.push(number)?;
        here = links[number].to as usize;
    }
    Ok(Some(numbers))
}

/// For each place how many links a shortest way from it has to this one; the largest number where no way leads there.
fn distances_to(
    alloc: Global,
    count: usize,
    links: &[Link],
    place: usize,
) -> Result<Vec<usize>, AllocError>
    ensures { IfOk result (λ v. AreDistances count links.now place v.items) }
{
    let start = distances_of_none(alloc, count, place)?;
    Ok(lowest_of(links, 1, start))
}

/// The same where there is no link.
fn distances_of_none(alloc: Global, count: usize, place: usize) -> Result<Vec<usize>, AllocError>
    ensures items { IfOk result (λ v. v.items ≡ slice_set (replicate count far) place 0) }
    ensures few { OnOk result (count < far) }
{
    let mut distances = vec![in alloc; usize::MAX; count]?;
    if place < count {
        distances[place] = 0;
    }
    Ok(distances)
}

/// The number of a link that leads from a place to one of the least distance; None where each leads to the largest.
fn nearest_link(links: &[Link], distances: &[usize], place: usize) -> Option<usize>
    ensures { MatchOption result (HasNoNearLink links.now distances.now place)
        (λ number. IsNearestLink links.now distances.now place number) }
{
    let mut nearest = None;
    let mut least = usize::MAX;
    for (number, link) in links.iter().enumerate() {
        let distance = distance_by(*link, distances, place);
        if distance < least {
            least = distance;
            nearest = Some(number);
        }
    }
    nearest
}

/// The distance of the place that a link leads to from this one; the largest number where it does not.
fn distance_by(link: Link, distances: &[usize], place: usize) -> usize
    ensures reaches { result < far → LinksFrom (length distances.now) place link }
    ensures at { LinksFrom (length distances.now) place link → result ≡ slice_index distances.now link.to }
{
    let from = link.from as usize;
    let to = link.to as usize;
    if from == place && from < distances.len() && to < distances.len() {
        distances[to]
    } else {
        usize::MAX
    }
}
