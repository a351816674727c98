//! The lowest value that a place can reach, by relaxing each link until nothing changes (Bellman and Ford).

ghost use Rattle.std.specs.Prelude.{◌≡◌, ℕ, ◌+◌, ◌<◌, ◌≤◌, length, sum, slice_index, false, IsTrue, List, MatchOption};
ghost use Rattle.terminal_components.specs.Values.{IsNoHigher, IsLow, AreLow, AreReachedValues, AreNear, IsLowest, far};

use crate::links::Link;

/// For each place the lowest of the values of those that it can reach, where each link on the way adds `cost`. There are as
/// many places as values; a link that names another one is none.
pub(crate) fn lowest_of(links: &[Link], cost: usize, start: Vec<usize>) -> Vec<usize>
    ensures lowest { IsLowest links.now cost start.items result.items }
    ensures near { cost ≤ 1 → AreNear start.items → AreNear result.items }
{
    let mut values = start;
    relax_all(links, cost, &mut values);
    values
}

/// Lowers each value to that.
fn relax_all(links: &[Link], cost: usize, values: &mut [usize])
    ensures lowest { IsLowest links.now cost values.old values.new }
    ensures near { cost ≤ 1 → AreNear values.old → AreNear values.new }
{
    loop {
        let is_lower = relax_once(links, cost, values);
        if !is_lower {
            return;
        }
    }
}

/// Lowers the value of each place to those that links from it lead to, and says whether one was to be lowered. Of links
/// in the order of the places that they lead from, those that lead on to later places are mostly done in one go.
fn relax_once(links: &[Link], cost: usize, values: &mut [usize]) -> bool
    ensures reached { (start : List ℕ) → AreReachedValues links.now cost start values.old
        → AreReachedValues links.now cost start values.new }
    ensures kept { IsNoHigher values.old values.new }
    ensures near { cost ≤ 1 → AreNear values.old → AreNear values.new }
    ensures less { IsTrue result → sum values.new < sum values.old }
    ensures low { result ≡ false → AreLow links.now cost values.new }
{
    let mut is_lower = false;
    for number in (0..links.len()).rev() {
        let link = links[number];
        if let Some(value) = relaxed_value(link, cost, values) {
            values[link.from as usize] = value;
            is_lower = true;
        }
    }
    is_lower
}

/// The value that the place has by this link from which it leads, where that is lower than its own.
fn relaxed_value(link: Link, cost: usize, values: &[usize]) -> Option<usize>
    ensures { MatchOption result (IsLow values.now cost link) (λ w. (link.from < length values.now)
        × (link.to < length values.now) × (w ≡ slice_index values.now link.to + cost)
        × (w < slice_index values.now link.from) × (w < far)) }
{
    let from = link.from as usize;
    let to = link.to as usize;
    if from >= values.len() || to >= values.len() {
        return None;
    }
    let value = values[to].saturating_add(cost);
    if value < values[from] {
        Some(value)
    } else {
        None
    }
}
