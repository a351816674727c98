//! How a world of a space was reached.

ghost use Rattle.std.specs.Prelude.{◌≡◌, ◌++◌, [], IfOk, reverse, slice_index_or};
ghost use Rattle.schedule_space.specs.Spaces.{schedules, IsRoute};

use crate::links::Link;
use processor::Step;
use std::alloc::{AllocError, Global};

/// The place of a world in a space, with what its schedule is read from: the one with which all begin, and the links.
#[derive(Clone, Copy)]
pub(crate) struct Route<'a> {
    pub(crate) begin: &'a [Step],
    pub(crate) links: &'a [Link],
    pub(crate) place: usize,
}

/// The route to a place.
pub(crate) fn route_to<'a>(begin: &'a Vec<Step>, links: &'a Vec<Link>, place: usize) -> Route<'a>
    ensures begin { result.begin.now ≡ begin.entry.now.items }
    ensures links { result.links.now ≡ links.entry.now.items }
    ensures place { result.place ≡ place }
{
    Route {
        begin,
        links,
        place,
    }
}

/// The schedule of a route.
pub(crate) fn schedule_by(alloc: Global, route: Route<'_>) -> Result<Vec<Step>, AllocError>
    requires { IsRoute route.links.now route.place }
    ensures { IfOk result (λ v. v.items ≡ slice_index_or (schedules route.entry.begin.now route.entry.links.now) route.entry.place []) }
{
    let mut schedule = Vec::from_slice(alloc, route.begin)?;
    let mut steps = steps_back(alloc, route)?;
    steps.reverse();
    schedule.extend_from_slice(&steps)?;
    Ok(schedule)
}

/// Its steps after those of the beginning, the last first.
pub(crate) fn steps_back(alloc: Global, route: Route<'_>) -> Result<Vec<Step>, AllocError>
    requires { IsRoute route.links.now route.place }
    ensures { IfOk result (λ v. route.entry.begin.now ++ reverse v.items
        ≡ slice_index_or (schedules route.entry.begin.now route.entry.links.now) route.entry.place []) }
{
    let mut steps = Vec::new(alloc);
    let mut here = route.place;
    for taken in 0..route.place {
        if here == 0 {
            return Ok(steps);
        }
        let link = route.links[here - 1];
        steps.push(link.step)?;
        here = link.from as usize;
    }
    Ok(steps)
}
