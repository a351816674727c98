//! How many steps states are away from the start.

ghost use Rattle.std.specs.Prelude.{◌≡◌, IfOk, length};
ghost use Rattle.schedule_space.specs.Spaces.{count, schedule_of};
ghost use Rattle.state_tables.specs.Depths.{depth_in, AreDepths};

use schedule_space::Space;
use std::alloc::{AllocError, Global};

/// Of each state how many steps its schedule has after those that all begin with.
pub fn depths_of(alloc: Global, space: &Space<'_>) -> Result<Vec<usize>, AllocError>
    ensures { IfOk result (λ v. AreDepths space.now (count space.now) v.items) }
{
    let mut depths = Vec::new(alloc);
    for place in 0..space.len() {
        let depth = depth_at(alloc, space, place)?;
        depths.push(depth)?;
    }
    Ok(depths)
}

/// How many steps the schedule of the state at a place has after those that all begin with.
fn depth_at(alloc: Global, space: &Space<'_>, place: usize) -> Result<usize, AllocError>
    ensures { IfOk result (λ n. n ≡ depth_in space.now place) }
{
    if place >= space.len() {
        return Err(AllocError);
    }
    let begin = space.begin().len();
    let schedule = space.schedule(alloc, place)?;
    Ok(schedule.len().saturating_sub(begin))
}
