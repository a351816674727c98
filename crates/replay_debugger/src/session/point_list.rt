//! The points of a session, one by one and all together.

ghost use Rattle.std.specs.Prelude.{◌≡◌, IfOk};
ghost use Rattle.replay_debugger.specs.Points.{point_at};
ghost use Rattle.replay_debugger.specs.PointLists.{points_from};

use crate::points::{Point, Points};
use crate::session::Session;
use std::alloc::{AllocError, Global};

impl<'i, const S: usize> Session<'i, S> {
    /// The point that stands under a key; None where none does.
    pub fn point(&self, key: u64) -> Option<Point>
        ensures { result ≡ point_at self.now.points key }
    {
        self.points.slots.get(key as usize).copied()
    }

    /// The points, each with its key, by rising key.
    pub fn points(&self, alloc: Global) -> Result<Vec<(u64, Point)>, AllocError>
        ensures { IfOk result (λ points. points.items ≡ points_from 0 self.now.points) }
    {
        keyed_points(alloc, &self.points)
    }
}

/// The points, each with its key, by rising key.
fn keyed_points(alloc: Global, points: &Points) -> Result<Vec<(u64, Point)>, AllocError>
    ensures { IfOk result (λ keyed. keyed.items ≡ points_from 0 points.now) }
{
    let mut keyed = Vec::new(alloc);
    for (key, point) in points.slots.iter() {
        keyed.push((key as u64, *point))?;
    }
    Ok(keyed)
}
