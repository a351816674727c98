//! A second session that stands where one stands.

ghost use Rattle.std.specs.Prelude.{◌≡◌, IfOk};

use crate::points::Points;
use crate::session::Session;
use std::alloc::AllocError;

impl<'i, const S: usize> Session<'i, S> {
    /// A session equal to this one, over the same image, that goes its own way.
    pub fn try_clone(&self) -> Result<Session<'i, S>, AllocError>
        ensures { IfOk result (λ s. s ≡ self.now) }
    {
        Ok(Session {
            checkpoints: self.checkpoints.try_clone()?,
            replay: self.replay.try_clone()?,
            points: points_clone(&self.points)?,
            replayed: self.replayed,
        })
    }
}

/// The same points under the same keys.
fn points_clone(points: &Points) -> Result<Points, AllocError>
    ensures { IfOk result (λ p. p ≡ points.now) }
{
    let slots = points.slots.clone()?;
    Ok(Points { slots })
}
