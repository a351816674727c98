//! Checkpoints of their own for another session.

ghost use Rattle.std.specs.Prelude.{◌≡◌, ◌+◌, ◌≤◌, ℕ, length, IfOk, IfSome};
ghost use Rattle.std.specs.List.{All};
ghost use Rattle.replay_debugger.specs.Places.{CheckpointsValue};
ghost use Rattle.replay_debugger.specs.Checkpoints.{IsCheckpoint, IsStart};

use crate::checkpoints::Checkpoints;
use crate::replay::Replay;
use processor::Step;
use std::alloc::{AllocError, Global};

impl<'i, const S: usize> Checkpoints<'i, S> {
    /// The same schedule, with clones of what is kept along it. A clone that finds no memory is left out.
    pub(crate) fn try_clone(&self) -> Result<Checkpoints<'i, S>, AllocError>
        ensures { IfOk result (λ c. c ≡ self.now) }
    {
        let alloc = self.allocator();
        let schedule = steps_copy(alloc, &self.schedule)?;
        Ok(Checkpoints {
            image: self.image,
            schedule,
            spacing: self.spacing,
            start: start_clone(&self.start),
            kept: kept_clones(alloc, &self.kept),
        })
    }
}

/// The same steps once more.
fn steps_copy(alloc: Global, steps: &[Step]) -> Result<Vec<Step>, AllocError>
    ensures { IfOk result (λ copy. copy.items ≡ steps.now) }
{
    let mut copy = Vec::new(alloc);
    copy.extend_from_slice(steps)?;
    Ok(copy)
}

/// A clone of the start, where there is one and memory for it.
fn start_clone<'i, const S: usize>(start: &Option<Replay<'i, S>>) -> Option<Replay<'i, S>>
    ensures { (course : CheckpointsValue) → IfSome start.now (IsStart course) → IfSome result (IsStart course) }
{
    match start {
        Some(start) => start.try_clone().ok(),
        None => None,
    }
}

/// Clones of those machines for which there is memory.
fn kept_clones<'i, const S: usize>(alloc: Global, kept: &[Replay<'i, S>]) -> Vec<Replay<'i, S>>
    ensures few { length result.items ≤ length kept.now }
    ensures are_kept { (course : CheckpointsValue) (spacing : ℕ) → All (IsCheckpoint course spacing) kept.now
        → All (IsCheckpoint course spacing) result.items }
{
    let mut clones = Vec::new(alloc);
    for replay in kept {
        add_clone(&mut clones, replay);
    }
    clones
}

/// Adds a clone of a machine, where there is memory for it.
fn add_clone<'i, const S: usize>(clones: &mut Vec<Replay<'i, S>>, replay: &Replay<'i, S>)
    ensures few { length clones.new.items ≤ length clones.old.items + 1 }
    ensures are_kept { (course : CheckpointsValue) (spacing : ℕ) → IsCheckpoint course spacing replay.now
        → All (IsCheckpoint course spacing) clones.old.items → All (IsCheckpoint course spacing) clones.new.items }
{
    let Ok(clone) = replay.try_clone() else {
        return;
    };
    let _ = clones.push(clone);
}
