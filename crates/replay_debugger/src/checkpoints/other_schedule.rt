//! Checkpoints of a schedule that goes on otherwise.

ghost use Rattle.std.specs.Prelude.{◌≡◌, ◌≤◌, ℕ, take, length};
ghost use Rattle.std.specs.List.{All};
ghost use Rattle.replay_debugger.specs.Places.{CheckpointsValue, checkpoints_of};
ghost use Rattle.replay_debugger.specs.Checkpoints.{IsCheckpoint};

use crate::checkpoints::Checkpoints;
use crate::replay::Replay;
use processor::Step;

impl<'i, const S: usize> Checkpoints<'i, S> {
    /// Takes another schedule, which begins with the same steps up to a position. What is kept after that position is
    /// dropped.
    pub(crate) fn change(&mut self, schedule: Vec<Step>, shared: usize)
        requires within { shared ≤ length schedule.items }
        requires same { take shared schedule.items ≡ take shared self.old.schedule }
        ensures { self.new ≡ checkpoints_of self.old.image schedule.items }
    {
        drop_after(&mut self.kept, shared);
        self.schedule = schedule;
    }
}

/// Drops what is kept after a position.
fn drop_after<const S: usize>(kept: &mut Vec<Replay<S>>, last: usize)
    ensures few { length kept.new.items ≤ length kept.old.items }
    ensures within { All (λ r. r.position ≤ last) kept.new.items }
    ensures were_kept { (course : CheckpointsValue) (spacing : ℕ) → All (IsCheckpoint course spacing) kept.old.items
        → All (IsCheckpoint course spacing) kept.new.items }
{
    let mut place = 0;
    while place < kept.len() {
        if kept[place].position <= last {
            place += 1;
        } else {
            kept.swap_remove(place);
        }
    }
}
