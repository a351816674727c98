//! A session whose schedule goes on otherwise from a position.

ghost use Rattle.std.specs.Prelude.{◌≡◌, ◌<◌, ◌↔◌, ◌⊎◌, ◌++◌, length, Err, IfErr, IfOk, OnOk, OnErr};
ghost use Rattle.replay_debugger.specs.ScheduleChanges.{with_steps_from};

use crate::session::Session;
use debug_commands::DebugFault;
use processor::Step;
use std::alloc::{AllocError, Global};

impl<'i, const S: usize> Session<'i, S> {
    /// Makes the schedule its first `position` steps and then these. The session stands where it stood, or at
    /// `position` where that is below; its points stay, and what is kept of the steps before.
    ///
    /// `Past` exactly where the schedule has fewer steps, else `NoMemory`; both leave the session as it was.
    pub fn replace_schedule_from(&mut self, position: u64, steps: &[Step]) -> Result<(), DebugFault>
        ensures replaces { OnOk result (self.new ≡ with_steps_from self.old position steps.now) }
        ensures past { (result ≡ Err DebugFault.Past) ↔ (length self.old.schedule < position) }
        ensures faults { IfErr result (λ fault. (fault ≡ DebugFault.Past) ⊎ (fault ≡ DebugFault.NoMemory)) }
        ensures kept { OnErr result (self.new ≡ self.old) }
    {
        if position > self.schedule().len() as u64 {
            return Err(DebugFault::Past);
        }
        let shared = position as usize;
        let alloc = self.checkpoints.allocator();
        let schedule = joined(alloc, &self.schedule()[..shared], steps)?;
        self.replayed = 0;
        if shared < self.replay.position {
            self.move_to(shared)?;
        }
        self.checkpoints.change(schedule, shared);
        Ok(())
    }
}

/// Some steps and then others.
fn joined(alloc: Global, first: &[Step], then: &[Step]) -> Result<Vec<Step>, AllocError>
    ensures { IfOk result (λ steps. steps.items ≡ first.now ++ then.now) }
{
    let mut steps = Vec::new(alloc);
    steps.extend_from_slice(first)?;
    steps.extend_from_slice(then)?;
    Ok(steps)
}
