//! The schedule of a session, and its steps beside the position.

ghost use Rattle.std.specs.Prelude.{◌≡◌, slice_get};
ghost use Rattle.replay_debugger.specs.StreamSteps.{step_to};

use crate::session::Session;
use processor::Step;

impl<'i, const S: usize> Session<'i, S> {
    /// The schedule that the session replays.
    pub fn schedule(&self) -> &[Step]
        ensures { result.now ≡ self.now.schedule }
    {
        self.checkpoints.schedule()
    }

    /// The step that comes at the session's position; None at the schedule's end.
    pub fn next_step(&self) -> Option<Step>
        ensures { result ≡ slice_get self.now.schedule self.now.position }
    {
        self.schedule().get(self.replay.position).copied()
    }

    /// The step that led to the session's position; None at position 0.
    pub fn last_step(&self) -> Option<Step>
        ensures { result ≡ step_to self.now.schedule self.now.position }
    {
        if self.replay.position == 0 {
            return None;
        }
        self.schedule().get(self.replay.position - 1).copied()
    }
}
