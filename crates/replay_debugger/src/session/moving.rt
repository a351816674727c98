//! The commands that go to another position.

ghost use Rattle.std.specs.Prelude.{◌≡◌, ◌≤◌, length, IfOk, IfSome, OnOk, OnErr};
ghost use Rattle.replay_debugger.specs.StopFinders.{IsLastBelow};
ghost use Rattle.replay_debugger.specs.Table.{IsResultOf, stops_of};

use crate::session::Session;
use crate::stop_finder::StopFinder;
use debug_commands::{Answer, Command, DebugFault, Why};
use std::alloc::AllocError;

impl<'i, const S: usize> Session<'i, S> {
    /// So many steps forward.
    pub(super) fn forward(&mut self, count: u64) -> Result<Answer, DebugFault>
        ensures { IsResultOf self.old (Command.Forward count) result self.new }
    {
        let position = self.replay.position;
        let left = self.checkpoints.schedule().len() - position;
        if count > left as u64 {
            return Err(DebugFault::Past);
        }
        let goal = position + count as usize;
        self.move_to(goal)?;
        Ok(Answer::At(goal as u64, Why::Moved))
    }

    /// To a position.
    pub(super) fn go(&mut self, goal: u64) -> Result<Answer, DebugFault>
        ensures { IsResultOf self.old (Command.Go goal) result self.new }
    {
        if goal > self.checkpoints.schedule().len() as u64 {
            return Err(DebugFault::Past);
        }
        self.move_to(goal as usize)?;
        Ok(Answer::At(goal, Why::Moved))
    }

    /// On to the next stop, or to the end.
    pub(super) fn go_on(&mut self) -> Result<Answer, DebugFault>
        ensures { IsResultOf self.old Command.Continue result self.new }
    {
        let end = self.checkpoints.schedule().len();
        if self.points.is_empty() {
            self.move_to(end)?;
            return Ok(Answer::At(end as u64, Why::End));
        }
        let alloc = self.checkpoints.allocator();
        let mut stops = StopFinder::of(alloc, &self.points, &self.replay.machine)?;
        let from = self.replay.position;
        let why = if self
            .replay
            .run_to_stop(&mut self.checkpoints, &mut stops, end)
        {
            Why::Stop
        } else {
            Why::End
        };
        self.replayed = (self.replay.position - from) as u64;
        Ok(Answer::At(self.replay.position as u64, why))
    }

    /// Back to the last stop, or to the start.
    pub(super) fn back(&mut self) -> Result<Answer, DebugFault>
        ensures { IsResultOf self.old Command.Back result self.new }
    {
        let (last, searched) = self.last_stop()?;
        let (goal, why) = match last {
            Some(goal) => (goal, Why::Stop),
            None => (0, Why::Start),
        };
        self.move_to(goal)?;
        self.replayed = self.replayed.saturating_add(searched);
        Ok(Answer::At(goal as u64, why))
    }

    /// Goes to a position, from the nearest one that is kept at or below it, the present one included.
    pub(super) fn move_to(&mut self, goal: usize) -> Result<(), AllocError>
        requires { goal ≤ length self.old.schedule }
        ensures goes { OnOk result (self.new ≡ record self.old { position = goal }) }
        ensures kept { OnErr result (self.new ≡ self.old) }
    {
        let present = self.replay.position;
        if goal < present {
            self.replay = self.checkpoints.nearest_below(goal)?;
        } else if present < goal {
            if let Some(replay) = self.checkpoints.nearest(present + 1, goal) {
                self.replay = replay;
            }
        }
        self.replayed = (goal - self.replay.position) as u64;
        self.replay.run_to(&mut self.checkpoints, goal);
        Ok(())
    }

    /// The last stop below the position, and how many steps were run to find it: first those from the nearest
    /// position that is kept, and where none of them stops those from the one before it.
    fn last_stop(&mut self) -> Result<(Option<usize>, u64), AllocError>
        ensures last { IfOk result (λ r. IsLastBelow (stops_of self.old) self.old.position r.0) }
        ensures within { IfOk result (λ r. IfSome r.0 (λ k. k ≤ length self.old.schedule)) }
        ensures kept { self.new ≡ self.old }
    {
        let Some(top) = self.replay.position.checked_sub(1) else {
            return Ok((None, 0));
        };
        let alloc = self.checkpoints.allocator();
        let mut stops = StopFinder::of(alloc, &self.points, &self.replay.machine)?;
        let mut high = top;
        loop {
            let mut replay = self.checkpoints.nearest_below(high.saturating_sub(1))?;
            let low = replay.position;
            let last = replay.last_stop(&mut self.checkpoints, &mut stops, high);
            if last.is_some() || low == 0 {
                return Ok((last, (top - low) as u64));
            }
            high = low;
        }
    }
}
